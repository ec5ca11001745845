ghost use Rattle.std.specs.Prelude.{◌≡◌, length, map};
ghost use Rattle.vc_commands.specs.Held.{home_of};
ghost use Rattle.vc_steps.specs.Homes.{held_in_session};
ghost use Rattle.vc_steps.specs.Sizes.{AreNamed, size_in_home};
ghost use Rattle.vc_steps.specs.State.{home_named};

use crate::session::Session;
use vc_base::Name;
use vc_seg::{BoxedDisc, SegDisc};

impl<D> Session<D> {
    /// The size in bytes of the block of the second name in the region of the first; 0 where there is no such region or
    /// no such block.
    pub fn size_named(&self, region: &Name, block: &Name) -> u32
        requires labels { length self.now.labels.items ≡ length self.now.homes.entries }
        requires names { AreNamed (held_in_session state self.now) }
        ensures { result ≡ size_in_home block.now
            (home_named region.now (map home_of (held_in_session state self.now))) }
    {
        match self.region_index(region) {
            Some(i) => self.homes[i].size_named(&self.labels[i], block),
            None => 0,
        }
    }
}
