ghost use Rattle.std.specs.Prelude.{◌≡◌};
ghost use Rattle.vc_region.specs.Cells.{rest_in};
ghost use Rattle.vc_commands.specs.Held.{AreLabelsOf};
ghost use Rattle.vc_commands.specs.RegionRun.{region_with};
ghost use Rattle.vc_commands.specs.Sizes.{size_named};

use crate::region::home::{HomeEntry, find_block};
use crate::region::labels::Labels;
use vc_base::Name;

impl HomeEntry {
    /// The size in bytes of the block of that name, from 1 on, in the region whose names these are; 0 where no block has
    /// the name.
    pub fn size_named(&self, labels: &Labels, name: &Name) -> u32
        requires names { AreLabelsOf (rest_in self.now.region) labels.now }
        ensures { result ≡ size_named name.now (region_with self.now labels.now).0 }
    {
        match find_block(&self.region, labels, name) {
            None => 0,
            Some(at) => self.region.size(at),
        }
    }
}
