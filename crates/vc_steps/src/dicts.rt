ghost use Rattle.std.specs.Prelude.{◌≡◌};

use crate::session::Session;
use vc_base::Name;

impl<D> Session<D> {
    ghost use Rattle.vc_steps.specs.DictHomes.{lies_in};

    // Whether a dictionary lies in the region of that name.
    pub(crate) fn is_busy(&self, region: &Name) -> bool
        ensures { result ≡ lies_in region.now self.now.dicts.entries }
    {
        self.dicts.values().any(|entry| entry.home == *region)
    }
}
