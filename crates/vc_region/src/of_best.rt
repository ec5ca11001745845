ghost use Rattle.std.specs.Prelude.{◌≡◌, option_map};
ghost use Rattle.vc_region.specs.OfBest.{best_in};
ghost use Rattle.vc_region.specs.declared.region.Region.TheVariants.{Best as OfBest};

use crate::region::Region;
use vc_best::Best;

impl Region {
    /// What it holds where its method is `VmBest`, and none exactly where it is another. This project's own.
    pub fn as_best(&self) -> Option<&Best>
        ensures { option_map (λ b. b.now) result ≡ best_in self.now }
    {
        match self {
            Region::Best(best) => Some(best),
            _ => None,
        }
    }

    /// The region of the method `VmBest` that holds this one. This project's own.
    pub fn from_best(best: Best) -> Region
        ensures { result ≡ OfBest best }
    {
        Region::Best(best)
    }
}
