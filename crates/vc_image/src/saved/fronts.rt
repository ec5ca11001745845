ghost use Rattle.std.specs.Prelude.{◌≡◌, ◌≤◌, IsSome, length};
ghost use Rattle.vc_image.specs.Save.{image_in};
ghost use Rattle.vc_image_check.specs.Parts.Front.{IsSoundFront};
ghost use Rattle.vc_region.specs.OfBest.{best_in};

use vc_dict::Dict;
use vc_region::Region;

/// A law: in the image of a best region with at most 256 dictionaries, whatever these are, the head, each segment and
/// the tree of free extents are sound. This project's own.
pub fn saved_front(region: &Region, dicts: &[Dict])
    requires best { IsSome (best_in region.now) }
    requires few { length dicts.now ≤ 256 }
    ensures { IsSoundFront (image_in region.now dicts.now) }
{}
