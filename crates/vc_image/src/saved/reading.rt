ghost use Rattle.std.specs.Prelude.{◌≡◌, IfSome, List};
ghost use Rattle.vc_dtdisc.specs.Rules.{Rules};
ghost use Rattle.vc_image.specs.Load.{dicts_of};
ghost use Rattle.vc_image.specs.Save.{image_contents, image_in};
ghost use Rattle.vc_image_check.specs.Bytes.Contents.{contents_of_image};
ghost use Rattle.vc_image.specs.Saved.Saved.{AreReadableIn};
ghost use Rattle.vc_region.specs.OfBest.{best_in};

use vc_dict::Dict;
use vc_region::Region;

/// A law: what is read of the image of a best region with at most 256 dictionaries, each whole over the region by the rules
/// of its kind, is the root, each byte of the segments and the very dictionaries, also where the image isn't sound. This
/// project's own.
pub fn saved_is_read(region: &Region, dicts: &[Dict])
    ensures contents { (kinds : List Rules) → AreReadableIn kinds region.now dicts.now
        → IfSome (best_in region.now)
        (λ b. contents_of_image (image_in region.now dicts.now) ≡ image_contents b dicts.now) }
    ensures dicts { (kinds : List Rules) → AreReadableIn kinds region.now dicts.now
        → dicts_of (image_in region.now dicts.now) ≡ dicts.now }
{}
