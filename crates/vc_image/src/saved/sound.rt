ghost use Rattle.std.specs.Prelude.{◌≡◌, IfSome, List};
ghost use Rattle.vc_dtdisc.specs.Rules.{Rules};
ghost use Rattle.vc_image.specs.Save.{image_contents, image_in};
ghost use Rattle.vc_image_check.specs.Bytes.Contents.{contents_of_image};
ghost use Rattle.vc_image_check.specs.Dicts.Whole.{IsSoundImage};
ghost use Rattle.vc_image.specs.Saved.Saved.{AreSavableIn};
ghost use Rattle.vc_region.specs.OfBest.{best_in};

use vc_dict::Dict;
use vc_region::Region;

/// A law: the image of a best region with dictionaries has no unsound part for some kinds, where each dictionary is
/// whole over the region by the rules of its kind, no two objects of a set match, and each unlabelled block belongs to
/// just one dictionary. What is read of it is the root, each byte of the segments and the dictionaries' numbers. This
/// project's own.
pub fn saved_is_sound(region: &Region, dicts: &[Dict])
    ensures sound { (kinds : List Rules) → AreSavableIn kinds region.now dicts.now
        → IsSoundImage kinds (image_in region.now dicts.now) }
    ensures again { (kinds : List Rules) → AreSavableIn kinds region.now dicts.now
        → IfSome (best_in region.now)
        (λ b. contents_of_image (image_in region.now dicts.now) ≡ image_contents b dicts.now) }
{}
