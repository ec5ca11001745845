ghost use Rattle.std.specs.Prelude.{ℕ, List};
ghost use Rattle.std.specs.List.{AllByRecursion};
ghost use Rattle.vc_model.specs.Discipline.{Terms};
ghost use Rattle.vc_dtdisc.specs.Rules.{AreLawful, Rules};
ghost use Rattle.vc_image.specs.Load.{IsLoaded};
ghost use Rattle.vc_image.specs.Save.{image_in};
ghost use Rattle.vc_image_check.specs.Dicts.Whole.{IsFirstUnsoundPart, IsSoundImage};
ghost use Rattle.vc_image_check.specs.declared.parts.part.Part.{Part};
ghost use Rattle.vc_image.specs.Saved.Saved.{AreOfImage, AreSame, AreSavableIn};

use crate::Loaded;
use vc_dict::Dict;
use vc_region::Region;

/// A law: what an image without an unsound part holds can be saved again: a best region with its segments, and whole
/// dictionaries with its numbers. This project's own.
pub fn sound_can_be_saved(region: &Region, dicts: &[Dict])
    ensures { (kinds : List Rules) (image : List ℕ) → AllByRecursion AreLawful kinds
        → IsSoundImage kinds image → AreOfImage kinds image region.now dicts.now
        → AreSavableIn kinds region.now dicts.now }
{}

/// A law: the image of what can be saved for some kinds has no unsound part for them, so that it is never `Bad`; and
/// what is loaded from it is what was saved, but for the discipline: each byte of the segments, the root of the tree,
/// and each dictionary, so that its list, its count and its current object are the same. This project's own.
pub fn saved_is_loaded(region: &Region, dicts: &[Dict], loaded: &Loaded)
    ensures never_bad { (kinds : List Rules) (part : Part) → AreSavableIn kinds region.now dicts.now
        → ¬ IsFirstUnsoundPart kinds (image_in region.now dicts.now) part }
    ensures same { (kinds : List Rules) (terms : Terms) → AreSavableIn kinds region.now dicts.now
        → IsLoaded kinds terms (image_in region.now dicts.now) loaded.now.region loaded.now.dicts
        → AreSame region.now dicts.now loaded.now.region loaded.now.dicts }
{}

/// A law: what is loaded from an image can be saved again. This project's own.
pub fn loaded_can_be_saved(loaded: &Loaded)
    ensures { (kinds : List Rules) (terms : Terms) (image : List ℕ) → AllByRecursion AreLawful kinds
        → IsLoaded kinds terms image loaded.now.region loaded.now.dicts
        → AreSavableIn kinds loaded.now.region loaded.now.dicts }
{}
