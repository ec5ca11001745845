ghost use Rattle.std.specs.Prelude.{◌≡◌, ℕ, true};
ghost use Rattle.vc_base.specs.Holders.{contains};
ghost use Rattle.vc_base.specs.Methods.{is_set};
ghost use Rattle.vc_dict.specs.Parts.{heads_in};
ghost use Rattle.vc_dtdisc.specs.Rules.{AreLawful};
ghost use Rattle.vc_image_check.specs.Dicts.Alone.{AreAlone};
ghost use Rattle.vc_image_check.specs.Dicts.Sound.{SoundNumbers, holders_in, numbered_dict, own_in};
ghost use Rattle.vc_objects.specs.Objects.{own_blocks};
ghost use Rattle.vc_objects.specs.Parts.{IsWhole, dictionary_of};

/// A law: numbers that are sound by a method and a kind are those of a dictionary that is whole, as the calls on
/// dictionaries want it; its heads are these numbers, its blocks those that were taken, and no two objects of a set
/// match. This project's own.
pub fn sound_is_whole()
    ensures whole { (n : SoundNumbers) (kind : ℕ) → IsWhole n.rules (numbered_dict n kind) n.blocks }
    ensures heads { (n : SoundNumbers) (kind : ℕ) → heads_in (numbered_dict n kind) ≡ n.heads }
    ensures own { (n : SoundNumbers) (kind a : ℕ)
        → contains (own_blocks (dictionary_of (numbered_dict n kind) n.blocks)) a
        ≡ contains (own_in n.method n.blocks n.count n.heads) a }
    ensures alone { (n : SoundNumbers) → AreLawful n.rules → is_set n.method ≡ true
        → AreAlone n.rules n.blocks (holders_in n.method n.blocks n.count n.heads) }
{}
