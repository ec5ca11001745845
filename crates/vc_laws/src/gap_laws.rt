ghost use Rattle.std.specs.Prelude.{ℕ, List, AllPairs, Contains, ◌↔◌};
ghost use Rattle.vc_model.specs.Gap.{Run, gaps};
ghost use Rattle.vc_model.specs.Layout.{Layout, footprints};
ghost use Rattle.vc_model.specs.Numbers.{gaps_of};
ghost use Rattle.vc_model.specs.Sound.{IsApart, IsSound};
ghost use Rattle.vc_laws.specs.Maximal.{AreLawful, IsWholeGap};

/// The gaps are exactly the longest runs of free bytes, in whatever order segments and footprints stand, and each is
/// there once: no two have a byte in common.
pub fn gaps_are_maximal()
    ensures exactly { (segments : List (ℕ × ℕ)) → (footprints : List Run)
        → AreLawful segments footprints
        → (run : Run) → Contains (gaps segments footprints) run ↔ IsWholeGap segments footprints run }
    ensures once { (segments : List (ℕ × ℕ)) → (footprints : List Run)
        → AreLawful segments footprints → AllPairs IsApart (gaps segments footprints) }
{}

/// So are those of a region with heads whose blocks don't overlap and lie in its segments, in whatever order they stand
/// in its list.
pub fn gaps_of_regions_are_maximal<L>()
    ensures exactly { (r : Layout L) → IsSound r
        → (run : Run) → Contains (gaps_of r) run ↔ IsWholeGap r.segments (footprints r.blocks) run }
    ensures once { (r : Layout L) → IsSound r → AllPairs IsApart (gaps_of r) }
{}
