ghost use Rattle.std.specs.Prelude.{◌≡◌, [], ◌∷◌, Some, None, codes, false, true};
ghost use Rattle.vc_commands.specs.TagRows.{with_tags};
ghost use Rattle.vc_commands.specs.Tagged.{have_own_tags, name_by_tag};

/// A tag names its block, from 1 on.
pub fn name_by_tag_rows()
    ensures none { name_by_tag 0 ≡ None }
    ensures first { name_by_tag 1 ≡ Some (codes "b1") }
    ensures most { name_by_tag 1000000 ≡ Some (codes "b1000000") }
{}

/// Blocks without a label share a tag, and no others do; no tag is above 1,000,000.
pub fn own_tag_rows()
    ensures own { have_own_tags (with_tags (3 ∷ 0 ∷ 1 ∷ 0 ∷ [])) ≡ true }
    ensures two { have_own_tags (with_tags (3 ∷ 0 ∷ 1 ∷ 3 ∷ [])) ≡ false }
    ensures most { have_own_tags (with_tags (1000000 ∷ 1 ∷ [])) ≡ true }
    ensures above { have_own_tags (with_tags (1 ∷ 1000001 ∷ [])) ≡ false }
{}
