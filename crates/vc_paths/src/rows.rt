ghost use Rattle.std.specs.Prelude.{◌≡◌, ◌∷◌, [], None, Some, false, length, true};
ghost use Rattle.vc_dtdisc.specs.Finding.{before_first, behind_last, first_of, last_of};
ghost use Rattle.vc_paths.specs.Links.{are_too_long, is_too_long, is_viewed, links_with};
ghost use Rattle.vc_paths.specs.Links.{no_links, path};
ghost use Rattle.vc_paths.specs.Rows.{bags_of_kind, apple, by_whole, by_four, chain, fruit, is_named};
ghost use Rattle.vc_paths.specs.Rows.{key1_low, key1_up, key2, other_kind, other_method, pear};
ghost use Rattle.vc_paths.specs.Rows.{place_seen, quince, seen_at, x, y, zebra};
ghost use Rattle.vc_paths.specs.View.{view_fault};

use crate::ViewFault;
use vc_base::DictMethod;

/// A path goes from a dictionary to the one that it views, and on to the end.
pub fn path_rows()
    ensures alone { path no_links 7 ≡ 7 ∷ [] }
    ensures first { path (chain 2) 0 ≡ 0 ∷ 1 ∷ 2 ∷ [] }
    ensures middle { path (chain 2) 1 ≡ 1 ∷ 2 ∷ [] }
    ensures ended { path (links_with 1 None (chain 2)) 0 ≡ 0 ∷ 1 ∷ [] }
    ensures viewed { is_viewed (chain 2) 2 ≡ true }
    ensures not_viewed { is_viewed (chain 2) 0 ≡ false }
{}

/// A path of 16 dictionaries isn't too long, and one of 17 is; so is a circle.
pub fn length_rows()
    ensures sixteen { length (path (chain 15) 0) ≡ 16 }
    ensures not_too_long { are_too_long (chain 15) ≡ false }
    ensures seventeen { is_too_long (chain 16) 0 ≡ true }
    ensures from_the_second { is_too_long (chain 16) 1 ≡ false }
    ensures circle { is_too_long (links_with 2 (Some 0) (chain 2)) 1 ≡ true }
    ensures itself { is_too_long (links_with 3 (Some 3) no_links) 3 ≡ true }
{}

/// Why a dictionary can't view another one, in this order: other methods or kinds, a circle, a path of 17.
pub fn view_rows()
    ensures method { view_fault other_method (chain 1) 1 0 ≡ Some ViewFault.Differs }
    ensures kind { view_fault other_kind (chain 1) 1 0 ≡ Some ViewFault.Differs }
    ensures itself { view_fault bags_of_kind no_links 3 3 ≡ Some ViewFault.Cycle }
    ensures circle { view_fault bags_of_kind (chain 15) 15 0 ≡ Some ViewFault.Cycle }
    ensures below { view_fault bags_of_kind (chain 15) 15 16 ≡ Some ViewFault.TooDeep }
    ensures above { view_fault bags_of_kind (chain 15) 16 0 ≡ Some ViewFault.TooDeep }
    ensures sixteen { view_fault bags_of_kind (chain 14) 14 15 ≡ None }
    ensures old_link { view_fault bags_of_kind (chain 15) 0 20 ≡ None }
    ensures again { view_fault bags_of_kind (chain 2) 0 2 ≡ None }
{}

/// Of unordered layers an object hides all that match it in those below, and none of its own.
pub fn layer_rows()
    ensures empty { seen_at DictMethod.DtBag by_whole ([] ∷ (x ∷ x ∷ y ∷ []) ∷ [])
        ≡ (1, 1) ∷ (1, 2) ∷ (1, 3) ∷ [] }
    ensures hidden { seen_at DictMethod.DtBag by_whole ((x ∷ []) ∷ (x ∷ x ∷ y ∷ []) ∷ [])
        ≡ (0, 1) ∷ (1, 3) ∷ [] }
    ensures own { seen_at DictMethod.DtBag by_whole ((x ∷ x ∷ []) ∷ (y ∷ []) ∷ [])
        ≡ (0, 1) ∷ (0, 2) ∷ (1, 1) ∷ [] }
    ensures three { seen_at DictMethod.DtBag by_whole ((x ∷ []) ∷ (x ∷ []) ∷ (x ∷ y ∷ []) ∷ [])
        ≡ (0, 1) ∷ (2, 2) ∷ [] }
{}

/// What is seen of a set by keys of four bytes: the upper object of a key, and the lower one once that is gone.
pub fn key_rows()
    ensures upper { seen_at DictMethod.DtSet by_four
        ((key1_up ∷ []) ∷ (key1_low ∷ key2 ∷ []) ∷ []) ≡ (0, 1) ∷ (1, 2) ∷ [] }
    ensures lower { seen_at DictMethod.DtSet by_four ([] ∷ (key1_low ∷ key2 ∷ []) ∷ [])
        ≡ (1, 1) ∷ (1, 2) ∷ [] }
{}

/// What is seen of ordered layers stands in order of its keys: a pear over an apple, a pear and a zebra.
pub fn order_rows()
    ensures seen { seen_at DictMethod.DtOset by_whole
        ((pear ∷ []) ∷ (apple ∷ pear ∷ zebra ∷ []) ∷ []) ≡ (1, 1) ∷ (0, 1) ∷ (1, 3) ∷ [] }
    ensures bag { seen_at DictMethod.DtObag by_whole
        ((pear ∷ pear ∷ []) ∷ (apple ∷ pear ∷ zebra ∷ []) ∷ [])
        ≡ (1, 1) ∷ (0, 1) ∷ (0, 2) ∷ (1, 3) ∷ [] }
    ensures first { place_seen (first_of fruit) ≡ Some (1, 1) }
    ensures last { place_seen (last_of fruit) ≡ Some (1, 3) }
    ensures behind { place_seen (behind_last (is_named pear) fruit) ≡ Some (1, 3) }
    ensures before { place_seen (before_first (is_named pear) fruit) ≡ Some (1, 1) }
    ensures none_behind { place_seen (behind_last (is_named quince) fruit) ≡ None }
    ensures none_before { place_seen (before_first (is_named apple) fruit) ≡ None }
{}
