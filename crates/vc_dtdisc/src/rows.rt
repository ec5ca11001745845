ghost use Rattle.std.specs.Prelude.{◌≡◌, ℕ, ◌-◌, [], ◌∷◌, codes, replicate};
ghost use Rattle.std.specs.declared.cmp.Ordering.{Ordering};
ghost use Rattle.vc_model.specs.Count.{last_count};
ghost use Rattle.vc_dtdisc.specs.Rules.{gone_after};
ghost use Rattle.vc_dtdisc.specs.Shapes.{hash_of, key_in_shape, made_of, order_of, shape_hash};

use crate::Shape;

/// Keys are parts of their objects: a field that passes the end is cut there, a text ends before the first zero byte.
pub fn key_rows()
    ensures whole { key_in_shape Shape.Whole (codes "pear") ≡ codes "pear" }
    ensures field { key_in_shape (Shape.Field 0 4) (codes "key1-up") ≡ codes "key1" }
    ensures field_inside { key_in_shape (Shape.Field 1 2) (codes "pear") ≡ codes "ea" }
    ensures field_cut { key_in_shape (Shape.Field 2 4) (codes "pear") ≡ codes "ar" }
    ensures field_behind { key_in_shape (Shape.Field 9 4) (codes "pear") ≡ [] }
    ensures text { key_in_shape (Shape.Text 0) (97 ∷ 0 ∷ 120 ∷ 0 ∷ []) ≡ 97 ∷ [] }
    ensures text_behind_a_zero { key_in_shape (Shape.Text 2) (97 ∷ 0 ∷ 120 ∷ 0 ∷ []) ≡ 120 ∷ [] }
    ensures text_to_the_end { key_in_shape (Shape.Text 1) (codes "pear") ≡ codes "ear" }
    ensures text_of_nothing { key_in_shape (Shape.Text 0) (0 ∷ 97 ∷ []) ≡ [] }
    ensures fold { key_in_shape Shape.Fold (codes "Pear") ≡ codes "Pear" }
    ensures reverse { key_in_shape Shape.Reverse (codes "pear") ≡ codes "pear" }
    ensures clip { key_in_shape (Shape.Clip 8) (codes "abcdefghij") ≡ codes "abcdefgh" }
    ensures clip_cut { key_in_shape (Shape.Clip 8) (codes "abc") ≡ codes "abc" }
{}

/// Keys stand by their bytes, a front before the longer key; folded without regard to A to Z or a to z, and reversed
/// the other way round.
pub fn order_rows()
    ensures less { order_of Shape.Whole (codes "apple") (codes "pear") ≡ Ordering.Less }
    ensures front { order_of Shape.Whole (codes "pea") (codes "pear") ≡ Ordering.Less }
    ensures equal { order_of (Shape.Clip 8) (codes "pear") (codes "pear") ≡ Ordering.Equal }
    ensures capital { order_of Shape.Whole (codes "a") (codes "B") ≡ Ordering.Greater }
    ensures folded { order_of Shape.Fold (codes "a") (codes "B") ≡ Ordering.Less }
    ensures folded_equal { order_of Shape.Fold (codes "AZaz") (codes "azAZ") ≡ Ordering.Equal }
    ensures beside_a { order_of Shape.Fold (codes "@") (codes "`") ≡ Ordering.Less }
    ensures beside_z { order_of Shape.Fold (codes "[") (codes "{") ≡ Ordering.Less }
    ensures reversed { order_of Shape.Reverse (codes "a") (codes "b") ≡ Ordering.Greater }
    ensures reversed_front { order_of Shape.Reverse (codes "pea") (codes "pear")
        ≡ Ordering.Greater }
{}

/// Hashes of keys, the longer two beyond 2^64.
pub fn hash_rows()
    ensures nothing { hash_of [] ≡ 0 }
    ensures zero { hash_of (0 ∷ []) ≡ 1 }
    ensures zeros { hash_of (0 ∷ 0 ∷ []) ≡ 32 }
    ensures a { shape_hash Shape.Whole (codes "a") ≡ 98 }
    ensures ab { shape_hash (Shape.Text 0) (codes "ab") ≡ 3137 }
    ensures key1 { shape_hash (Shape.Field 0 4) (codes "key1") ≡ 3319282 }
    ensures pear { shape_hash Shape.Reverse (codes "pear") ≡ 3467558 }
    ensures folded { shape_hash Shape.Fold (codes "AB") ≡ 3137 }
    ensures long { shape_hash (Shape.Clip 99) (codes "abcdefghijklmnopqrst") ≡ 1286556720712933002 }
    ensures greatest { hash_of (replicate 16 255) ≡ 14591439383465885696 }
{}

/// A clip makes the first bytes, the other shapes a copy; and what a kind was told of stays at the greatest u64.
pub fn made_rows()
    ensures clip { made_of (Shape.Clip 8) (codes "abcdefghij") ≡ codes "abcdefgh" }
    ensures clip_short { made_of (Shape.Clip 8) (codes "abc") ≡ codes "abc" }
    ensures field { made_of (Shape.Field 0 4) (codes "key1-up") ≡ codes "key1-up" }
    ensures fold { made_of Shape.Fold (codes "Pear") ≡ codes "Pear" }
    ensures told { gone_after (record { objects = 2; bytes = 9 }) (codes "pear")
        ≡ record { objects = 3; bytes = 13 } }
    ensures last_object { gone_after (record { objects = last_count; bytes = 0 }) (codes "a")
        ≡ record { objects = last_count; bytes = 1 } }
    ensures last_byte { gone_after (record { objects = 0; bytes = last_count - 1 }) (codes "pear")
        ≡ record { objects = 1; bytes = last_count } }
{}
