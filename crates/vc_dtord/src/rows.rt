ghost use Rattle.std.specs.Prelude.{◌≡◌, ℕ, List, [], ◌∷◌, length, nat_lt};
ghost use Rattle.vc_base.specs.Prelude.{Blocks};
ghost use Rattle.vc_dtdisc.specs.Finding.{put_before};
ghost use Rattle.vc_dtdisc.specs.Rules.{Rules};
ghost use Rattle.vc_dtord.specs.declared.dt_ord.DtOrd.{DtOrd};
ghost use Rattle.vc_dtord.specs.Ordered.{OrdFor, in_order};

/// An address goes before the first that passes the test, or last: here numbers stand for their keys.
pub fn place_rows()
    ensures none { put_before (nat_lt 5) 5 [] ≡ 5 ∷ [] }
    ensures first { put_before (nat_lt 1) 1 (3 ∷ 7 ∷ []) ≡ 1 ∷ 3 ∷ 7 ∷ [] }
    ensures between { put_before (nat_lt 5) 5 (3 ∷ 7 ∷ []) ≡ 3 ∷ 5 ∷ 7 ∷ [] }
    ensures behind_equals { put_before (nat_lt 3) 9 (3 ∷ 3 ∷ 7 ∷ []) ≡ 3 ∷ 3 ∷ 9 ∷ 7 ∷ [] }
    ensures last { put_before (nat_lt 8) 8 (3 ∷ 7 ∷ []) ≡ 3 ∷ 7 ∷ 8 ∷ [] }
{}

/// Over the same cells an ordered set or bag stands for one list of holders at most, whatever the rules: the one that
/// is read from its root and the words of the holders.
pub fn one_list()
    ensures read { (rules : Rules) (ord : DtOrd) (blocks : Blocks) (xs : List ℕ)
        → OrdFor rules ord blocks xs → in_order blocks (length xs) ord.root.0 ≡ xs }
    ensures one { (rules others : Rules) (ord : DtOrd) (blocks : Blocks) (xs ys : List ℕ)
        → OrdFor rules ord blocks xs → OrdFor others ord blocks ys → xs ≡ ys }
{}
