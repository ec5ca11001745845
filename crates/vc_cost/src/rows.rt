ghost use Rattle.std.specs.Prelude.{◌≡◌, ℕ, ◌+◌, ◌*◌, [], ◌∷◌, Some, None};
ghost use Rattle.vc_base.specs.declared.addr.Addr.{Addr};
ghost use Rattle.vc_base.specs.Cells.{Blocks};
ghost use Rattle.vc_dtdisc.specs.Rules.{Rules};
ghost use Rattle.vc_splay.specs.Rank.{binary_digits, rank};
ghost use Rattle.vc_splay.specs.Tree.{Leaf, Node};
ghost use Rattle.vc_cost.specs.Calls.{after_calls, calls_made, found_count, greatest_count, linked, weight, without_found};
ghost use Rattle.vc_cost.specs.declared.ord_call.OrdCall.TheVariants.{Link, Take, Find, AtLeast};

/// 200,000 calls over at most 100,000 nodes take at most 108,000,000 steps, by thirty a digit and thirty a call; one over
/// no node takes at most 30.
pub fn bound_rows()
    ensures many { 200000 * (30 * binary_digits 100000 + 30) ≡ 108000000 }
    ensures none { 1 * (30 * binary_digits 0 + 30) ≡ 30 }
{}

/// How unbalanced trees of seven nodes are: one below the other, and in three full rows.
pub fn tree_rows()
    ensures path { rank (Node (Node (Node (Node (Node (Node (Node Leaf 1 Leaf) 2 Leaf) 3 Leaf) 4 Leaf) 5 Leaf) 6 Leaf) 7 Leaf) ≡ 10 }
    ensures full { rank (Node (Node (Node Leaf 1 Leaf) 2 (Node Leaf 3 Leaf)) 4 (Node (Node Leaf 5 Leaf) 6 (Node Leaf 7 Leaf))) ≡ 4 }
{}

/// A holder that is linked into none is the only one; a search changes nothing, but the count then is one of those of
/// which the greatest is taken.
pub fn list_rows()
    ensures none { (rules : Rules) (blocks : Blocks) → greatest_count rules blocks [] [] ≡ 0 }
    ensures linked { (rules : Rules) (blocks : Blocks) (at : Addr)
        → after_calls rules blocks (Link at ∷ Find [] ∷ []) [] ≡ at.0 ∷ [] }
    ensures one { (rules : Rules) (blocks : Blocks) (at : Addr)
        → greatest_count rules blocks (Link at ∷ Find [] ∷ []) [] ≡ 1 }
    ensures sought { (rules : Rules) (blocks : Blocks)
        → greatest_count rules blocks (AtLeast [] ∷ []) (3 ∷ 5 ∷ []) ≡ 2 }
    ensures missed { (rules : Rules) (blocks : Blocks)
        → found_count rules blocks (Find [] ∷ AtLeast [] ∷ Take [] ∷ []) [] ≡ 0 }
    ensures each { (at other : Addr) → linked (Link at ∷ Find [] ∷ Link other ∷ []) ≡ at.0 ∷ other.0 ∷ [] }
{}

/// To take counts as two calls, and each other as one; what isn't found takes nothing out.
pub fn call_rows()
    ensures take { weight (Take (7 ∷ [])) ≡ 2 }
    ensures find { weight (Find (7 ∷ [])) ≡ 1 }
    ensures sum { calls_made (Take (7 ∷ []) ∷ AtLeast [] ∷ Find [] ∷ []) ≡ 4 }
    ensures found { without_found (Some 5) (3 ∷ 5 ∷ 7 ∷ []) ≡ 3 ∷ 7 ∷ [] }
    ensures nothing { without_found None (3 ∷ 5 ∷ 7 ∷ []) ≡ 3 ∷ 5 ∷ 7 ∷ [] }
{}
