ghost use Rattle.std.specs.Prelude.{◌≡◌, ℕ, ◌+◌, ◌≤◌, Bool, not};
ghost use Rattle.vc_splay.specs.Moves.{Context, Law, Top, Under, joined_tree, plug};
ghost use Rattle.vc_splay.specs.Rank.{binary_digits, level, rank, size};
ghost use Rattle.vc_splay.specs.Tree.{Tree, Leaf, Node};

/// How many binary digits numbers have, and the ranks of some trees: of three nodes one below the other, and of three in
/// two rows.
pub fn rank_rows()
    ensures none { binary_digits 0 ≡ 0 }
    ensures one { binary_digits 1 ≡ 1 }
    ensures seven { binary_digits 7 ≡ 3 }
    ensures eight { binary_digits 8 ≡ 4 }
    ensures no_tree { rank Leaf ≡ 0 }
    ensures lone { rank (Node Leaf 1 Leaf) ≡ 0 }
    ensures path { rank (Node (Node (Node Leaf 1 Leaf) 2 Leaf) 3 Leaf) ≡ 2 }
    ensures even { rank (Node (Node Leaf 1 Leaf) 2 (Node Leaf 3 Leaf)) ≡ 1 }
{}

/// The law of a splay's steps, each of a node x below p, and p below g where there is such a one: a step below the root,
/// two on one side and one on each side. In place of a leaf a node raises the rank by at most one level of the whole tree.
pub fn step_laws()
    ensures single { (side : Bool) (near inner sibling : Tree) (x p : ℕ)
        → Law (Under side p sibling Top) (joined_tree side near x inner) Top
        (joined_tree side near x (joined_tree side inner p sibling)) }
    ensures one_side { (side : Bool) (near inner sibling uncle : Tree) (x p g : ℕ) (c : Context)
        → Law (Under side p sibling (Under side g uncle c)) (joined_tree side near x inner) c
        (joined_tree side near x (joined_tree side inner p (joined_tree side sibling g uncle))) }
    ensures both_sides { (side : Bool) (near inner sibling uncle : Tree) (x p g : ℕ) (c : Context)
        → Law (Under side p sibling (Under (not side) g uncle c)) (joined_tree side near x inner) c
        (joined_tree side (joined_tree (not side) near g uncle) x (joined_tree side inner p sibling)) }
    ensures leaf { (c : Context) (at : ℕ) → rank (plug c (Node Leaf at Leaf))
        ≤ rank (plug c Leaf) + level (size (plug c (Node Leaf at Leaf))) }
{}
