ghost use Rattle.std.specs.Prelude.{◌≡◌, ◌≢◌, ◌+◌, ◌*◌, ◌<◌, ◌≤◌, ◌∷◌, false, length};
ghost use Rattle.vc_splay.specs.Guide.{CanFind, CanLink, order_with_name};
ghost use Rattle.vc_splay.specs.Rank.{Costs, binary_digits, size};
ghost use Rattle.vc_splay.specs.Searches.{Gap};
ghost use Rattle.vc_splay.specs.Stands.{IsTree, TreeAfter};
ghost use Rattle.vc_splay.specs.Tree.{Tree, names};

use crate::putting::put;
use crate::rising::{Rising, rise};
use crate::short::is_short;
use crate::sides::{kid, set_kid_of};
use crate::{Guide, Nodes};
use vc_base::Steps;

/// Puts a node behind the last one that isn't behind what the guide seeks, as a leaf, and makes it the root: it and the
/// root that is answered are one. Where `lazy`, it stays a leaf after at most 8 nodes were read: the binary digits of
/// their number pay for so many. What its links were counts for nothing. It takes one step for each node that it asks the
/// guide of: at least one where there is a node, and at most as many as there are. Condition: its name is there and isn't
/// in the tree, along which the guide's answers never fall.
pub fn link_after_equals<N: Nodes, G: Guide<N>, L>(
    nodes: &mut N,
    root: u32,
    at: u32,
    guide: &G,
    lazy: bool,
    steps: &mut Steps<L>,
) -> u32
    requires { CanLink (N.store nodes.old) (G.side_of guide.now nodes.old) root at }
    ensures tree { (tree : Tree) → IsTree (N.store nodes.old) root tree
        → TreeAfter (N.store nodes.old) (N.store nodes.new) (at ∷ names tree) result
        (order_with_name (G.side_of guide.now nodes.old) at (names tree)) }
    ensures root { lazy ≡ false → result ≡ at }
    ensures rises { steps.old ≤ steps.new }
    ensures least_steps { root ≢ 0 → steps.old + 1 ≤ steps.new }
    ensures most_steps { (tree : Tree) → IsTree (N.store nodes.old) root tree
        → steps.new ≤ steps.old + length (names tree) }
    ensures law { (tree after : Tree) → IsTree (N.store nodes.old) root tree
        → IsTree (N.store nodes.new) result after
        → Costs tree after steps.old steps.new (8 * binary_digits (size tree + 1)) }
    ensures rest { N.stays nodes.old nodes.new }
{
    let (above, left, read) = descend_behind(nodes, root, guide, steps);
    if is_short(lazy, read, 8) {
        nodes.set_left(at, 0);
        nodes.set_right(at, 0);
        return put(nodes, root, left, above, at);
    }
    set_kid_of(nodes, left, above, at);
    rise(
        nodes,
        at,
        Rising {
            below: at,
            above,
            left: 0,
            right: 0,
        },
    );
    at
}

// Reads down to the place right behind the last node that isn't behind what is sought: the node above that place, 0
// where there is none, whether the place is on the left of it, and how many nodes were read.
#[inline(always)]
fn descend_behind<N: Nodes, G: Guide<N>, L>(
    nodes: &N,
    root: u32,
    guide: &G,
    steps: &mut Steps<L>,
) -> (u32, bool, u64)
    requires { CanFind (N.store nodes.now) (G.side_of guide.now nodes.now) root }
    ensures gap { (tree : Tree) → IsTree (N.store nodes.now) root tree
        → Gap (G.side_of guide.now nodes.now) tree result.0 result.1 steps.old steps.new }
    ensures read { steps.new ≤ steps.old + result.2 }
{
    let mut above = 0;
    let mut left = false;
    let mut read: u64 = 0;
    let mut at = root;
    while at != 0 {
        above = at;
        read += 1;
        left = guide.side(nodes, at, steps).is_gt();
        at = kid(nodes, left, at);
    }
    (above, left, read)
}
