ghost use Rattle.std.specs.Prelude.{◌≡◌, ◌*◌, ◌++◌};
ghost use Rattle.vc_base.specs.Prelude.{without};
ghost use Rattle.vc_splay.specs.Rank.{Costs, binary_digits, size};
ghost use Rattle.vc_splay.specs.Searches.{CanJoinTrees, IsPair, Joined};
ghost use Rattle.vc_splay.specs.Stands.{IsIn, IsTree, TreeAfter};
ghost use Rattle.vc_splay.specs.Tree.{Tree, names};

use crate::Nodes;
use crate::ends::last;
use crate::putting::{put, side_below};
use crate::rising::in_hand;
use crate::sides::set_up_of;
use crate::splaying::splay;

/// Takes a node out, and answers the new root, 0 where no node is left. The node's two subtrees are joined in its place: the
/// last node before it comes to the top of them, and what is above it stays as it is. What its links are then isn't said.
/// Condition: its name is in the tree.
pub fn unlink<N: Nodes>(nodes: &mut N, root: u32, at: u32) -> u32
    requires { IsIn (N.store nodes.old) root at }
    ensures tree { (tree : Tree) → IsTree (N.store nodes.old) root tree
        → TreeAfter (N.store nodes.old) (N.store nodes.new) (names tree) result
        (without at (names tree)) }
    ensures law { (tree after : Tree) → IsTree (N.store nodes.old) root tree
        → IsTree (N.store nodes.new) result after
        → Costs tree after 0 0 (12 * binary_digits (size tree)) }
    ensures rest { N.stays nodes.old nodes.new }
{
    let hand = in_hand(nodes, at);
    let side = side_below(nodes, hand.above, at);
    set_up_of(nodes, hand.left, 0);
    let top = join(nodes, hand.left, hand.right);
    put(nodes, root, side, hand.above, top)
}

// Joins two trees, of which the second stands behind the first and is below some node: the first one's last node gets
// the second one's root as its right child.
#[inline(always)]
fn join<N: Nodes>(nodes: &mut N, left: u32, right: u32) -> u32
    requires { CanJoinTrees (N.store nodes.old) left right }
    ensures tree { (front back : Tree) → IsPair (N.store nodes.old) left right front back
        → TreeAfter (N.store nodes.old) (N.store nodes.new) (names front ++ names back) result
        (names front ++ names back) }
    ensures law { (front back after : Tree) → IsPair (N.store nodes.old) left right front back
        → IsTree (N.store nodes.new) result after → Joined front back after }
    ensures rest { N.stays nodes.old nodes.new }
{
    if left == 0 {
        set_up_of(nodes, right, 0);
        return right;
    }
    if right == 0 {
        return left;
    }
    let end = last(nodes, left);
    let top = splay(nodes, left, end);
    nodes.set_right(top, right);
    nodes.set_up(right, top);
    top
}
