ghost use Rattle.std.specs.Prelude.{◌≡◌, ◌≢◌, ℕ, true};
ghost use Rattle.vc_base.specs.Prelude.{contains};
ghost use Rattle.vc_splay.specs.Moves.{Context, plug, tally};
ghost use Rattle.vc_splay.specs.Puts.{WasPut};
ghost use Rattle.vc_splay.specs.Seats.{IsSeat, Seated};
ghost use Rattle.vc_splay.specs.Stands.{IsTree, IsWithin};
ghost use Rattle.vc_splay.specs.Tree.{Node, Tree, names};
ghost use Rattle.vc_splay.specs.Writes.{CanSettleNode};

use crate::Nodes;
use crate::putting::{put, side_below};
use crate::rising::{in_hand, settle};

/// A node's place in its tree. This project's own.
#[derive(Clone, Copy)]
pub struct Seat {
    /// The node right above it, 0 at the top.
    pub above: u32,
    /// Whether it is the left child of that one.
    pub side: bool,
    /// The root of its left subtree, 0 for none.
    pub left: u32,
    /// The root of its right subtree, 0 for none.
    pub right: u32,
}

/// A node's place in the tree that it is in. Condition: its name is in some tree.
#[inline(always)]
pub fn seat_of<N: Nodes>(nodes: &N, at: u32) -> Seat
    requires { IsWithin (N.store nodes.now) at }
    ensures { (root : ℕ) (tree : Tree) → IsTree (N.store nodes.now) root tree
        → contains (names tree) at ≡ true
        → Seated (N.store nodes.now) root at result.above result.side result.left result.right tree }
{
    let hand = in_hand(nodes, at);
    Seat {
        above: hand.above,
        side: side_below(nodes, hand.above, at),
        left: hand.left,
        right: hand.right,
    }
}

/// Puts a node that is in no tree at the place of another one, whose links aren't read, and answers the root: no other
/// node moves. Condition: its name is there, and so are those that the place names.
#[inline(always)]
pub fn take_seat<N: Nodes>(nodes: &mut N, root: u32, seat: Seat, by: u32) -> u32
    requires node { CanSettleNode (N.store nodes.old) by seat.left seat.right }
    requires above { seat.above ≢ 0 → (N.store nodes.old).has seat.above ≡ true }
    ensures tree { (at : ℕ) (context : Context) (left right : Tree)
        → IsSeat (N.store nodes.old) root at seat.above seat.side seat.left seat.right context left right
        → tally by (plug context (Node left at right)) ≡ 0
        → WasPut (N.store nodes.old) (N.store nodes.new) context (Node left by right) result }
    ensures rest { N.stays nodes.old nodes.new }
{
    settle(nodes, by, seat.left, seat.right);
    put(nodes, root, seat.side, seat.above, by)
}
