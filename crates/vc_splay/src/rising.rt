ghost use Rattle.std.specs.Prelude.{◌≡◌, not, true};
ghost use Rattle.vc_splay.specs.Moves.{CanRise, CanStep, Climbed, Context, IsRising, IsTaken, Risen, Step};
ghost use Rattle.vc_splay.specs.Tree.{Tree};
ghost use Rattle.vc_splay.specs.Writes.{AreTurned, Becomes, CanSettleNode, CanTurnNodes, store_with_root, zig_zag, zig_zig};

use crate::Nodes;
use crate::sides::{hang, kid, side_of, turned};

/// A node in hand on its way up. No link between it and another node is written before it is the root, so that each link
/// is written once. This project's own.
#[derive(Clone, Copy)]
pub struct Rising {
    /// The node that the one right above it still names as its child.
    pub below: u32,
    /// The node right above it, 0 at the top.
    pub above: u32,
    /// The root of its left subtree, 0 for none.
    pub left: u32,
    /// The root of its right subtree, 0 for none.
    pub right: u32,
}

// Takes a node in hand where it is.
#[inline(always)]
pub(crate) fn in_hand<N: Nodes>(nodes: &N, at: u32) -> Rising
    requires { (N.store nodes.now).has at ≡ true }
    ensures { IsTaken (N.store nodes.now) at result.below result.above result.left result.right }
{
    Rising {
        below: at,
        above: nodes.up(at),
        left: nodes.left(at),
        right: nodes.right(at),
    }
}

/// Makes a node in hand the root of the tree that it is on its way up in. Condition: it is on its way up in some tree.
#[inline(always)]
pub fn rise<N: Nodes>(nodes: &mut N, at: u32, from: Rising)
    requires { CanRise (N.store nodes.old) at from.below from.above from.left from.right }
    ensures tree { (context : Context) (tree : Tree)
        → IsRising (N.store nodes.old) at from.below from.above from.left from.right context tree
        → Risen (N.store nodes.old) (N.store nodes.new) at context tree }
    ensures rest { N.stays nodes.old nodes.new }
{
    let (left, right) = climb(nodes, at, from);
    settle(nodes, at, left, right);
}

// Moves a node in hand up to the top, and answers its two subtrees.
fn climb<N: Nodes>(nodes: &mut N, at: u32, from: Rising) -> (u32, u32)
    requires { CanRise (N.store nodes.old) at from.below from.above from.left from.right }
    ensures top { (context : Context) (tree : Tree)
        → IsRising (N.store nodes.old) at from.below from.above from.left from.right context tree
        → Climbed (N.store nodes.old) (N.store nodes.new) at context tree result.0 result.1 }
    ensures rest { N.stays nodes.old nodes.new }
{
    let mut hand = from;
    while hand.above != 0 {
        hand = step(nodes, at, hand);
    }
    (hand.left, hand.right)
}

// Two steps up, or one where the node above is the root. What is above the nodes that changed still names one of them as
// its child, which is answered, with the node right above.
#[inline(always)]
fn step<N: Nodes>(nodes: &mut N, at: u32, hand: Rising) -> Rising
    requires { CanStep (N.store nodes.old) at hand.below hand.above hand.left hand.right }
    ensures step { (context : Context) (tree : Tree)
        → IsRising (N.store nodes.old) at hand.below hand.above hand.left hand.right context tree
        → Step (N.store nodes.old) (N.store nodes.new) at context tree
        result.below result.above result.left result.right }
    ensures rest { N.stays nodes.old nodes.new }
{
    let above = hand.above;
    let side = side_of(nodes, above, hand.below);
    let (near, inner) = turned(side, hand.left, hand.right);
    let top = nodes.up(above);
    if top == 0 {
        hang(nodes, side, above, inner);
        return risen(side, near, above, hand.below, 0);
    }
    let outer = side_of(nodes, top, above);
    let next = nodes.up(top);
    if outer == side {
        zig_zig(nodes, side, inner, above, top);
        return risen(side, near, above, top, next);
    }
    zig_zag(nodes, side, near, inner, above, top);
    risen(side, top, above, top, next)
}

// A node in hand with one subtree on that side and another one on the other side.
#[inline(always)]
fn risen(side: bool, near: u32, far: u32, below: u32, above: u32) -> Rising
    ensures below { result.below ≡ below }
    ensures above { result.above ≡ above }
    ensures hand { AreTurned side near far result.left result.right }
{
    let (left, right) = turned(side, near, far);
    Rising {
        below,
        above,
        left,
        right,
    }
}

// Two steps on one side: the top gets the other child of the one above, which gets the top as that, and the node's inner
// subtree in its place.
#[inline(always)]
fn zig_zig<N: Nodes>(nodes: &mut N, side: bool, inner: u32, above: u32, top: u32)
    requires { CanTurnNodes (N.store nodes.old) above top
        ((N.store nodes.old).kid (not side) above) inner }
    ensures { Becomes N.store N.stays nodes.old nodes.new
        (zig_zig side inner above top (N.store nodes.old)) }
{
    let sibling = kid(nodes, !side, above);
    hang(nodes, side, top, sibling);
    hang(nodes, !side, above, top);
    hang(nodes, side, above, inner);
}

// A step on each side: the one above gets the node's inner subtree, and the top the near one.
#[inline(always)]
fn zig_zag<N: Nodes>(nodes: &mut N, side: bool, near: u32, inner: u32, above: u32, top: u32)
    requires { CanTurnNodes (N.store nodes.old) above top near inner }
    ensures { Becomes N.store N.stays nodes.old nodes.new
        (zig_zag side near inner above top (N.store nodes.old)) }
{
    hang(nodes, side, above, inner);
    hang(nodes, !side, top, near);
}

// Writes the links between a node in hand and its two subtrees, and makes it a root.
#[inline(always)]
pub(crate) fn settle<N: Nodes>(nodes: &mut N, at: u32, left: u32, right: u32)
    requires { CanSettleNode (N.store nodes.old) at left right }
    ensures { Becomes N.store N.stays nodes.old nodes.new
        (store_with_root at left right (N.store nodes.old)) }
{
    hang(nodes, true, at, left);
    hang(nodes, false, at, right);
    nodes.set_up(at, 0);
}
