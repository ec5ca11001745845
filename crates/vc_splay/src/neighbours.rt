ghost use Rattle.std.specs.Prelude.{◌≡◌, ◌≢◌, ℕ, true, None};
ghost use Rattle.vc_base.specs.Prelude.{contains, next_in, previous_in, some_address};
ghost use Rattle.vc_splay.specs.Moves.{Context};
ghost use Rattle.vc_splay.specs.Stands.{IsTree, IsWithin};
ghost use Rattle.vc_splay.specs.Tree.{Tree, Node, names, name_of};
ghost use Rattle.vc_splay.specs.Walks.{IsPart, IsNodePlaced, IsTop, beyond, neighbour};

use crate::Links;
use crate::ends::end_of;
use crate::sides::kid;

/// The name right behind one of a tree, or 0 behind the last. Condition: its name is in a tree.
pub fn next<N: Links>(nodes: &N, at: u32) -> u32
    requires { IsWithin (N.store nodes.now) at }
    ensures { (root : ℕ) (tree : Tree) → IsTree (N.store nodes.now) root tree
        → contains (names tree) at ≡ true → some_address result ≡ next_in at (names tree) }
{
    beside(nodes, false, at)
}

/// The name right before one of a tree, or 0 before the first. Condition: its name is in a tree.
pub fn prev<N: Links>(nodes: &N, at: u32) -> u32
    requires { IsWithin (N.store nodes.now) at }
    ensures { (root : ℕ) (tree : Tree) → IsTree (N.store nodes.now) root tree
        → contains (names tree) at ≡ true
        → some_address result ≡ previous_in None at (names tree) }
{
    beside(nodes, true, at)
}

// The name right before one of a tree, at true, or right behind it.
#[inline(always)]
fn beside<N: Links>(nodes: &N, side: bool, at: u32) -> u32
    requires { IsNodePlaced (N.store nodes.now) at }
    ensures { (context : Context) (left right : Tree)
        → IsPart (N.store nodes.now) context (Node left at right)
        → result ≡ neighbour side context left right }
{
    let inner = kid(nodes, side, at);
    if inner != 0 {
        return end_of(nodes, !side, inner);
    }
    turn_above(nodes, side, at)
}

// The lowest node above a part of a tree that has this part on the other side.
#[inline(always)]
fn turn_above<N: Links>(nodes: &N, side: bool, top: u32) -> u32
    requires part { IsTop (N.store nodes.now) top }
    requires some { top ≢ 0 }
    ensures { (context : Context) (tree : Tree) → IsPart (N.store nodes.now) context tree
        → top ≡ name_of tree → result ≡ beyond side context }
{
    let mut below = top;
    let mut above = nodes.up(top);
    while above != 0 {
        if kid(nodes, side, above) != below {
            return above;
        }
        below = above;
        above = nodes.up(above);
    }
    0
}
