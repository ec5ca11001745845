ghost use Rattle.std.specs.Prelude.{◌≡◌, ◌≢◌, true, ◌==◌};
ghost use Rattle.vc_splay.specs.Store.{with_kid};
ghost use Rattle.vc_splay.specs.Writes.{AreTurned, Becomes, CanHang, with_child, with_kid_of, with_parent_of};

use crate::{Links, Nodes};

/// A node's child on one side: the left one at true. Condition: its name is there.
#[inline(always)]
pub fn kid<N: Links>(nodes: &N, side: bool, n: u32) -> u32
    requires { (N.store nodes.now).has n ≡ true }
    ensures { result ≡ (N.store nodes.now).kid side n }
{
    if side { nodes.left(n) } else { nodes.right(n) }
}

// The side on which a node has that child.
#[inline(always)]
pub(crate) fn side_of<N: Links>(nodes: &N, n: u32, child: u32) -> bool
    requires { (N.store nodes.now).has n ≡ true }
    ensures { result ≡ ((N.store nodes.now).kid true n == child) }
{
    nodes.left(n) == child
}

// Gives a node another child on one side.
#[inline(always)]
pub(crate) fn set_kid<N: Nodes>(nodes: &mut N, side: bool, n: u32, v: u32)
    requires { (N.store nodes.old).has n ≡ true }
    ensures { Becomes N.store N.stays nodes.old nodes.new
        (with_kid side n v (N.store nodes.old)) }
{
    if side {
        nodes.set_left(n, v);
    } else {
        nodes.set_right(n, v);
    }
}

/// Gives a node another child on one side, the left one at true, where there is a node. Condition: its name is there, or 0.
#[inline(always)]
pub fn set_kid_of<N: Nodes>(nodes: &mut N, side: bool, n: u32, v: u32)
    requires { n ≢ 0 → (N.store nodes.old).has n ≡ true }
    ensures { Becomes N.store N.stays nodes.old nodes.new
        (with_kid_of side n v (N.store nodes.old)) }
{
    if n != 0 {
        set_kid(nodes, side, n, v);
    }
}

// Gives a node another parent, where there is a node.
#[inline(always)]
pub(crate) fn set_up_of<N: Nodes>(nodes: &mut N, n: u32, v: u32)
    requires { n ≢ 0 → (N.store nodes.old).has n ≡ true }
    ensures { Becomes N.store N.stays nodes.old nodes.new
        (with_parent_of n v (N.store nodes.old)) }
{
    if n != 0 {
        nodes.set_up(n, v);
    }
}

// Gives a node another child on one side, and this child, where there is one, that parent.
#[inline(always)]
pub(crate) fn hang<N: Nodes>(nodes: &mut N, side: bool, n: u32, child: u32)
    requires { CanHang (N.store nodes.old) n child }
    ensures { Becomes N.store N.stays nodes.old nodes.new
        (with_child side n child (N.store nodes.old)) }
{
    set_kid(nodes, side, n, child);
    set_up_of(nodes, child, n);
}

// Two names as they are on the left, and the other way round on the right.
#[inline(always)]
pub(crate) fn turned(side: bool, a: u32, b: u32) -> (u32, u32)
    ensures { AreTurned side a b result.0 result.1 }
{
    if side { (a, b) } else { (b, a) }
}
