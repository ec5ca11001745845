ghost use Rattle.std.specs.Prelude.{◌≡◌, ◌≢◌, ◌==◌, true};
ghost use Rattle.vc_splay.specs.Moves.{Context};
ghost use Rattle.vc_splay.specs.Puts.{CanPut, IsPut, WasPut};
ghost use Rattle.vc_splay.specs.Tree.{Tree};

use crate::Nodes;
use crate::sides::{hang, set_up_of, side_of};

// The side on which a node hangs below the one above it, where there is one above.
#[inline(always)]
pub(crate) fn side_below<N: Nodes>(nodes: &N, above: u32, at: u32) -> bool
    requires { above ≢ 0 → (N.store nodes.now).has above ≡ true }
    ensures { above ≢ 0 → result ≡ ((N.store nodes.now).kid true above == at) }
{
    if above == 0 {
        return false;
    }
    side_of(nodes, above, at)
}

// Puts a tree into the place of a part of another one: below a node on one side, or alone where no node is above. It
// answers the root then, which is as before where there is a node above.
#[inline(always)]
pub(crate) fn put<N: Nodes>(nodes: &mut N, root: u32, side: bool, above: u32, top: u32) -> u32
    requires { CanPut (N.store nodes.old) above top }
    ensures tree { (context : Context) (tree : Tree)
        → IsPut (N.store nodes.old) root side above top context tree
        → WasPut (N.store nodes.old) (N.store nodes.new) context tree result }
    ensures rest { N.stays nodes.old nodes.new }
{
    if above == 0 {
        set_up_of(nodes, top, 0);
        return top;
    }
    hang(nodes, side, above, top);
    root
}
