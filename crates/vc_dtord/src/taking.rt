ghost use Rattle.std.specs.Prelude.{◌*◌};
ghost use Rattle.vc_base.specs.Prelude.{without};
ghost use Rattle.vc_splay.specs.Rank.{Costs, binary_digits, size};
ghost use Rattle.vc_splay.specs.Stands.{IsIn, IsTree, TreeAfter};
ghost use Rattle.vc_splay.specs.Tree.{Tree, names};

use vc_splay::{Nodes, splay, unlink};

// Splays a node and takes it out, and answers the new root. The splay pays for a walk to the node that no search made: so
// the first node can be taken out again and again.
#[inline(always)]
pub(crate) fn take_out<N: Nodes>(nodes: &mut N, root: u32, at: u32) -> u32
    requires { IsIn (N.store nodes.old) root at }
    ensures tree { (tree : Tree) → IsTree (N.store nodes.old) root tree
        → TreeAfter (N.store nodes.old) (N.store nodes.new) (names tree) result
        (without at (names tree)) }
    ensures law { (tree after : Tree) → IsTree (N.store nodes.old) root tree
        → IsTree (N.store nodes.new) result after
        → Costs tree after 0 0 (24 * binary_digits (size tree)) }
    ensures rest { N.stays nodes.old nodes.new }
{
    let top = splay(nodes, root, at);
    unlink(nodes, top, at)
}
