ghost use Rattle.std.specs.Prelude.{◌≡◌};
ghost use Rattle.vc_splay.specs.Moves.{Context, Paid, plug};
ghost use Rattle.vc_splay.specs.Stands.{IsIn, IsTree, TreeAfter};
ghost use Rattle.vc_splay.specs.Tree.{Tree, Node, names};

use crate::Nodes;
use crate::rising::{in_hand, rise};

/// Makes a node the root, from the bottom up: it and the root that is answered are one. Condition: its name is in the
/// tree.
pub fn splay<N: Nodes>(nodes: &mut N, root: u32, at: u32) -> u32
    requires { IsIn (N.store nodes.old) root at }
    ensures tree { (tree : Tree) → IsTree (N.store nodes.old) root tree
        → TreeAfter (N.store nodes.old) (N.store nodes.new) (names tree) result (names tree) }
    ensures root { result ≡ at }
    ensures law { (context : Context) (left right after : Tree)
        → IsTree (N.store nodes.old) root (plug context (Node left at right))
        → IsTree (N.store nodes.new) result after → Paid context (Node left at right) after }
    ensures rest { N.stays nodes.old nodes.new }
{
    if at == root {
        return at;
    }
    let hand = in_hand(nodes, at);
    rise(nodes, at, hand);
    at
}
