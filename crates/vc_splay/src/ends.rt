ghost use Rattle.std.specs.Prelude.{◌≡◌, ℕ};
ghost use Rattle.vc_base.specs.Prelude.{first_in, last_in, some_address};
ghost use Rattle.vc_splay.specs.Moves.{Context};
ghost use Rattle.vc_splay.specs.Stands.{HasTree, IsTree};
ghost use Rattle.vc_splay.specs.Tree.{Tree, names, name_of};
ghost use Rattle.vc_splay.specs.Walks.{IsPart, IsTop, tip};

use crate::Links;
use crate::sides::kid;

/// The first name of the tree, or 0 where it has none.
pub fn first<N: Links>(nodes: &N, root: u32) -> u32
    requires { HasTree (N.store nodes.now) root }
    ensures { (tree : Tree) → IsTree (N.store nodes.now) root tree
        → some_address result ≡ first_in (names tree) }
{
    end_of(nodes, true, root)
}

/// The last name of the tree, or 0 where it has none.
pub fn last<N: Links>(nodes: &N, root: u32) -> u32
    requires { HasTree (N.store nodes.now) root }
    ensures { (tree : Tree) → IsTree (N.store nodes.now) root tree
        → some_address result ≡ last_in (names tree) }
{
    end_of(nodes, false, root)
}

// The name at the end of a part of a tree on one side, the first one at true.
#[inline(always)]
pub(crate) fn end_of<N: Links>(nodes: &N, side: bool, top: u32) -> u32
    requires { IsTop (N.store nodes.now) top }
    ensures { (context : Context) (tree : Tree) → IsPart (N.store nodes.now) context tree
        → top ≡ name_of tree → result ≡ tip side top tree }
{
    let mut at = top;
    let mut next = top;
    while next != 0 {
        at = next;
        next = kid(nodes, side, at);
    }
    at
}
