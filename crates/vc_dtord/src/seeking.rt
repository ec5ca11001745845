ghost use Rattle.std.specs.Prelude.{◌≡◌, ◌≢◌, ℕ, ◌+◌, ◌*◌, ◌≤◌, List, Some, length};
ghost use Rattle.vc_base.specs.Prelude.{some_address};
ghost use Rattle.vc_dtlist.specs.TableWrites.{ChangesIn};
ghost use Rattle.vc_dtlist.specs.Sought.{Seeks, stands_so};
ghost use Rattle.vc_splay.specs.Guide.{CanFind};
ghost use Rattle.vc_splay.specs.Rank.{Costs, binary_digits, size};
ghost use Rattle.vc_splay.specs.Stands.{IsTree, TreeAfter};
ghost use Rattle.vc_splay.specs.Tree.{Tree, names};
ghost use Rattle.vc_dtord.specs.Cost.{CallCosts};
ghost use Rattle.vc_dtord.specs.Ordered.{IsLinked, IsOrd, OrdFor, OrdTurned};
ghost use Rattle.vc_dtord.specs.Seeking.{IsInOrNone, SeeksLast, is_below, last_before, matches, name_before};

use crate::DtOrd;
use crate::guides::{ByKey, ByMark, Past};
use crate::holders::Holders;
use vc_base::{Addr, Cells, Steps};
use vc_dtdisc::DictDisc;
use vc_dtlist::{Sought, found};
use vc_splay::{Guide, Nodes, find_least_at, last, prev, splay};

// The node right before one of a tree, or the last one where that is 0; 0 where there is none.
#[inline(always)]
fn node_before<N: Nodes>(nodes: &N, root: u32, at: u32) -> u32
    requires { IsInOrNone (N.store nodes.now) root at }
    ensures { (tree : Tree) → IsTree (N.store nodes.now) root tree
        → some_address result ≡ name_before at (names tree) }
{
    if at == 0 {
        last(nodes, root)
    } else {
        prev(nodes, at)
    }
}

// The new root, once a node was made it, where there is one.
#[inline(always)]
fn raised<N: Nodes>(nodes: &mut N, root: u32, at: u32) -> u32
    requires { IsInOrNone (N.store nodes.old) root at }
    ensures tree { (tree : Tree) → IsTree (N.store nodes.old) root tree
        → TreeAfter (N.store nodes.old) (N.store nodes.new) (names tree) result (names tree) }
    ensures law { (tree after : Tree) → IsTree (N.store nodes.old) root tree
        → IsTree (N.store nodes.new) result after
        → Costs tree after 0 0 (6 * binary_digits (size tree)) }
    ensures rest { N.stays nodes.old nodes.new }
{
    if at == 0 {
        return root;
    }
    splay(nodes, root, at)
}

// The new root, and the last node that is before what the guide seeks, or 0 where none is. It takes one step for each node
// that it asks the guide of. The walk back from the first node that isn't before it ends at the node that is answered, which
// is made the root then, and is no longer than the way down to the deepest one that was read, which was splayed.
fn find_last_before<N: Nodes, G: Guide<N>, L>(
    nodes: &mut N,
    root: u32,
    guide: &G,
    steps: &mut Steps<L>,
) -> (u32, u32)
    requires { CanFind (N.store nodes.old) (G.side_of guide.now nodes.old) root }
    ensures tree { (tree : Tree) → IsTree (N.store nodes.old) root tree
        → TreeAfter (N.store nodes.old) (N.store nodes.new) (names tree) result.0 (names tree) }
    ensures answer { (tree : Tree) → IsTree (N.store nodes.old) root tree
        → some_address result.1 ≡ last_before (G.side_of guide.now nodes.old) (names tree) }
    ensures most_steps { (tree : Tree) → IsTree (N.store nodes.old) root tree
        → steps.new ≤ steps.old + length (names tree) }
    ensures law { (tree after : Tree) → IsTree (N.store nodes.old) root tree
        → IsTree (N.store nodes.new) result.0 after
        → Costs tree after steps.old steps.new (18 * binary_digits (size tree)) }
    ensures rest { N.stays nodes.old nodes.new }
{
    let (top, least) = find_least_at(nodes, root, guide, false, steps);
    let at = node_before(nodes, top, least);
    (raised(nodes, top, at), at)
}

// The first holder whose object's key is greater than that one. The mark is at the root.
#[inline(always)]
pub(crate) fn behind_in<'a, C: Cells, D: DictDisc, L>(
    nodes: &mut Holders<'a, C>,
    ord: DtOrd,
    kind: &D,
    key: &[u8],
    steps: &mut Steps<L>,
) -> (DtOrd, Option<Addr>)
    requires ord { IsOrd (D.rules kind.now) ord (C.blocks nodes.old.cells.now) }
    requires mark { nodes.old.mark ≡ ord.root }
    ensures found { ChangesIn C.blocks C.RestStays nodes.old.cells.now nodes.new.cells.now
        (λ old new. (xs : List ℕ) → OrdFor (D.rules kind.now) ord old xs
        → Seeks (stands_so Sought.Greater (D.rules kind.now) old key.now) xs result.1 steps.old
        steps.new × OrdTurned (D.rules kind.now) xs old result.0 new xs) }
    ensures cost { CallCosts ord (C.blocks nodes.old.cells.now) result.0
        (C.blocks nodes.new.cells.now) 0 steps.old steps.new }
    ensures same { nodes.new.cells.ghost_name ≡ nodes.old.cells.ghost_name }
{
    let by_key = ByKey { kind, key };
    let (root, at) = find_least_at(nodes, ord.root.0, &Past { guide: &by_key }, false, steps);
    (DtOrd { root: Addr(root) }, found(Addr(at)))
}

// The last holder whose object's key is less than that one. The mark is at the root.
#[inline(always)]
pub(crate) fn before_in<'a, C: Cells, D: DictDisc, L>(
    nodes: &mut Holders<'a, C>,
    ord: DtOrd,
    kind: &D,
    key: &[u8],
    steps: &mut Steps<L>,
) -> (DtOrd, Option<Addr>)
    requires ord { IsOrd (D.rules kind.now) ord (C.blocks nodes.old.cells.now) }
    requires mark { nodes.old.mark ≡ ord.root }
    ensures found { ChangesIn C.blocks C.RestStays nodes.old.cells.now nodes.new.cells.now
        (λ old new. (xs : List ℕ) → OrdFor (D.rules kind.now) ord old xs
        → SeeksLast (is_below (D.rules kind.now) old key.now) xs result.1 steps.old steps.new
        × OrdTurned (D.rules kind.now) xs old result.0 new xs) }
    ensures cost { CallCosts ord (C.blocks nodes.old.cells.now) result.0
        (C.blocks nodes.new.cells.now) 0 steps.old steps.new }
    ensures same { nodes.new.cells.ghost_name ≡ nodes.old.cells.ghost_name }
{
    let (root, at) = find_last_before(nodes, ord.root.0, &ByKey { kind, key }, steps);
    (DtOrd { root: Addr(root) }, found(Addr(at)))
}

// The last holder that matches the one at the mark, which is of the list.
#[inline(always)]
pub(crate) fn last_like_in<'a, C: Cells, D: DictDisc, L>(
    nodes: &mut Holders<'a, C>,
    ord: DtOrd,
    kind: &D,
    steps: &mut Steps<L>,
) -> (DtOrd, Addr)
    requires ord { IsOrd (D.rules kind.now) ord (C.blocks nodes.old.cells.now) }
    requires within { IsLinked ord (C.blocks nodes.old.cells.now) nodes.old.mark.0 }
    ensures found { ChangesIn C.blocks C.RestStays nodes.old.cells.now nodes.new.cells.now
        (λ old new. (xs : List ℕ) → OrdFor (D.rules kind.now) ord old xs
        → SeeksLast (matches (D.rules kind.now) old nodes.old.mark.0) xs (Some result.1)
        steps.old steps.new × OrdTurned (D.rules kind.now) xs old result.0 new xs) }
    ensures cost { CallCosts ord (C.blocks nodes.old.cells.now) result.0
        (C.blocks nodes.new.cells.now) 0 steps.old steps.new }
    ensures same { nodes.new.cells.ghost_name ≡ nodes.old.cells.ghost_name }
{
    let by_mark = ByMark { kind };
    let (root, at) = find_last_before(nodes, ord.root.0, &Past { guide: &by_mark }, steps);
    (DtOrd { root: Addr(root) }, Addr(at))
}
