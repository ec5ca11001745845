ghost use Rattle.std.specs.Prelude.{◌≡◌, ◌≢◌, ℕ, ◌+◌, ◌*◌, ◌<◌, ◌≤◌, length, true, if◌then◌else◌};
ghost use Rattle.std.specs.Ordering.{is_eq, is_ge};
ghost use Rattle.vc_base.specs.Prelude.{some_address};
ghost use Rattle.vc_splay.specs.Guide.{CanFind, first_at, least_at};
ghost use Rattle.vc_splay.specs.Rank.{Costs, binary_digits, size};
ghost use Rattle.vc_splay.specs.Searches.{Search, is_found};
ghost use Rattle.vc_splay.specs.Stands.{IsTree, TreeAfter};
ghost use Rattle.vc_splay.specs.Tree.{Tree, names};

use crate::short::is_short;
use crate::sides::kid;
use crate::splaying::splay;
use crate::{Guide, Nodes};
use std::cmp::Ordering;
use vc_base::Steps;

/// The new root, and the first node that is what the guide seeks, or 0 where none is. It takes one step for each node
/// that it asks the guide of: at least one where there is a node, and at most as many as there are. The deepest node that it
/// read is splayed; where `lazy`, none is after at most 24 were read: the binary digits of the number of nodes pay for so
/// many. Condition: along the tree the guide's answers never fall.
pub fn find_first<N: Nodes, G: Guide<N>, L>(
    nodes: &mut N,
    root: u32,
    guide: &G,
    lazy: bool,
    steps: &mut Steps<L>,
) -> (u32, u32)
    requires { CanFind (N.store nodes.old) (G.side_of guide.now nodes.old) root }
    ensures tree { (tree : Tree) → IsTree (N.store nodes.old) root tree
        → TreeAfter (N.store nodes.old) (N.store nodes.new) (names tree) result.0 (names tree) }
    ensures answer { (tree : Tree) → IsTree (N.store nodes.old) root tree
        → some_address result.1 ≡ first_at (G.side_of guide.now nodes.old) (names tree) }
    ensures rises { steps.old ≤ steps.new }
    ensures least_steps { root ≢ 0 → steps.old + 1 ≤ steps.new }
    ensures most_steps { (tree : Tree) → IsTree (N.store nodes.old) root tree
        → steps.new ≤ steps.old + length (names tree) }
    ensures law { (tree after : Tree) → IsTree (N.store nodes.old) root tree
        → IsTree (N.store nodes.new) result.0 after
        → Costs tree after steps.old steps.new (12 * binary_digits (size tree)) }
    ensures rest { N.stays nodes.old nodes.new }
{
    if root == 0 {
        return (0, 0);
    }
    let (deepest, least, equal, read) = descend(nodes, root, guide, steps);
    let found = chosen(equal, least, 0);
    if is_short(lazy, read, 24) {
        return (root, found);
    }
    (splay(nodes, root, deepest), found)
}

/// The new root, and the first node that isn't before what the guide seeks, or 0 where each is. It takes one step for
/// each node that it asks the guide of: at least one where there is a node, and at most as many as there are. The deepest
/// node that it read is splayed; where `lazy`, none is after at most 24 were read. Condition: along the tree the guide's
/// answers never fall.
pub fn find_least_at<N: Nodes, G: Guide<N>, L>(
    nodes: &mut N,
    root: u32,
    guide: &G,
    lazy: bool,
    steps: &mut Steps<L>,
) -> (u32, u32)
    requires { CanFind (N.store nodes.old) (G.side_of guide.now nodes.old) root }
    ensures tree { (tree : Tree) → IsTree (N.store nodes.old) root tree
        → TreeAfter (N.store nodes.old) (N.store nodes.new) (names tree) result.0 (names tree) }
    ensures answer { (tree : Tree) → IsTree (N.store nodes.old) root tree
        → some_address result.1 ≡ least_at (G.side_of guide.now nodes.old) (names tree) }
    ensures rises { steps.old ≤ steps.new }
    ensures least_steps { root ≢ 0 → steps.old + 1 ≤ steps.new }
    ensures most_steps { (tree : Tree) → IsTree (N.store nodes.old) root tree
        → steps.new ≤ steps.old + length (names tree) }
    ensures law { (tree after : Tree) → IsTree (N.store nodes.old) root tree
        → IsTree (N.store nodes.new) result.0 after
        → Costs tree after steps.old steps.new (12 * binary_digits (size tree)) }
    ensures rest { N.stays nodes.old nodes.new }
{
    if root == 0 {
        return (0, 0);
    }
    let (deepest, least, _equal, read) = descend(nodes, root, guide, steps);
    if is_short(lazy, read, 24) {
        return (root, least);
    }
    (splay(nodes, root, deepest), least)
}

// Reads down to the first node that isn't before what is sought: the deepest node that was read, that one or 0, whether
// there is one and it is what is sought, and how many were read.
#[inline(always)]
fn descend<N: Nodes, G: Guide<N>, L>(
    nodes: &N,
    root: u32,
    guide: &G,
    steps: &mut Steps<L>,
) -> (u32, u32, bool, u64)
    requires tree { CanFind (N.store nodes.now) (G.side_of guide.now nodes.now) root }
    requires some { root ≢ 0 }
    ensures search { (tree : Tree) → IsTree (N.store nodes.now) root tree
        → Search (G.side_of guide.now nodes.now) tree result.0 result.1 steps.old steps.new }
    ensures equal { result.2 ≡ is_found (G.side_of guide.now nodes.now) result.1 }
    ensures read { steps.new ≤ steps.old + result.3 }
{
    let mut deepest = root;
    let mut least = 0;
    let mut equal = false;
    let mut read: u64 = 0;
    let mut at = root;
    while at != 0 {
        deepest = at;
        read += 1;
        let answer = guide.side(nodes, at, steps);
        let left = answer.is_ge();
        least = chosen(left, at, least);
        equal = equal_by(answer, equal);
        at = kid(nodes, left, at);
    }
    (deepest, least, equal, read)
}

// Whether the first node that isn't before what is sought is what is sought, after one more answer on the way down.
#[inline(always)]
fn equal_by(answer: Ordering, before: bool) -> bool
    ensures { result ≡ (if is_ge answer then is_eq answer else before) }
{
    match answer {
        Ordering::Less => before,
        Ordering::Equal => true,
        Ordering::Greater => false,
    }
}

// One of two names.
#[inline(always)]
fn chosen(first: bool, a: u32, b: u32) -> u32
    ensures { result ≡ (if first then a else b) }
{
    if first { a } else { b }
}
