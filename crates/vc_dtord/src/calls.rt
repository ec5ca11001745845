ghost use Rattle.std.specs.Prelude.{◌≡◌, ℕ, ◌+◌, ◌≤◌, List, ◌∷◌, length};
ghost use Rattle.vc_base.specs.Prelude.{without};
ghost use Rattle.vc_dtdisc.specs.Rules.{Rules};
ghost use Rattle.vc_dtlist.specs.Linked.{Finds};
ghost use Rattle.vc_dtlist.specs.TableWrites.{ChangesIn};
ghost use Rattle.vc_dtlist.specs.Sought.{Seeks, stands_so};
ghost use Rattle.vc_dtord.specs.Cost.{CallCosts};
ghost use Rattle.vc_dtord.specs.Ordered.{CanLink, IsLinked, IsOrd, OrdFor, OrdTurned, order_with};

use crate::DtOrd;
use crate::guides::{ByKey, ByMark};
use crate::holders::Holders;
use crate::taking::take_out;
use crate::words::clear_words;
use vc_base::{Addr, Cells, Steps};
use vc_dtdisc::DictDisc;
use vc_dtlist::{Sought, found};
use vc_splay::{find_first, find_least_at, link_after_equals};

// Puts the holder at the mark in.
#[inline(always)]
pub(crate) fn link_in<'a, C: Cells, D: DictDisc, L>(
    nodes: &mut Holders<'a, C>,
    ord: DtOrd,
    kind: &D,
    steps: &mut Steps<L>,
) -> DtOrd
    requires { CanLink (D.rules kind.now) ord (C.blocks nodes.old.cells.now)
        nodes.old.mark.0 }
    ensures linked { ChangesIn C.blocks C.RestStays nodes.old.cells.now nodes.new.cells.now
        (λ old new. (xs : List ℕ) → OrdFor (D.rules kind.now) ord old xs
        → OrdTurned (D.rules kind.now) (nodes.old.mark.0 ∷ xs) old result new
        (order_with (D.rules kind.now) old nodes.old.mark.0 xs)
        × (steps.new ≤ steps.old + length xs)) }
    ensures cost { CallCosts ord (C.blocks nodes.old.cells.now) result
        (C.blocks nodes.new.cells.now) 1 steps.old steps.new }
    ensures same { nodes.new.cells.ghost_name ≡ nodes.old.cells.ghost_name }
{
    let at = nodes.mark;
    clear_words(nodes.cells, at);
    let root = link_after_equals(nodes, ord.root.0, at.0, &ByMark { kind }, false, steps);
    DtOrd { root: Addr(root) }
}

// Takes the holder at the mark out.
#[inline(always)]
pub(crate) fn unlink_in<'a, C: Cells>(nodes: &mut Holders<'a, C>, ord: DtOrd) -> DtOrd
    requires { IsLinked ord (C.blocks nodes.old.cells.now) nodes.old.mark.0 }
    ensures list { ChangesIn C.blocks C.RestStays nodes.old.cells.now nodes.new.cells.now
        (λ old new. (rules : Rules) (xs : List ℕ) → OrdFor rules ord old xs
        → OrdTurned rules xs old result new (without nodes.old.mark.0 xs)) }
    ensures cost { CallCosts ord (C.blocks nodes.old.cells.now) result
        (C.blocks nodes.new.cells.now) 0 0 0 }
    ensures same { nodes.new.cells.ghost_name ≡ nodes.old.cells.ghost_name }
{
    let at = nodes.mark;
    let root = take_out(nodes, ord.root.0, at.0);
    DtOrd { root: Addr(root) }
}

// The first holder whose object has that key, for a caller that unlinks it or not. The mark is at the root.
#[inline(always)]
pub(crate) fn find_in<'a, C: Cells, D: DictDisc, L>(
    nodes: &mut Holders<'a, C>,
    ord: DtOrd,
    kind: &D,
    key: &[u8],
    unlinks: bool,
    steps: &mut Steps<L>,
) -> (DtOrd, Option<Addr>)
    requires ord { IsOrd (D.rules kind.now) ord (C.blocks nodes.old.cells.now) }
    requires mark { nodes.old.mark ≡ ord.root }
    ensures found { ChangesIn C.blocks C.RestStays nodes.old.cells.now nodes.new.cells.now
        (λ old new. (xs : List ℕ) → OrdFor (D.rules kind.now) ord old xs
        → Finds (D.rules kind.now) old key.now xs result.1 steps.old steps.new
        × OrdTurned (D.rules kind.now) xs old result.0 new xs) }
    ensures cost { CallCosts ord (C.blocks nodes.old.cells.now) result.0
        (C.blocks nodes.new.cells.now) 0 steps.old steps.new }
    ensures same { nodes.new.cells.ghost_name ≡ nodes.old.cells.ghost_name }
{
    let (root, at) = find_first(nodes, ord.root.0, &ByKey { kind, key }, unlinks, steps);
    (DtOrd { root: Addr(root) }, found(Addr(at)))
}

// The first holder whose object's key isn't less than that one. The mark is at the root.
#[inline(always)]
pub(crate) fn at_least_in<'a, C: Cells, D: DictDisc, L>(
    nodes: &mut Holders<'a, C>,
    ord: DtOrd,
    kind: &D,
    key: &[u8],
    steps: &mut Steps<L>,
) -> (DtOrd, Option<Addr>)
    requires ord { IsOrd (D.rules kind.now) ord (C.blocks nodes.old.cells.now) }
    requires mark { nodes.old.mark ≡ ord.root }
    ensures found { ChangesIn C.blocks C.RestStays nodes.old.cells.now nodes.new.cells.now
        (λ old new. (xs : List ℕ) → OrdFor (D.rules kind.now) ord old xs
        → Seeks (stands_so Sought.NotLess (D.rules kind.now) old key.now) xs result.1 steps.old
        steps.new × OrdTurned (D.rules kind.now) xs old result.0 new xs) }
    ensures cost { CallCosts ord (C.blocks nodes.old.cells.now) result.0
        (C.blocks nodes.new.cells.now) 0 steps.old steps.new }
    ensures same { nodes.new.cells.ghost_name ≡ nodes.old.cells.ghost_name }
{
    let (root, at) = find_least_at(nodes, ord.root.0, &ByKey { kind, key }, false, steps);
    (DtOrd { root: Addr(root) }, found(Addr(at)))
}
