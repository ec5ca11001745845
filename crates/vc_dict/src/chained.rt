ghost use Rattle.std.specs.Prelude.{ℕ, ◌+◌, ◌<◌, ◌≤◌, List, [], true, length};
ghost use Rattle.vc_base.specs.Prelude.{Blocks};
ghost use Rattle.vc_dtlist.specs.Linked.{StandsFor};
ghost use Rattle.vc_dtlist.specs.TableWrites.{ChangesIn};
ghost use Rattle.vc_dthash.specs.declared.dt_hash.DtHash.{DtHash};
ghost use Rattle.vc_dthash.specs.Hashed.{CanChain, list_of};
ghost use Rattle.vc_dict.specs.Orders.{dropped_holders, kept_holders};
ghost use Rattle.vc_dict.specs.Weeding.{CanWeedChain, ChainWeeding, IsSettled, chain_compares};

use crate::pass::take_front;
use crate::weeded::Weeded;
use vc_base::{Addr, Cells, Steps};
use vc_dtdisc::DictDisc;
use vc_dthash::DtHash;
use vc_dtlist::DtList;

// Moves the first holder of a list to those that are dropped where it matches one of its chain, and else to those that
// are kept.
fn weed_one<C: Cells, D: DictDisc, L>(
    left: &mut DtList,
    kept: &mut DtHash,
    dropped: &mut DtList,
    cells: &mut C,
    kind: &D,
    steps: &mut Steps<L>,
)
    requires { CanWeedChain (D.rules kind.now) left.old kept.old dropped.old
        (C.blocks cells.old) }
    ensures { ChangesIn C.blocks C.RestStays cells.old cells.new
        (λ old new. (hash : DtHash) (start : Blocks) (holders : List ℕ) (passed begun : ℕ)
        → passed < length holders
        → ChainWeeding (D.rules kind.now) hash start holders passed left.old kept.old dropped.old
        old begun steps.old
        → ChainWeeding (D.rules kind.now) hash start holders (passed + 1) left.new kept.new
        dropped.new new begun steps.new) }
{
    let at = take_front(left, cells);
    let found = kept.find(cells, kind, kind.key(cells.body(at)), steps);
    if found.is_some() {
        dropped.push_back(cells, at);
    } else {
        kept.link(cells, kind, at);
    }
}

// The holders of a list that match no earlier one, in the chains of a table that has room for all of them and may hold
// anything before, and those that match one. Each is compared with those of its chain at most.
pub(crate) fn weed_chains<C: Cells, D: DictDisc, L>(
    hash: DtHash,
    cells: &mut C,
    kind: &D,
    steps: &mut Steps<L>,
) -> Weeded
    requires { CanChain hash (C.blocks cells.old) }
    ensures weeded { ChangesIn C.blocks C.RestStays cells.old cells.new
        (λ old new. (holders : List ℕ) → StandsFor (list_of hash) old holders
        → IsSettled true (D.rules kind.now) hash holders
        (kept_holders (D.rules kind.now) old [] holders)
        (dropped_holders (D.rules kind.now) old [] holders) old result new) }
    ensures compares { (holders : List ℕ) → StandsFor (list_of hash) (C.blocks cells.old) holders
        → steps.new ≤ steps.old
        + chain_compares (D.rules kind.now) (C.blocks cells.old) hash.slots [] holders }
{
    let mut left = DtList {
        first: hash.first,
        last: hash.last,
    };
    let mut dropped = DtList::new();
    let mut kept = DtHash {
        first: Addr::NONE,
        last: Addr::NONE,
        table: hash.table,
        slots: hash.slots,
        count: 0,
    };
    kept.chain_up(cells, kind);
    for _passed in 0..hash.count {
        weed_one(&mut left, &mut kept, &mut dropped, cells, kind, steps);
    }
    Weeded {
        kept: DtList {
            first: kept.first,
            last: kept.last,
        },
        dropped,
        count: kept.count,
    }
}
