ghost use Rattle.std.specs.Prelude.{◌≡◌, ℕ, ◌+◌, ◌<◌, ◌≤◌, List, [], length};
ghost use Rattle.vc_base.specs.Prelude.{Blocks, IsHolder};
ghost use Rattle.vc_dtlist.specs.Linked.{IsList, StandsFor};
ghost use Rattle.vc_dtlist.specs.TableWrites.{ChangesIn};
ghost use Rattle.vc_dict.specs.Orders.{dropped_holders, kept_holders};
ghost use Rattle.vc_dict.specs.Weeding.{AreWeeded, CanWeed, IsSortedList, NeighbourWeeding, last_matches};

use crate::pass::take_front;
use crate::weeded::Weeded;
use vc_base::{Addr, Cells, Steps};
use vc_dtdisc::DictDisc;
use vc_dtlist::DtList;

// Whether the last holder of a list has an object that matches another one's, by at most one compare.
fn matches_last<C: Cells, D: DictDisc, L>(
    list: &DtList,
    cells: &C,
    kind: &D,
    at: Addr,
    steps: &mut Steps<L>,
) -> bool
    requires list { IsList list.now (C.blocks cells.now) }
    requires holder { IsHolder (C.blocks cells.now) at.0 }
    ensures value { (holders : List ℕ) → StandsFor list.now (C.blocks cells.now) holders
        → result ≡ last_matches (D.rules kind.now) (C.blocks cells.now) holders at.0 }
    ensures steps { steps.new ≤ steps.old + 1 }
{
    if list.last == Addr::NONE {
        return false;
    }
    let key = kind.key(cells.body(at));
    kind.compare(kind.key(cells.body(list.last)), key, steps)
        .is_eq()
}

// Moves the first holder of a list to those that are dropped where it matches the last one that is kept, and else behind
// that one.
fn weed_one<C: Cells, D: DictDisc, L>(
    left: &mut DtList,
    weeded: &mut Weeded,
    cells: &mut C,
    kind: &D,
    steps: &mut Steps<L>,
)
    requires { CanWeed (D.rules kind.now) left.old weeded.old (C.blocks cells.old) }
    ensures weeding { ChangesIn C.blocks C.RestStays cells.old cells.new
        (λ old new. (start : Blocks) (holders : List ℕ) (passed : ℕ) → passed < length holders
        → NeighbourWeeding (D.rules kind.now) start holders passed left.old weeded.old old
        → NeighbourWeeding (D.rules kind.now) start holders (passed + 1) left.new weeded.new new) }
    ensures steps { steps.new ≤ steps.old + 1 }
{
    let at = take_front(left, cells);
    let drop = matches_last(&weeded.kept, cells, kind, at, steps);
    weeded.add(cells, at, drop);
}

// The holders of a list in order of keys that match no earlier one, and those that do, by at most one compare each.
pub(crate) fn weed_neighbours<C: Cells, D: DictDisc, L>(
    list: DtList,
    count: u64,
    cells: &mut C,
    kind: &D,
    steps: &mut Steps<L>,
) -> Weeded
    requires { IsSortedList (D.rules kind.now) list (C.blocks cells.old) count }
    ensures weeded { ChangesIn C.blocks C.RestStays cells.old cells.new
        (λ old new. (holders : List ℕ) → StandsFor list old holders
        → AreWeeded holders (kept_holders (D.rules kind.now) old [] holders)
        (dropped_holders (D.rules kind.now) old [] holders) old result new) }
    ensures steps { steps.new ≤ steps.old + count }
{
    let mut left = list;
    let mut weeded = Weeded {
        kept: DtList::new(),
        dropped: DtList::new(),
        count: 0,
    };
    for _passed in 0..count {
        weed_one(&mut left, &mut weeded, cells, kind, steps);
    }
    weeded
}
