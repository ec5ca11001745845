ghost use Rattle.std.specs.Prelude.{◌≡◌, ℕ, ◌+◌, ◌*◌, ◌≤◌, []};
ghost use Rattle.vc_dtlist.specs.TableWrites.{ChangesIn};
ghost use Rattle.vc_splay.specs.Rank.{binary_digits};
ghost use Rattle.vc_dtord.specs.Ordered.{OrdFor, OrdTurned};
ghost use Rattle.vc_cost.specs.Calls.{AreDistinctHolders, after_calls, calls_made, found_count, greatest_count, linked};

use crate::OrdCalls;
use crate::making::make_call;
use crate::tally::Tally;
use vc_base::{Cells, Steps};
use vc_dtdisc::DictDisc;
use vc_dtord::DtOrd;

/// Makes the calls in order on an ordered set or bag that is empty, and answers the greatest number of holders after any
/// of them, 0 with no call, and how many of `Find` and `AtLeast` found an object. All calls together take at most thirty
/// steps for each binary digit of that greatest number, and thirty, for each call, where `Take` counts as two. Takes no
/// memory. Condition: the holders of all `Link` calls have at least 33 bytes, and none stands twice.
pub fn run_ord<C: Cells, D: DictDisc, L>(
    cells: &mut C,
    kind: &D,
    ord: &mut DtOrd,
    calls: &OrdCalls,
    steps: &mut Steps<L>,
) -> (u64, u64)
    requires empty { OrdFor (D.rules kind.now) ord.old (C.blocks cells.old) [] }
    requires links { AreDistinctHolders (C.blocks cells.old) (linked calls.now) }
    ensures list { ChangesIn C.blocks C.RestStays cells.old cells.new
        (λ old new. OrdTurned (D.rules kind.now) (linked calls.now) old ord.new new
        (after_calls (D.rules kind.now) old calls.now [])) }
    ensures greatest { result.0 ≡ greatest_count (D.rules kind.now) (C.blocks cells.old) calls.now [] }
    ensures found { result.1 ≡ found_count (D.rules kind.now) (C.blocks cells.old) calls.now [] }
    ensures cost { steps.new ≤ steps.old + calls_made calls.now * (30 * binary_digits result.0 + 30) }
{
    let mut tally = Tally {
        count: 0,
        greatest: 0,
        found: 0,
    };
    for call in calls.as_slice() {
        let made = make_call(cells, kind, ord, call, steps);
        tally.note(made);
    }
    (tally.greatest, tally.found)
}
