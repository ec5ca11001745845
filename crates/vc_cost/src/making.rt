ghost use Rattle.std.specs.Prelude.{◌≡◌, ℕ, ◌+◌, ◌*◌, List, is_some, if◌then◌else◌};
ghost use Rattle.vc_dtdisc.specs.Finds.{find_key};
ghost use Rattle.vc_dtdisc.specs.Rules.{Rules};
ghost use Rattle.vc_dtlist.specs.TableWrites.{ChangesIn};
ghost use Rattle.vc_dtord.specs.Ordered.{IsOrd, OrdFor, OrdTurned};
ghost use Rattle.vc_cost.specs.Calls.{without_found};
ghost use Rattle.vc_cost.specs.Costs.{CanMake, IsMade, TakeCosts};
ghost use Rattle.vc_cost.specs.Made.{came, found_by, went};

use crate::OrdCall;
use crate::tally::Made;
use vc_base::{Cells, Steps};
use vc_dtdisc::DictDisc;
use vc_dtord::DtOrd;

// Takes the first holder out whose object has the key, and tells whether there is one.
fn take_out<C: Cells, D: DictDisc, L>(
    cells: &mut C,
    kind: &D,
    ord: &mut DtOrd,
    key: &[u8],
    steps: &mut Steps<L>,
) -> bool
    requires { IsOrd (D.rules kind.now) ord.old (C.blocks cells.old) }
    ensures told { (holders : List ℕ)
        → OrdFor (D.rules kind.now) ord.old (C.blocks cells.old) holders
        → result ≡ is_some (find_key (D.rules kind.now) (C.blocks cells.old) key.now holders) }
    ensures list { ChangesIn C.blocks C.RestStays cells.old cells.new
        (λ old new. (holders : List ℕ) → OrdFor (D.rules kind.now) ord.old old holders
        → OrdTurned (D.rules kind.now) holders old ord.new new
        (without_found (find_key (D.rules kind.now) old key.now holders) holders)) }
    ensures cost { TakeCosts ord.old (C.blocks cells.old) ord.new (C.blocks cells.new) steps.old
        steps.new }
{
    if let Some(at) = ord.find(cells, kind, key, true, steps) {
        ord.unlink(cells, at);
        return true;
    }
    false
}

// What it did where it tried to take a holder out.
fn taking(taken: bool) -> Made
    ensures came { came result ≡ 0 }
    ensures went { went result ≡ (if taken then 1 else 0) }
    ensures found { found_by result ≡ 0 }
{
    if taken { Made::Taken } else { Made::Missed }
}

// What it did where it searched.
fn searching(found: bool) -> Made
    ensures came { came result ≡ 0 }
    ensures went { went result ≡ 0 }
    ensures found { found_by result ≡ (if found then 1 else 0) }
{
    if found { Made::Found } else { Made::Missed }
}

// Makes one call on an ordered set or bag, and tells what it did. It takes at most thirty steps for each binary digit of
// the greater number of holders, and thirty, and to take one out twice that, where the rank of the tree pays for the
// rest. What is linked is a holder that isn't in the list.
pub(crate) fn make_call<C: Cells, D: DictDisc, L>(
    cells: &mut C,
    kind: &D,
    ord: &mut DtOrd,
    call: &OrdCall,
    steps: &mut Steps<L>,
) -> Made
    requires { CanMake (D.rules kind.now) ord.old (C.blocks cells.old) call.now }
    ensures { ChangesIn C.blocks C.RestStays cells.old cells.new
        (λ old new. (holders : List ℕ) → OrdFor (D.rules kind.now) ord.old old holders
        → IsMade (D.rules kind.now) call.now holders ord.old old ord.new new steps.old steps.new result) }
{
    match call {
        OrdCall::Link(at) => {
            ord.link(cells, kind, *at, steps);
            Made::Linked
        }
        OrdCall::Take(key) => taking(take_out(cells, kind, ord, key.as_slice(), steps)),
        OrdCall::Find(key) => searching(
            ord.find(cells, kind, key.as_slice(), false, steps)
                .is_some(),
        ),
        OrdCall::AtLeast(key) => {
            searching(ord.at_least(cells, kind, key.as_slice(), steps).is_some())
        }
    }
}
