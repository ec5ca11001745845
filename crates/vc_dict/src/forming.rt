ghost use Rattle.std.specs.Prelude.{◌≡◌, ℕ, List, true, if◌then◌else◌};
ghost use Rattle.vc_base.specs.Prelude.{has_table, is_ordered};
ghost use Rattle.vc_dtlist.specs.TableWrites.{ChangesIn};
ghost use Rattle.vc_dict.specs.Forming.{CanTakeForm, IsInForm};
ghost use Rattle.vc_dict.specs.Passes.{IsCounted};
ghost use Rattle.vc_dict.specs.Stands.{IsForm, slots_at, table_at};

use crate::form::Form;
use crate::pass::into_tree;
use vc_base::{Addr, Cells, DictMethod, Steps};
use vc_dtdisc::DictDisc;
use vc_dthash::DtHash;
use vc_dtlist::DtList;

// The heads of a method for the holders of a list, of which there are so many: those of a hash with that table, in whose
// chains they are, those of a tree, into which they are put, or the list.
pub(crate) fn in_form<C: Cells, D: DictDisc, L>(
    method: DictMethod,
    list: DtList,
    count: u64,
    table: Addr,
    slots: u32,
    cells: &mut C,
    kind: &D,
    steps: &mut Steps<L>,
) -> Form
    requires { is_ordered method ≡ true → IsCounted list (C.blocks cells.old) count }
    ensures form { IsForm method result }
    ensures table { table_at result ≡ (if has_table method then table else record { 0 = 0 }) }
    ensures slots { slots_at result ≡ (if has_table method then slots else 0) }
    ensures heads { ChangesIn C.blocks C.RestStays cells.old cells.new
        (λ old new. (holders : List ℕ)
        → CanTakeForm (D.rules kind.now) method
        (record { first = list.first; last = list.last; table = table; slots = slots; count = count })
        old holders → IsInForm (D.rules kind.now) holders old result new) }
{
    if method.has_table() {
        Form::Hash(DtHash {
            first: list.first,
            last: list.last,
            table,
            slots,
            count,
        })
    } else if method.is_ordered() {
        Form::Order(into_tree(list, count, cells, kind, steps))
    } else {
        Form::Links(list)
    }
}
