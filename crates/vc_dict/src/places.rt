ghost use Rattle.std.specs.Prelude.{◌≡◌, ◌≢◌, ℕ, List, Bool, false};
ghost use Rattle.vc_base.specs.Prelude.{Blocks, is_ordered};
ghost use Rattle.vc_dtdisc.specs.Rules.{Rules};
ghost use Rattle.vc_dtlist.specs.Linked.{CanAdd, IsIn, StandsFor, Turns, TurnsIn};
ghost use Rattle.vc_dtlist.specs.TableWrites.{ChangesIn};
ghost use Rattle.vc_dict.specs.Changes.{before_current, behind_current, order_by_insert, order_by_link};

use vc_base::{Addr, Cells, DictMethod};
use vc_dtlist::DtList;

// Puts a holder directly before one of the list, or first where none is named.
fn put_before<C: Cells>(list: &mut DtList, cells: &mut C, mark: Addr, at: Addr)
    requires list { CanAdd list.old (C.blocks cells.old) at.0 }
    requires mark { mark.0 ≢ 0 → IsIn list.old (C.blocks cells.old) mark.0 }
    ensures { TurnsIn C.blocks C.RestStays at.0 list.old cells.old list.new cells.new
        (before_current mark.0 at.0) }
{
    if mark == Addr::NONE {
        list.push_front(cells, at);
    } else {
        list.before(cells, mark, at);
    }
}

// Puts a holder directly behind one of the list, or last where none is named.
fn put_behind<C: Cells>(list: &mut DtList, cells: &mut C, mark: Addr, at: Addr)
    requires list { CanAdd list.old (C.blocks cells.old) at.0 }
    requires mark { mark.0 ≢ 0 → IsIn list.old (C.blocks cells.old) mark.0 }
    ensures { TurnsIn C.blocks C.RestStays at.0 list.old cells.old list.new cells.new
        (behind_current mark.0 at.0) }
{
    if mark == Addr::NONE {
        list.push_back(cells, at);
    } else {
        list.after(cells, mark, at);
    }
}

// Puts a holder where `insert` does, by a method without order of keys.
fn put<C: Cells>(list: &mut DtList, cells: &mut C, method: DictMethod, current: Addr, at: Addr)
    requires list { CanAdd list.old (C.blocks cells.old) at.0 }
    requires mark { current.0 ≢ 0 → IsIn list.old (C.blocks cells.old) current.0 }
    requires method { is_ordered method ≡ false }
    ensures { ChangesIn C.blocks C.RestStays cells.old cells.new
        (λ old new. (rules : Rules)
        → Turns at.0 list.old old list.new new (order_by_insert method rules old current.0 at.0)) }
{
    match method {
        DictMethod::DtList => put_before(list, cells, current, at),
        DictMethod::DtStack => list.push_front(cells, at),
        _ => list.push_back(cells, at),
    }
}

// Puts a holder where `insert` does, or `append`, by a method without order of keys.
pub(crate) fn put_linked<C: Cells>(
    list: &mut DtList,
    cells: &mut C,
    append: bool,
    method: DictMethod,
    current: Addr,
    at: Addr,
)
    requires list { CanAdd list.old (C.blocks cells.old) at.0 }
    requires mark { current.0 ≢ 0 → IsIn list.old (C.blocks cells.old) current.0 }
    requires method { is_ordered method ≡ false }
    ensures { ChangesIn C.blocks C.RestStays cells.old cells.new
        (λ old new. (rules : Rules)
        → Turns at.0 list.old old list.new new
        (order_by_link append method rules old current.0 at.0)) }
{
    if append {
        put_behind(list, cells, current, at);
    } else {
        put(list, cells, method, current, at);
    }
}
