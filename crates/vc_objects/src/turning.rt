ghost use Rattle.std.specs.Prelude.{◌≡◌, ◌≢◌, ℕ, List, Some, length};
ghost use Rattle.vc_base.specs.Prelude.{IsHolder, HasOut};
ghost use Rattle.vc_base.specs.Holders.{AreDistinct};
ghost use Rattle.vc_dtdisc.specs.Finds.{object_at};
ghost use Rattle.vc_dtdisc.specs.Rules.{gone_after};
ghost use Rattle.vc_dthash.specs.Slots.{IsSlots};
ghost use Rattle.vc_dict.specs.Methods.{slots_between};
ghost use Rattle.vc_dict.specs.Turned.{AreDropped, behind_dropped};
ghost use Rattle.vc_best.specs.Cells.{cells_in, rest_in};
ghost use Rattle.vc_best.specs.Parts.{disc_in, segments_in};
ghost use Rattle.vc_objects.specs.Unlabelled.{FreesCell, StaysAround};
ghost use Rattle.vc_objects.specs.Promises.{Brings, CanAsk, Turns};
ghost use Rattle.vc_objects.specs.Turning.{CanTurn, Frees, HasDropped, TurnsTo};

use crate::cells::{alloc_cell, free_cell};
use crate::tables::free_table;
use vc_base::{Addr, Cells, DictMethod, Steps};
use vc_best::Best;
use vc_dict::{Dict, after_dropped};
use vc_dtdisc::DictDisc;
use vc_seg::{BoxedDisc, RegionFault, SegDisc};

// A table for a method: its address and how many slots it has, or `Addr::NONE` and 0.
#[derive(Clone, Copy, Debug)]
struct NewTable {
    at: Addr,
    slots: u32,
}

// A table of so many slots.
fn bring_some(best: &mut Best, slots: u32) -> Result<NewTable, RegionFault>
    requires allowed { IsSlots slots }
    requires lent { HasOut (disc_in state best.old) (segments_in best.old) }

    ensures brings { Brings state result (Some slots) best.old best.new }
{
    match alloc_cell(best, 8 * slots) {
        Ok(at) => Ok(NewTable { at, slots }),
        Err(why) => Err(why),
    }
}

// The table that a change to a method needs, or none.
fn bring(best: &mut Best, dict: &Dict, method: DictMethod) -> Result<NewTable, RegionFault>
    requires lent { HasOut (disc_in state best.old) (segments_in best.old) }

    ensures brings { Brings state result
        (slots_between dict.now.method method dict.now.count) best.old best.new }
{
    match dict.table_for(method) {
        None => Ok(NewTable {
            at: Addr::NONE,
            slots: 0,
        }),
        Some(slots) => bring_some(best, slots),
    }
}

// Tells the kind of a dropped object, frees its holder, and answers the one that was dropped behind it.
fn drop_one<D: DictDisc>(best: &mut Best, kind: &mut D, at: Addr) -> Addr
    requires holder { IsHolder (cells_in best.old) at.0 }

    ensures behind { result.0 ≡ behind_dropped (cells_in best.old) at.0 }
    ensures frees { FreesCell state best.old at.0 best.new }
    ensures gone { D.gone kind.new
        ≡ gone_after (D.gone kind.old) (object_at (cells_in best.old) at.0) }
    ensures rules { D.rules kind.new ≡ D.rules kind.old }
{
    let behind = after_dropped(best, at);
    kind.freed(best.body(at));
    free_cell(best, at);
    behind
}

// Tells the kind of so many dropped objects and frees their holders, from one on.
fn drop_all<D: DictDisc>(best: &mut Best, kind: &mut D, first: Addr, count: u64)
    requires dropped { HasDropped (cells_in best.old) first.0 count }

    ensures frees { (holders : List ℕ) → AreDropped (cells_in best.old) first.0 holders
        → AreDistinct holders → count ≡ length holders
        → Frees holders (cells_in best.old) (rest_in best.old) (D.gone kind.old)
        (cells_in best.new) (rest_in best.new) (D.gone kind.new) }
    ensures rules { D.rules kind.new ≡ D.rules kind.old }
    ensures around { StaysAround state best.old best.new }
{
    let mut at = first;
    for _dropped in 0..count {
        at = drop_one(best, kind, at);
    }
}

// Turns a dictionary to another method with the table that it needs, frees the holders that it drops, telling the kind
// of their objects, and the table that it leaves.
fn turn_to<D: DictDisc, L>(
    best: &mut Best,
    dict: &mut Dict,
    kind: &mut D,
    method: DictMethod,
    table: NewTable,
    steps: &mut Steps<L>,
)
    requires can { CanTurn (D.rules kind.old) dict.old (cells_in best.old) method table.at.0
        table.slots }
    requires other { method ≢ dict.old.method }

    ensures turns { TurnsTo (D.rules kind.old) method table.at.0 table.slots
        best.old dict.old (D.gone kind.old) best.new dict.new (D.gone kind.new) }
    ensures rules { D.rules kind.new ≡ D.rules kind.old }
    ensures around { StaysAround state best.old best.new }
{
    let before = dict.count;
    let dropped = dict.remethod(best, kind, method, table.at, table.slots, steps);
    drop_all(best, kind, dropped.first, before - dict.count);
    free_table(best, dropped.table);
}

// Turns a dictionary to another method, as `turn` does.
fn turn_other<D: DictDisc, L>(
    best: &mut Best,
    dict: &mut Dict,
    kind: &mut D,
    method: DictMethod,
    steps: &mut Steps<L>,
) -> Result<(), RegionFault>
    requires other { method ≢ dict.old.method }
    requires ask { CanAsk state (D.rules kind.old) best.old dict.old }

    ensures turns { Turns state result (D.rules kind.old) (D.rules kind.new) method
        best.old dict.old (D.gone kind.old) best.new dict.new (D.gone kind.new) }
{
    match bring(best, dict, method) {
        Ok(table) => {
            turn_to(best, dict, kind, method, table, steps);
            Ok(())
        }
        Err(why) => Err(why),
    }
}

/// Turns a dictionary of a best region to a method; the present one changes nothing. Ordered methods order the objects by
/// key, stably; sets then drop each object that matches an earlier one, telling the kind. A set or bag that wasn't one gets
/// its table before all else, and where no block is put for it nothing changes. No object is current then.
pub fn turn<D: DictDisc, L>(
    best: &mut Best,
    dict: &mut Dict,
    kind: &mut D,
    method: DictMethod,
    steps: &mut Steps<L>,
) -> Result<(), RegionFault>
    requires ask { CanAsk state (D.rules kind.old) best.old dict.old }

    ensures turns { Turns state result (D.rules kind.old) (D.rules kind.new) method
        best.old dict.old (D.gone kind.old) best.new dict.new (D.gone kind.new) }
{
    if method == dict.method {
        Ok(())
    } else {
        turn_other(best, dict, kind, method, steps)
    }
}
