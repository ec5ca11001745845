ghost use Rattle.std.specs.Prelude.{◌≡◌, ◌+◌, ◌≤◌, None, OnOk, length};
ghost use Rattle.vc_best.specs.Parts.{disc_in};
ghost use Rattle.vc_objects.specs.Insert.{slots_wanted};
ghost use Rattle.vc_objects.specs.Leaves.{LeavesRest, want_by};
ghost use Rattle.vc_objects.specs.Parts.{dictionary_in};
ghost use Rattle.vc_objects.specs.Promises.{CanAsk, CanPut, Grows, Holds, Inserts, growth_in};

use crate::cells::alloc_cell;
use crate::fate::{Fate, Want};
use crate::tables::put_table;
use vc_base::{Cells, OutOfMemory, Steps};
use vc_best::Best;
use vc_dict::Dict;
use vc_dtdisc::DictDisc;
use vc_seg::{BoxedDisc, RegionFault, SegDisc};

/// What a block wants by the fault of a best region; want of memory is none.
pub fn want_of(fault: RegionFault) -> Option<Want>
    ensures { result ≡ want_by fault }
{
    match fault {
        RegionFault::NoSegment => Some(Want::NoSegment),
        RegionFault::OutOfMemory => None,
        _ => Some(Want::TooManySegments),
    }
}

// The table grows where one more object wants it.
fn grow<D: DictDisc>(best: &mut Best, dict: &mut Dict, kind: &D) -> Result<(), RegionFault>
    requires ask { CanAsk state (D.rules kind.now) best.old dict.old }

    ensures grows { Grows state result (growth_in state best.old dict.old)
        (slots_wanted (dictionary_in dict.old best.old))
        best.old dict.old best.new dict.new }
    ensures room { OnOk result (slots_wanted (dictionary_in dict.new best.new) ≡ None) }
    ensures leaves { LeavesRest state (D.rules kind.now) best.old dict.old best.new dict.new }
    ensures same { slots_wanted (dictionary_in dict.old best.old) ≡ None
        → disc_in state best.new ≡ disc_in state best.old }
{
    match dict.wants_table(1) {
        None => Ok(()),
        Some(slots) => put_table(best, dict, kind, slots),
    }
}

// An object gets a holder, and joins a dictionary whose table has room.
fn hold<D: DictDisc, L>(
    best: &mut Best,
    dict: &mut Dict,
    kind: &D,
    object: &[u8],
    append: bool,
    steps: &mut Steps<L>,
) -> Result<(), RegionFault>
    requires can { CanPut state (D.rules kind.now) best.old dict.old object.now append }
    requires room { slots_wanted (dictionary_in dict.old best.old) ≡ None }

    ensures holds { Holds state result (D.rules kind.now) append object.now
        best.old dict.old best.new dict.new }
    ensures leaves { LeavesRest state (D.rules kind.now) best.old dict.old best.new dict.new }
    ensures table { (dictionary_in dict.new best.new).table
        ≡ (dictionary_in dict.old best.old).table }
    ensures compares { steps.new
        ≤ steps.old + length (dictionary_in dict.old best.old).objects }
{
    match alloc_cell(best, 32 + object.len() as u32) {
        Ok(at) => {
            best.set_body(at, object);
            dict.link(best, kind, at, append, steps);
            Ok(())
        }
        Err(fault) => Err(fault),
    }
}

/// Puts an object of 1 to 1,024 bytes into a dictionary of a best region where `insert` does, or `append`, which is for
/// lists, and makes it current. In a set or ordered set no object matches. The table of a set or bag grows first where it
/// must; then comes the holder. What either wants is told, and nothing else is changed then. It
/// compares at most as many times as there are objects.
pub fn insert<D: DictDisc, L>(
    best: &mut Best,
    dict: &mut Dict,
    kind: &D,
    object: &[u8],
    append: bool,
    steps: &mut Steps<L>,
) -> Result<Fate, OutOfMemory>
    requires can { CanPut state (D.rules kind.now) best.old dict.old object.now append }
    ensures inserts { Inserts state result (D.rules kind.now) append object.now
        best.old dict.old best.new dict.new }
    ensures compares { steps.new
        ≤ steps.old + length (dictionary_in dict.old best.old).objects }
{
    match grow(best, dict, kind) {
        Ok(()) => match hold(best, dict, kind, object, append, steps) {
            Ok(()) => Ok(Fate::Stored),
            Err(fault) => match want_of(fault) {
                Some(want) => Ok(Fate::NoHolder(want)),
                None => Err(OutOfMemory),
            },
        },
        Err(fault) => match want_of(fault) {
            Some(want) => Ok(Fate::NoTable(want)),
            None => Err(OutOfMemory),
        },
    }
}
