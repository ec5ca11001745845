ghost use Rattle.std.specs.Prelude.{◌≡◌, [], length};
ghost use Rattle.vc_best.specs.Cells.{cells_in, rest_in};
ghost use Rattle.vc_best.specs.Parts.{disc_in};
ghost use Rattle.vc_objects.specs.Leaves.{Leaves, told_each};
ghost use Rattle.vc_objects.specs.Objects.{own_blocks};
ghost use Rattle.vc_objects.specs.Parts.{IsWhole, dictionary_in};
ghost use Rattle.vc_objects.specs.Promises.{Empties};
ghost use Rattle.vc_objects.specs.Remove.{all_out, bytes_of, first_out, region_without};

use crate::cells::free_cell;
use vc_base::{Addr, Cells};
use vc_best::Best;
use vc_dict::Dict;
use vc_dtdisc::DictDisc;
use vc_seg::{BoxedDisc, SegDisc};

// Takes the first object out, tells the kind of it, and frees its holder.
fn take_one<D: DictDisc>(best: &mut Best, dict: &mut Dict, kind: &mut D)
    requires whole { IsWhole (D.rules kind.old) dict.old (cells_in best.old) }

    ensures empties { Empties state
        (first_out (rest_in best.old) (dictionary_in dict.old best.old)) (D.rules kind.old) (D.rules kind.new)
        best.old dict.old (D.gone kind.old) best.new dict.new (D.gone kind.new) }
{
    match dict.take_first(best, kind) {
        Some(at) => {
            kind.freed(best.body(at));
            free_cell(best, at);
        }
        None => {}
    }
}

/// Takes all objects out in order, tells the kind of each, frees their holders, and answers how many they were. The table
/// stays, and no object is current.
pub fn empty<D: DictDisc>(best: &mut Best, dict: &mut Dict, kind: &mut D) -> u32
    requires whole { IsWhole (D.rules kind.old) dict.old (cells_in best.old) }

    ensures count { result ≡ length (dictionary_in dict.old best.old).objects }
    ensures empties { Empties state
        (all_out (rest_in best.old) (dictionary_in dict.old best.old)) (D.rules kind.old) (D.rules kind.new)
        best.old dict.old (D.gone kind.old) best.new dict.new (D.gone kind.new) }
{
    let count = dict.count as u32;
    for _passed in 0..count {
        take_one(best, dict, kind);
    }
    count
}

/// Ends a dictionary: takes all its objects out as `empty` does, and frees its table.
pub fn shut<D: DictDisc>(best: &mut Best, dict: Dict, kind: &mut D)
    requires whole { IsWhole (D.rules kind.old) dict (cells_in best.old) }

    ensures region { rest_in best.new
        ≡ region_without (rest_in best.old) (dictionary_in dict best.old) }
    ensures leaves { Leaves state best.old best.new
        (own_blocks (dictionary_in dict best.old)) [] }
    ensures disc { disc_in state best.new ≡ disc_in state best.old }
    ensures rules { D.rules kind.new ≡ D.rules kind.old }
    ensures gone { D.gone kind.new ≡ told_each
        (bytes_of (dictionary_in dict best.old).objects) (D.gone kind.old) }
{
    let mut dict = dict;
    let _ = empty(best, &mut dict, kind);
    let table = dict.table();
    if table != Addr::NONE {
        free_cell(best, table);
    }
}
