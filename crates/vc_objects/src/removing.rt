ghost use Rattle.std.specs.Prelude.{◌≡◌, ◌+◌, ◌≤◌, [], Some, true, length};
ghost use Rattle.std.specs.Vec.{vec_capacity};
ghost use Rattle.vc_base.specs.Prelude.{IsHolder};
ghost use Rattle.vc_dtdisc.specs.Finds.{object_at};
ghost use Rattle.vc_best.specs.Cells.{cells_in, rest_in};
ghost use Rattle.vc_objects.specs.Unlabelled.{FreesCell};
ghost use Rattle.vc_objects.specs.Leaves.{told_if};
ghost use Rattle.vc_objects.specs.Parts.{IsWhole, dictionary_in};
ghost use Rattle.vc_objects.specs.Promises.{TakesOut};
ghost use Rattle.vc_objects.specs.Remove.{remove, remove_first, remove_unnamed};

use crate::cells::free_cell;
use vc_base::{Addr, Cells, DictMethod, Steps};
use vc_best::Best;
use vc_dict::Dict;
use vc_dtdisc::DictDisc;
use vc_seg::{BoxedDisc, SegDisc};

// Tells the kind of an object where that is wanted.
fn tell<D: DictDisc>(kind: &mut D, object: &[u8], tells: bool)
    ensures rules { D.rules kind.new ≡ D.rules kind.old }
    ensures gone { D.gone kind.new ≡ told_if tells (Some object.now) (D.gone kind.old) }
{
    if tells {
        kind.freed(object);
    }
}

// Copies the object of a holder that was taken out, tells the kind of it where that is wanted, and frees the holder.
fn release<D: DictDisc>(best: &mut Best, kind: &mut D, at: Addr, tells: bool, out: &mut Vec<u8>)
    requires holder { IsHolder (cells_in best.old) at.0 }
    requires small { length (object_at (cells_in best.old) at.0) ≤ 1024 }
    requires empty { out.old.items ≡ [] }
    requires room { 1024 ≤ vec_capacity out.old }

    ensures out { out.new.items ≡ object_at (cells_in best.old) at.0 }
    ensures freed { FreesCell state best.old at.0 best.new }
    ensures rules { D.rules kind.new ≡ D.rules kind.old }
    ensures gone { D.gone kind.new ≡ told_if tells
        (Some (object_at (cells_in best.old) at.0)) (D.gone kind.old) }
{
    let object = best.body(at);
    // There is room, so this takes no memory and cannot fail.
    let _ = out.extend_from_slice(object);
    tell(kind, object, tells);
    free_cell(best, at);
}

/// Takes out the first object that has a key, and answers whether there is one. Its bytes come into `out`, which is empty
/// and has room for 1,024; the kind is told of it where that is wanted; and its holder goes. Where it was current, the one
/// behind it is, or none. It compares at most as many times as there are objects.
pub fn remove<D: DictDisc, L>(
    best: &mut Best,
    dict: &mut Dict,
    kind: &mut D,
    key: &[u8],
    tells: bool,
    out: &mut Vec<u8>,
    steps: &mut Steps<L>,
) -> bool
    requires whole { IsWhole (D.rules kind.old) dict.old (cells_in best.old) }
    requires empty { out.old.items ≡ [] }
    requires room { 1024 ≤ vec_capacity out.old }

    ensures takes { TakesOut state
        (remove (D.rules kind.old) (rest_in best.old) (dictionary_in dict.old best.old) key.now)
        (D.rules kind.old) (D.rules kind.new) tells result out.new.items
        best.old dict.old (D.gone kind.old) best.new dict.new (D.gone kind.new) }
    ensures compares { steps.new
        ≤ steps.old + length (dictionary_in dict.old best.old).objects }
{
    match dict.unlink(best, kind, key, steps) {
        Some(at) => {
            release(best, kind, at, tells, out);
            true
        }
        None => false,
    }
}

// Takes out the first object, telling the kind.
fn remove_first<D: DictDisc>(
    best: &mut Best,
    dict: &mut Dict,
    kind: &mut D,
    out: &mut Vec<u8>,
) -> bool
    requires whole { IsWhole (D.rules kind.old) dict.old (cells_in best.old) }
    requires empty { out.old.items ≡ [] }
    requires room { 1024 ≤ vec_capacity out.old }

    ensures takes { TakesOut state
        (remove_first (rest_in best.old) (dictionary_in dict.old best.old))
        (D.rules kind.old) (D.rules kind.new) true result out.new.items
        best.old dict.old (D.gone kind.old) best.new dict.new (D.gone kind.new) }
{
    match dict.take_first(best, kind) {
        Some(at) => {
            release(best, kind, at, true, out);
            true
        }
        None => false,
    }
}

/// Takes out the first object of a stack or queue as `remove` does, telling the kind; of another method none.
pub fn remove_unnamed<D: DictDisc>(
    best: &mut Best,
    dict: &mut Dict,
    kind: &mut D,
    out: &mut Vec<u8>,
) -> bool
    requires whole { IsWhole (D.rules kind.old) dict.old (cells_in best.old) }
    requires empty { out.old.items ≡ [] }
    requires room { 1024 ≤ vec_capacity out.old }

    ensures takes { TakesOut state
        (remove_unnamed (rest_in best.old) (dictionary_in dict.old best.old))
        (D.rules kind.old) (D.rules kind.new) true result out.new.items
        best.old dict.old (D.gone kind.old) best.new dict.new (D.gone kind.new) }
{
    match dict.method {
        DictMethod::DtStack | DictMethod::DtQueue => remove_first(best, dict, kind, out),
        _ => false,
    }
}
