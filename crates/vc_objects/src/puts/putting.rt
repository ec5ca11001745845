ghost use Rattle.std.specs.Prelude.{◌≡◌, ◌+◌, ◌≤◌, true, false, not, is_some, IfNone, IfSome, length};
ghost use Rattle.vc_base.specs.Methods.{has_table, is_set};
ghost use Rattle.vc_best.specs.Cells.{cells_in};
ghost use Rattle.vc_best.specs.Parts.{disc_in, segments_in};
ghost use Rattle.vc_dict.specs.declared.form.Form.TheVariants.{Order};
ghost use Rattle.vc_dtdisc.specs.Rules.{IsObject, Rules};
ghost use Rattle.vc_model.specs.Discipline.{HasOut};
ghost use Rattle.vc_objects.specs.Leaves.{LeavesRest, Looks};
ghost use Rattle.vc_objects.specs.Parts.{dictionary_in};
ghost use Rattle.vc_objects.specs.Promises.{CanAsk, Holds, Inserts};
ghost use Rattle.vc_objects.specs.Puts.Puts.{CanHold, is_matched, told_by};

use crate::puts::hanging::link_below;
use crate::puts::leaning::{lean, lean_above};
use crate::puts::place::Place;
use crate::puts::reading::place_for;
use crate::{Fate, alloc_cell, find, insert, want_of};
use vc_base::{Cells, OutOfMemory, Steps};
use vc_best::Best;
use vc_dict::{Dict, Form};
use vc_dtdisc::DictDisc;
use vc_dtord::DtOrd;
use vc_seg::{BoxedDisc, RegionFault, SegDisc};

// Marks a counter of steps that no one reads.
struct Uncounted;

// An object gets a holder, which joins an ordered dictionary where it was read down to, by no compare. Where the holder is
// refused, the node above that place becomes the root, so that what was read is paid for.
fn hold_below(
    best: &mut Best,
    dict: &mut Dict,
    ord: DtOrd,
    object: &[u8],
    above: u32,
    left: bool,
) -> Result<(), RegionFault>
    requires can { (rules : Rules) × CanHold rules dict.old (cells_in best.old) ord object.now above left }
    requires lent { HasOut (disc_in state best.old) (segments_in best.old) }
    ensures holds { (rules : Rules) → CanHold rules dict.old (cells_in best.old) ord object.now above left
        → Holds state result rules false object.now best.old dict.old best.new dict.new }
    ensures leaves { (rules : Rules) → CanHold rules dict.old (cells_in best.old) ord object.now above left
        → LeavesRest state rules best.old dict.old best.new dict.new }
{
    match alloc_cell(best, 32 + object.len() as u32) {
        Ok(at) => {
            best.set_body(at, object);
            link_below(best, dict, at, above, left);
            Ok(())
        }
        Err(fault) => {
            lean_above(best, dict, ord, above);
            Err(fault)
        }
    }
}

// What becomes of an object that wants no table, by the answer for its holder.
fn told_by(held: Result<(), RegionFault>) -> Result<Fate, OutOfMemory>
    ensures { result ≡ told_by held }
{
    match held {
        Ok(()) => Ok(Fate::Stored),
        Err(fault) => match want_of(fault) {
            Some(want) => Ok(Fate::NoHolder(want)),
            None => Err(OutOfMemory),
        },
    }
}

// Puts an object into an ordered set, which is read down once.
fn put_ordered<D: DictDisc, L>(
    best: &mut Best,
    dict: &mut Dict,
    ord: DtOrd,
    kind: &D,
    object: &[u8],
    steps: &mut Steps<L>,
) -> Option<Result<Fate, OutOfMemory>>
    requires ask { CanAsk state (D.rules kind.now) best.old dict.old }
    requires object { IsObject object.now }
    requires form { dict.old.heads ≡ Order ord }
    requires set { is_set dict.old.method ≡ true }
    ensures matched { is_some result
        ≡ not (is_matched (D.rules kind.now) object.now (dictionary_in dict.old best.old)) }
    ensures looks { IfNone result (Looks state (D.rules kind.now) best.old dict.old best.new dict.new) }
    ensures inserts { IfSome result (λ r. Inserts state r (D.rules kind.now) false object.now
        best.old dict.old best.new dict.new) }
    ensures leaves { LeavesRest state (D.rules kind.now) best.old dict.old best.new dict.new }
    ensures compares { steps.new
        ≤ steps.old + length (dictionary_in dict.old best.old).objects }
{
    match place_for(best, ord, kind, kind.key(object), steps) {
        Place::Taken(at) => {
            lean(best, dict, ord, at);
            None
        }
        Place::Free(above, left) => {
            Some(told_by(hold_below(best, dict, ord, object, above, left)))
        }
    }
}

// Puts an object into a set. No object is compared as one joins a hash, so that no one reads how often.
fn put_hashed<D: DictDisc, L>(
    best: &mut Best,
    dict: &mut Dict,
    kind: &D,
    object: &[u8],
    steps: &mut Steps<L>,
) -> Option<Result<Fate, OutOfMemory>>
    requires ask { CanAsk state (D.rules kind.now) best.old dict.old }
    requires object { IsObject object.now }
    requires set { is_set dict.old.method ≡ true }
    requires table { has_table dict.old.method ≡ true }
    ensures matched { is_some result
        ≡ not (is_matched (D.rules kind.now) object.now (dictionary_in dict.old best.old)) }
    ensures looks { IfNone result (Looks state (D.rules kind.now) best.old dict.old best.new dict.new) }
    ensures inserts { IfSome result (λ r. Inserts state r (D.rules kind.now) false object.now
        best.old dict.old best.new dict.new) }
    ensures leaves { LeavesRest state (D.rules kind.now) best.old dict.old best.new dict.new }
    ensures compares { steps.new
        ≤ steps.old + length (dictionary_in dict.old best.old).objects }
{
    if find(best, dict, kind, kind.key(object), steps).is_some() {
        return None;
    }
    let mut uncounted = Steps::<Uncounted>::new(best.alloc);
    Some(insert(best, dict, kind, object, false, &mut uncounted))
}

/// Puts an object of 1 to 1,024 bytes into a dictionary of a best region where `insert` does, and makes it current, unless
/// one of a set matches it: then the answer is none, and nothing changes but how a tree leans. An ordered set is read down
/// once, to the object that matches or to the place of the new one. It makes at most as many compares as there are objects.
/// This project's own.
pub fn put<D: DictDisc, L>(
    best: &mut Best,
    dict: &mut Dict,
    kind: &D,
    object: &[u8],
    steps: &mut Steps<L>,
) -> Option<Result<Fate, OutOfMemory>>
    requires ask { CanAsk state (D.rules kind.now) best.old dict.old }
    requires object { IsObject object.now }
    ensures matched { is_some result
        ≡ not (is_matched (D.rules kind.now) object.now (dictionary_in dict.old best.old)) }
    ensures looks { IfNone result (Looks state (D.rules kind.now) best.old dict.old best.new dict.new) }
    ensures inserts { IfSome result (λ r. Inserts state r (D.rules kind.now) false object.now
        best.old dict.old best.new dict.new) }
    ensures leaves { LeavesRest state (D.rules kind.now) best.old dict.old best.new dict.new }
    ensures compares { steps.new
        ≤ steps.old + length (dictionary_in dict.old best.old).objects }
{
    if !dict.method.is_set() {
        return Some(insert(best, dict, kind, object, false, steps));
    }
    match dict.heads {
        Form::Order(ord) => put_ordered(best, dict, ord, kind, object, steps),
        Form::Hash(_) => put_hashed(best, dict, kind, object, steps),
        Form::Links(_) => unreachable!(),
    }
}
