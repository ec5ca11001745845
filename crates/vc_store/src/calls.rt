ghost use Rattle.std.specs.Prelude.{◌≡◌, false, is_some, option_map, OnErr};
ghost use Rattle.std.specs.List.{find};
ghost use Rattle.vc_base.specs.Prelude.{number_of};
ghost use Rattle.vc_dtdisc.specs.Objects.{address_of, has_key};
ghost use Rattle.vc_best.specs.Cells.{cells_in};
ghost use Rattle.vc_best.specs.Parts.{disc_in};
ghost use Rattle.vc_objects.specs.Leaves.{Looks, LeavesRest};
ghost use Rattle.vc_objects.specs.Parts.{IsWhole, dictionary_in};
ghost use Rattle.vc_objects.specs.Promises.{CanAsk};
ghost use Rattle.vc_store.specs.Contents.{contents_in, with_holder_current};
ghost use Rattle.vc_store.specs.Reading.{AfterPut, Removes, Sought, is_object, is_sought_from, place_after};
ghost use Rattle.vc_store.specs.Tries.{IsTried, TriesToPut, told_put};

use crate::put::Put;
use vc_base::{Addr, OutOfMemory, Steps};
use vc_best::Best;
use vc_dict::Dict;
use vc_dtdisc::DictDisc;
use vc_objects::{Fate, find, remove};
use vc_seg::{BoxedDisc, SegDisc};

// Marks a counter of steps that no one reads.
pub(crate) struct Uncounted;

// Whether an object has 1 to 1,024 bytes.
fn is_object(bytes: &[u8]) -> bool
    ensures { result ≡ is_object bytes.now }
{
    1 <= bytes.len() && bytes.len() <= 1024
}

// The answer to an object, by what became of it: none where one of a set matches it.
fn told_by(fate: Option<Result<Fate, OutOfMemory>>) -> Put
    ensures { result ≡ told_put fate }
{
    match fate {
        None => Put::Old,
        Some(Ok(Fate::Stored)) => Put::New,
        Some(Ok(_)) => Put::NoSegment,
        Some(Err(_)) => Put::OutOfMemory,
    }
}

/// Puts an object, unless one of a set matches it.
pub fn put<D: DictDisc>(best: &mut Best, dict: &mut Dict, kind: &D, object: &[u8]) -> Put
    requires ask { CanAsk state (D.rules kind.now) best.old dict.old }

    ensures objects { AfterPut result (D.rules kind.now) object.now (contents_in dict.old best.old)
        (contents_in dict.new best.new).objects }
    ensures place { (contents_in dict.new best.new).place ≡ place_after result
        (D.rules kind.now) object.now (contents_in dict.old best.old) }
    ensures method { dict.new.method ≡ dict.old.method }
    ensures tried { IsTried result (TriesToPut state result (D.rules kind.now) object.now
        best.old dict.old best.new dict.new) }
    ensures leaves { LeavesRest state (D.rules kind.now) best.old dict.old best.new dict.new }
{
    if !is_object(object) {
        return Put::WrongSize;
    }
    let mut steps = Steps::<Uncounted>::new(best.alloc);
    told_by(vc_objects::put(best, dict, kind, object, &mut steps))
}

// Makes the object of a holder current, and answers whether there is one.
fn show(dict: &mut Dict, at: Option<Addr>) -> bool
    ensures there { result ≡ is_some at }
    ensures dict { dict.new ≡ with_holder_current at dict.old }
{
    match at {
        Some(at) => {
            dict.current = at;
            true
        }
        None => false,
    }
}

/// Makes the first object current that has a key, and answers whether there is one.
pub fn seek<D: DictDisc>(best: &mut Best, dict: &mut Dict, kind: &D, key: &[u8]) -> bool
    requires whole { IsWhole (D.rules kind.now) dict.old (cells_in best.old) }

    ensures sought { Sought (has_key (D.rules kind.now) key.now) result
        (contents_in dict.old best.old) (contents_in dict.new best.new) }
    ensures disc { disc_in state best.new ≡ disc_in state best.old }
    ensures leaves { LeavesRest state (D.rules kind.now) best.old dict.old best.new dict.new }
{
    let mut steps = Steps::<Uncounted>::new(best.alloc);
    let at = find(best, dict, kind, key, &mut steps);
    show(dict, at)
}

// The holder of the first object of an ordered method whose key isn't less than another one; none by another method.
fn least<D: DictDisc>(best: &mut Best, dict: &mut Dict, kind: &D, key: &[u8]) -> Option<Addr>
    requires whole { IsWhole (D.rules kind.now) dict.old (cells_in best.old) }
    ensures found { option_map number_of result ≡ option_map address_of
        (find (λ o. is_sought_from dict.old.method (D.rules kind.now) key.now o.bytes)
        (dictionary_in dict.old best.old).objects) }
    ensures looks { Looks state (D.rules kind.now) best.old dict.old best.new dict.new }
{
    if dict.method.is_ordered() {
        let mut steps = Steps::<Uncounted>::new(best.alloc);
        dict.at_least(best, kind, key, &mut steps)
    } else {
        None
    }
}

/// Makes the first object of an ordered method current whose key isn't less than another one, and answers whether there is one.
pub fn seek_from<D: DictDisc>(best: &mut Best, dict: &mut Dict, kind: &D, key: &[u8]) -> bool
    requires whole { IsWhole (D.rules kind.now) dict.old (cells_in best.old) }

    ensures sought { Sought (is_sought_from dict.old.method (D.rules kind.now) key.now) result
        (contents_in dict.old best.old) (contents_in dict.new best.new) }
    ensures disc { disc_in state best.new ≡ disc_in state best.old }
    ensures leaves { LeavesRest state (D.rules kind.now) best.old dict.old best.new dict.new }
{
    let at = least(best, dict, kind, key);
    show(dict, at)
}

/// Takes the first object out that has a key, telling the kind, and answers whether there is one. Its bytes come into `out`.
/// With no memory for them nothing changes.
pub fn take<D: DictDisc>(
    best: &mut Best,
    dict: &mut Dict,
    kind: &mut D,
    key: &[u8],
    out: &mut Vec<u8>,
) -> Result<bool, OutOfMemory>
    requires whole { IsWhole (D.rules kind.old) dict.old (cells_in best.old) }

    ensures removes { Removes (D.rules kind.old) key.now result out.new.items
        (contents_in dict.old best.old) (contents_in dict.new best.new)
        (D.gone kind.old) (D.gone kind.new) }
    ensures method { dict.new.method ≡ dict.old.method }
    ensures err { OnErr result ((dict.new ≡ dict.old) × (cells_in best.new ≡ cells_in best.old)) }
    ensures rules { D.rules kind.new ≡ D.rules kind.old }
    ensures leaves { LeavesRest state (D.rules kind.old) best.old dict.old best.new dict.new }
{
    out.clear();
    out.reserve(1024)?;
    let mut steps = Steps::<Uncounted>::new(best.alloc);
    Ok(remove(best, dict, kind, key, true, out, &mut steps))
}
