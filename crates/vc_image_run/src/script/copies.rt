ghost use Rattle.std.specs.Prelude.{◌≡◌, ◌<◌, ◌^◌, ◌++◌, ◌∷◌, [], IfOk, OnOk};
ghost use Rattle.vc_image_run.specs.Script.Copies.{KindsFit, copies_in, copies_of};
ghost use Rattle.vc_image_run.specs.Session.Copies.{copy_of};

use crate::session::copy_of;
use std::alloc::Global;
use vc_base::{Name, OutOfMemory};
use vc_dict::{Dict, Dicts};
use vc_session::{DictEntry, Session};

// Puts a copy of a dictionary behind the others.
fn add(copies: &mut Dicts, dict: &Dict) -> Result<(), OutOfMemory>
    ensures put { OnOk result (copies.new ≡ copies.old ++ copy_of dict.now ∷ []) }
    ensures kind { OnOk result (dict.now.kind < 2 ^ 32) }
{
    match copies.add(copy_of(dict)) {
        Ok(()) => Ok(()),
        Err((refused, _)) => Err(refused),
    }
}

// Puts a copy of a dictionary behind the others where it lies in the region of a name.
fn add_if_in(copies: &mut Dicts, entry: &DictEntry, region: &Name) -> Result<(), OutOfMemory>
    ensures put { OnOk result (copies.new ≡ copies.old ++ copies_of region.now entry.now) }
    ensures kind { OnOk result (KindsFit (copies_of region.now entry.now)) }
{
    if entry.home == *region {
        return add(copies, &entry.dict);
    }
    Ok(())
}

// Copies of the dictionaries that lie in the region of a name, in order of opening.
pub(crate) fn copies_in<D>(
    alloc: Global,
    session: &Session<D>,
    region: &Name,
) -> Result<Dicts, OutOfMemory>
    ensures copies { IfOk result (λ copies. copies ≡ copies_in region.now session.now.dicts.entries) }
    ensures kinds { IfOk result KindsFit }
{
    let mut copies = Dicts::new(alloc);
    for i in 0..session.dicts.len() {
        match session.dicts.get_index(i) {
            Some((_, entry)) => add_if_in(&mut copies, entry, region)?,
            None => return Ok(copies),
        }
    }
    Ok(copies)
}
