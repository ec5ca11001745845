ghost use Rattle.std.specs.Prelude.{◌≡◌, ◌++◌, ◌^◌, ◌<◌, ◌↔◌, IfOk, IsTrue, OnOk};
ghost use Rattle.std.specs.List.{AllByRecursion};
ghost use Rattle.vc_store.specs.Stores.Copies.{AreFew, copies_from, copy_at, of_kind};

use std::alloc::Global;
use vc_base::OutOfMemory;
use vc_dict::{Dict, Dicts};

// How many dictionaries an image can tell at most.
const MOST: u32 = 256;

// The greatest number of a kind in an image.
const LAST_KIND: usize = 4_294_967_295;

// A dictionary with another number as its kind.
pub(crate) fn copy(dict: &Dict, kind: u32) -> Dict
    ensures { result ≡ of_kind kind dict.now }
{
    Dict::from_parts(dict.method, kind, dict.count, dict.current, dict.heads())
}

// Whether an image can tell the dictionaries that are there.
pub(crate) fn are_few(dicts: &[Option<Dict>]) -> bool
    ensures { IsTrue result ↔ AreFew (copies_from 0 dicts.now) }
{
    let mut count = 0;
    for n in 0..dicts.len() {
        if dicts[n].is_some() {
            if count == MOST || LAST_KIND <= n {
                return false;
            }
            count += 1;
        }
    }
    true
}

// Puts the copy of the dictionary of a number behind the others, where there is one.
fn add(copies: &mut Dicts, n: usize, dict: &Option<Dict>) -> Result<(), OutOfMemory>
    requires { AllByRecursion (λ d. d.kind < 2 ^ 32) (copy_at n dict.now) }
    ensures { OnOk result (copies.new ≡ copies.old ++ copy_at n dict.now) }
{
    match dict {
        Some(dict) => match copies.add(copy(dict, (n + 1) as u32)) {
            Ok(()) => Ok(()),
            Err((refused, _)) => Err(refused),
        },
        None => Ok(()),
    }
}

// Copies of the dictionaries that are there, in order of number, each of the kind behind its number.
pub(crate) fn copies(alloc: Global, dicts: &[Option<Dict>]) -> Result<Dicts, OutOfMemory>
    requires { AreFew (copies_from 0 dicts.now) }
    ensures { IfOk result (λ copies. copies ≡ copies_from 0 dicts.now) }
{
    let mut copies = Dicts::new(alloc);
    for n in 0..dicts.len() {
        add(&mut copies, n, &dicts[n])?;
    }
    Ok(copies)
}
