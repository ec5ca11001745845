ghost use Rattle.std.specs.Prelude.{◌≡◌, ◌<◌, ℕ, None, length, map};
ghost use Rattle.std.specs.List.{IsDistinct};
ghost use Rattle.std.specs.Map.{keys_of};
ghost use Rattle.std.specs.Str.{bytes_eq};
ghost use Rattle.vc_base.specs.Prelude.{contains};
ghost use Rattle.vc_paths.specs.Links.{below, numbers};
ghost use Rattle.vc_views.specs.Dicts.{entry_numbered, number_in};
ghost use Rattle.vc_views.specs.Numbers.{bars};
ghost use Rattle.vc_views.specs.Views.{refusal_of_view};

use indexmap::IndexMap;
use vc_base::Name;
use vc_commands::DictEntry;
use vc_dict::{Paths, ViewFault};
use vc_script::{Refusal, Work};

// There are so many numbers of dictionaries.
const NUMBERS: u32 = 256;

/// What is always true of the names of dictionaries: no two are alike.
pub fn show_names(dicts: &IndexMap<Name, DictEntry>)
    ensures { IsDistinct bytes_eq (keys_of dicts.now.entries) }
{
    let _count = dicts.len();
}

// Whether a dictionary has the number.
fn has_number(dicts: &IndexMap<Name, DictEntry>, number: u32) -> bool
    ensures { result ≡ contains (map number_in dicts.now.entries) number }
{
    dicts.values().any(|entry| entry.number == number)
}

/// A number from 0 to 255 that none of the dictionaries has. There are fewer than 256 of them.
pub fn free_number(dicts: &IndexMap<Name, DictEntry>) -> u32
    requires few { length dicts.now.entries < numbers }
    ensures free { entry_numbered result dicts.now.entries ≡ None }
    ensures below { result < numbers }
{
    let mut number = 0;
    while has_number(dicts, number) {
        number += 1;
    }
    number
}

/// Whether a view stands against what a command does with the dictionary of that number, from 0 to 255: it ends one that
/// another one views, or gives another method to one that is viewed or views another one. This project's own.
pub fn is_barred(paths: &Paths, number: u32, work: Work) -> bool
    requires { number < numbers }
    ensures { result ≡ bars paths.now number work }
{
    match work {
        Work::End => paths.is_viewed(number),
        Work::Turn => paths.is_viewed(number) || paths.below(number).is_some(),
        _ => false,
    }
}

/// The refusal of a script for a view that can't be.
pub fn refusal_of(fault: ViewFault) -> Refusal
    ensures { result ≡ refusal_of_view fault }
{
    match fault {
        ViewFault::Differs => Refusal::ViewDiffers,
        ViewFault::Cycle => Refusal::ViewCycle,
        ViewFault::TooDeep => Refusal::ViewTooDeep,
    }
}

/// Ends every view. It cannot be refused.
pub fn end_views(paths: &mut Paths)
    ensures { (n : ℕ) → below paths.new n ≡ None }
{
    for number in 0..NUMBERS {
        paths.show_invariant();
        paths.end(number);
    }
    paths.show_invariant();
}
