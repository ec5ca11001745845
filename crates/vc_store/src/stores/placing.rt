ghost use Rattle.std.specs.Prelude.{◌≡◌, ◌↔◌, ◌+◌, ℕ, IfOk, IsTrue, None, length, slice_get};
ghost use Rattle.std.specs.List.{AllByRecursion};
ghost use Rattle.vc_store.specs.Stores.Loads.{HaveOwnKinds, with_kind};
ghost use Rattle.vc_store.specs.Stores.Places.{CanStandAgain};
ghost use Rattle.vc_store.specs.Stores.Stores.{joined};

use crate::stores::copies::copy;
use std::alloc::Global;
use vc_base::OutOfMemory;
use vc_dict::Dict;

// So many places, each of no dictionary.
pub(crate) fn empty_places(alloc: Global, count: usize) -> Result<Vec<Option<Dict>>, OutOfMemory>
    ensures count { IfOk result (λ places. length places.items ≡ count) }
    ensures empty { IfOk result (λ places. (n : ℕ) → joined (slice_get places.items n) ≡ None) }
{
    let mut places = Vec::new(alloc);
    places.reserve(count)?;
    for _ in 0..count {
        places.push(None)?;
    }
    Ok(places)
}

// Puts each dictionary to the place before its kind's number, from the last one on, as long as that place is empty, and
// answers whether each one's was.
pub(crate) fn place(dicts: &[Dict], places: &mut Vec<Option<Dict>>) -> bool
    requires fit { AllByRecursion (CanStandAgain (length places.old.items)) dicts.now }
    requires empty { (n : ℕ) → joined (slice_get places.old.items n) ≡ None }
    ensures own { IsTrue result ↔ HaveOwnKinds dicts.now }
    ensures placed { IsTrue result → (n : ℕ) → joined (slice_get places.new.items n) ≡ with_kind (n + 1) dicts.now }
    ensures count { length places.new.items ≡ length places.old.items }
{
    let mut left = dicts.len();
    while left > 0 {
        left -= 1;
        let dict = &dicts[left];
        let n = dict.kind as usize - 1;
        if places[n].is_some() {
            return false;
        }
        places[n] = Some(copy(dict, dict.kind));
    }
    true
}
