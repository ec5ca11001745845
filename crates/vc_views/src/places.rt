ghost use Rattle.std.specs.Prelude.{◌≡◌, ◌<◌, Some, IsSome, length, map, slice_get};
ghost use Rattle.std.specs.Option.{option_map};
ghost use Rattle.vc_model.specs.Numbered.{at_number};
ghost use Rattle.vc_best.specs.Cells.{cells_in};
ghost use Rattle.vc_views.specs.Dicts.{entry_numbered, region_seen};
ghost use Rattle.vc_views.specs.Promises.{cells_under};
ghost use Rattle.vc_views.specs.Leaves.{IsBestNamed};

use crate::near::index_near;
use indexmap::IndexMap;
use vc_base::Name;
use vc_best::Best;
use vc_commands::{DictEntry, HomeEntry};
use vc_dtdisc::DictDisc;
use vc_region::Region;

// The index of the first dictionary of a number, from 0 on. There is one.
pub(crate) fn index_of(dicts: &IndexMap<Name, DictEntry>, d: u32) -> usize
    requires { IsSome (entry_numbered d dicts.now.entries) }
    ensures entry { slice_get dicts.now.entries result ≡ entry_numbered d dicts.now.entries }
    ensures within { result < length dicts.now.entries }
{
    for i in 0..dicts.len() {
        if dicts[i].number == d {
            return i;
        }
    }
    unreachable!()
}

// The first dictionary of a number. There is one.
pub(crate) fn entry_of<'a>(dicts: &'a IndexMap<Name, DictEntry>, d: u32) -> &'a DictEntry
    requires { IsSome (entry_numbered d dicts.now.entries) }
    ensures { option_map (λ e. e.1) (entry_numbered d dicts.now.entries) ≡ Some result.now }
{
    &dicts[index_of(dicts, d)]
}

// The kind of a number, from 1 on. There is one.
pub(crate) fn kind_of<'a, D: DictDisc>(kinds: &'a Vec<D>, k: u32) -> &'a D
    requires { IsSome (at_number (map D.rules kinds.now.items) k) }
    ensures { at_number (map D.rules kinds.now.items) k ≡ Some (D.rules result.now) }
{
    &kinds[k as usize - 1]
}

/// The region of a name. It is open and a best one. An index at which it may stand, which may be any number, is looked at
/// first.
pub fn best_of<'a>(homes: &'a IndexMap<Name, HomeEntry>, name: &Name, near: usize) -> &'a Best
    requires { IsBestNamed (map region_seen homes.now.entries) name.now }
    ensures { cells_in result.now ≡ cells_under homes.now.entries name.now }
{
    let Some(j) = index_near(homes, name, near) else {
        unreachable!()
    };
    let Region::Best(best) = &homes[j].region else {
        unreachable!()
    };
    best
}
