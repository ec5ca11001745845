ghost use Rattle.std.specs.Prelude.{◌≡◌, ◌<◌, ◌^◌, map};
ghost use Rattle.vc_counts.specs.Holders.{IsSomeWhole, IsWholeIn};
ghost use Rattle.vc_counts.specs.Working.{holders_bytes};
ghost use Rattle.vc_objects.specs.Parts.{dictionary_of};
ghost use Rattle.vc_views.specs.Dicts.{cells_held, region_named, region_seen};

use indexmap::IndexMap;
use vc_base::{Cells, Name};
use vc_dict::Dict;
use vc_steps::{DictEntry, HomeEntry};
use vc_views::best_of;

// Those of a dictionary over some cells, one behind another.
fn holders_over<C: Cells>(cells: &C, dict: &Dict) -> u64
    requires { IsSomeWhole dict.now (C.blocks cells.now) }
    ensures bytes { result ≡ holders_bytes (dictionary_of dict.now (C.blocks cells.now)).objects }
    ensures few { result < 2 ^ 43 }
{
    let mut bytes = 0;
    let mut next = dict.first(cells);
    for _ in 0..dict.count {
        let Some(holder) = next else { unreachable!() };
        bytes += 32 + cells.body(holder).len() as u64;
        next = dict.next(cells, holder);
    }
    bytes
}

// Those of a dictionary in its region, which is open and a best one.
pub(crate) fn holders_bytes(homes: &IndexMap<Name, HomeEntry>, entry: &DictEntry) -> u64
    requires { IsWholeIn (map region_seen homes.now.entries) entry.now }
    ensures bytes { result ≡ holders_bytes (dictionary_of entry.now.dict
        (cells_held (region_named (map region_seen homes.now.entries) entry.now.home))).objects }
    ensures few { result < 2 ^ 43 }
{
    holders_over(best_of(homes, &entry.home, 0), &entry.dict)
}
