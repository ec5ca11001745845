ghost use Rattle.std.specs.Prelude.{◌≡◌, ◌<◌, ◌≤◌, ℕ, List, Some, IsSome, length, map, take, true};
ghost use Rattle.std.specs.Option.{option_map};
ghost use Rattle.vc_base.specs.Prelude.{contains, number_of};
ghost use Rattle.vc_dict.specs.Listed.{holders_of};
ghost use Rattle.vc_dict.specs.Stands.{Became, IsDict, Stands};
ghost use Rattle.vc_dtdisc.specs.Rules.{Rules};
ghost use Rattle.vc_objects.specs.Parts.{IsWhole};
ghost use Rattle.vc_paths.specs.Layers.{bytes_there};
ghost use Rattle.vc_views.specs.Dicts.{AreDictsOver, home_rest, region_seen};
ghost use Rattle.vc_views.specs.Leaves.{IsBestNamed, LooksAt};
ghost use Rattle.vc_views.specs.Promises.{LeavesDicts, cells_under, layer_at, layered_over};
ghost use Rattle.vc_views.specs.Sides.{CanCompare, CanStand, holder_like, holder_to, last_match_place, place_like, place_to};

use crate::near::index_near;
use crate::places::{best_of, entry_of, index_of, kind_of};
use indexmap::IndexMap;
use std::cmp::Ordering;
use vc_base::{Addr, Cells, Name, Steps};
use vc_commands::{DictEntry, HomeEntry};
use vc_dict::Dict;
use vc_dtdisc::DictDisc;
use vc_region::Region;

// The first holder of a dictionary whose object has a key, the first whose key is greater, or the last whose key is less: by
// how what is sought stands to the key.
fn sought<C: Cells, D: DictDisc, L>(
    dict: &mut Dict,
    cells: &mut C,
    kind: &D,
    side: Ordering,
    key: &[u8],
    steps: &mut Steps<L>,
) -> Option<Addr>
    requires dict { IsDict (D.rules kind.now) dict.old (C.blocks cells.old) }
    requires side { CanStand side dict.old.method }
    ensures found { (holders : List ℕ)
        → Stands (D.rules kind.now) dict.old (C.blocks cells.old) holders
        → option_map number_of result
        ≡ holder_to side (D.rules kind.now) (C.blocks cells.old) key.now holders }
    ensures dict { (holders : List ℕ)
        → Stands (D.rules kind.now) dict.old (C.blocks cells.old) holders
        → Became (D.rules kind.now) holders dict.old (C.blocks cells.old) dict.new
        (C.blocks cells.new) holders dict.old.current.0 }
    ensures rest { C.RestStays cells.old cells.new }
{
    match side {
        Ordering::Less => dict.before(cells, kind, key, steps),
        Ordering::Equal => dict.find(cells, kind, key, steps),
        Ordering::Greater => dict.behind(cells, kind, key, steps),
    }
}

// The holder that stands so to a key, in a dictionary of the region of that name.
fn sought_in<D: DictDisc, L>(
    homes: &mut IndexMap<Name, HomeEntry>,
    name: &Name,
    near: usize,
    dict: &mut Dict,
    kind: &D,
    side: Ordering,
    key: &[u8],
    steps: &mut Steps<L>,
) -> Option<Addr>
    requires region { IsBestNamed (map region_seen homes.old.entries) name.now }
    requires whole { IsWhole (D.rules kind.now) dict.old
        (cells_under homes.old.entries name.now) }
    requires side { CanStand side dict.old.method }
    ensures found { option_map number_of result ≡ holder_to side (D.rules kind.now)
        (cells_under homes.old.entries name.now) key.now
        (holders_of dict.old (cells_under homes.old.entries name.now)) }
    ensures looks { LooksAt (D.rules kind.now) name.now (map region_seen homes.old.entries) dict.old
        (map region_seen homes.new.entries) dict.new }
    ensures rest { map home_rest homes.new.entries ≡ map home_rest homes.old.entries }
{
    let Some(j) = index_near(homes, name, near) else {
        unreachable!()
    };
    let Region::Best(best) = &mut homes[j].region else {
        unreachable!()
    };
    sought(dict, best, kind, side, key, steps)
}

// The holder that stands so to a key, in the dictionary of an index, from 0 on.
pub(crate) fn sought_at<D: DictDisc, L>(
    homes: &mut IndexMap<Name, HomeEntry>,
    near: usize,
    dicts: &mut IndexMap<Name, DictEntry>,
    kinds: &Vec<D>,
    i: usize,
    side: Ordering,
    key: &[u8],
    steps: &mut Steps<L>,
) -> Option<Addr>
    requires dicts { AreDictsOver (map D.rules kinds.now.items)
        (map region_seen homes.old.entries) dicts.old.entries }
    requires index { i < length dicts.old.entries }
    requires side { CanStand side (layer_at (map D.rules kinds.now.items) homes.old.entries
        dicts.old.entries i).method }
    ensures found { option_map number_of result ≡ place_to side
        (layer_at (map D.rules kinds.now.items) homes.old.entries dicts.old.entries i) key.now }
    ensures leaves { LeavesDicts (map D.rules kinds.now.items)
        homes.old.entries homes.new.entries dicts.old.entries dicts.new.entries }
{
    let entry = &mut dicts[i];
    let kind = kind_of(kinds, entry.dict.kind);
    sought_in(
        homes,
        &entry.home,
        near,
        &mut entry.dict,
        kind,
        side,
        key,
        steps,
    )
}

// Copies an object, and answers how many bytes it has.
fn copied(object: &[u8], out: &mut [u8; 1024]) -> usize
    requires { length object.now ≤ 1024 }
    ensures copy { take result out.new ≡ object.now }
    ensures within { result ≤ 1024 }
{
    out[..object.len()].copy_from_slice(object);
    object.len()
}

// The holder in the dictionary of a number that stands so to the object at a place of another one, of the same kind.
pub(crate) fn sought_like<D: DictDisc, L>(
    homes: &mut IndexMap<Name, HomeEntry>,
    near: usize,
    dicts: &mut IndexMap<Name, DictEntry>,
    kinds: &Vec<D>,
    d: u32,
    side: Ordering,
    other: (u32, Addr),
    steps: &mut Steps<L>,
) -> Option<Addr>
    requires { CanCompare (layered_over (map D.rules kinds.now.items) homes.old.entries
        dicts.old.entries) d side other }
    ensures found { (bytes : List ℕ)
        → bytes_there other.1.0 ((layered_over (map D.rules kinds.now.items) homes.old.entries
        dicts.old.entries).layer other.0).objects ≡ Some bytes
        → option_map number_of result ≡ place_like side ((layered_over (map D.rules kinds.now.items)
        homes.old.entries dicts.old.entries).layer d) bytes }
    ensures leaves { LeavesDicts (map D.rules kinds.now.items)
        homes.old.entries homes.new.entries dicts.old.entries dicts.new.entries }
{
    let i = index_of(dicts, d);
    let kind = kind_of(kinds, dicts[i].dict.kind);
    let from = entry_of(dicts, other.0);
    let mut object = [0u8; 1024];
    let length = copied(best_of(homes, &from.home, near).body(other.1), &mut object);
    sought_at(
        homes,
        near,
        dicts,
        kinds,
        i,
        side,
        kind.key(&object[..length]),
        steps,
    )
}

// The last holder that matches one, in a dictionary of the region of that name.
fn last_in<D: DictDisc, L>(
    homes: &mut IndexMap<Name, HomeEntry>,
    name: &Name,
    near: usize,
    dict: &mut Dict,
    kind: &D,
    at: Addr,
    steps: &mut Steps<L>,
) -> Addr
    requires region { IsBestNamed (map region_seen homes.old.entries) name.now }
    requires whole { IsWhole (D.rules kind.now) dict.old
        (cells_under homes.old.entries name.now) }
    requires within { contains (holders_of dict.old
        (cells_under homes.old.entries name.now)) at.0 ≡ true }
    ensures found { Some result.0 ≡ holder_like (D.rules kind.now)
        (cells_under homes.old.entries name.now) at.0
        (holders_of dict.old (cells_under homes.old.entries name.now)) }
    ensures looks { LooksAt (D.rules kind.now) name.now (map region_seen homes.old.entries) dict.old
        (map region_seen homes.new.entries) dict.new }
    ensures rest { map home_rest homes.new.entries ≡ map home_rest homes.old.entries }
{
    let Some(j) = index_near(homes, name, near) else {
        unreachable!()
    };
    let Region::Best(best) = &mut homes[j].region else {
        unreachable!()
    };
    dict.last_like(best, kind, at, steps)
}

// The last holder that matches one of the dictionary of an index, from 0 on.
pub(crate) fn last_at<D: DictDisc, L>(
    homes: &mut IndexMap<Name, HomeEntry>,
    near: usize,
    dicts: &mut IndexMap<Name, DictEntry>,
    kinds: &Vec<D>,
    i: usize,
    at: Addr,
    steps: &mut Steps<L>,
) -> Addr
    requires dicts { AreDictsOver (map D.rules kinds.now.items)
        (map region_seen homes.old.entries) dicts.old.entries }
    requires index { i < length dicts.old.entries }
    requires place { IsSome (bytes_there at.0 (layer_at (map D.rules kinds.now.items)
        homes.old.entries dicts.old.entries i).objects) }
    ensures found { (bytes : List ℕ)
        → bytes_there at.0 (layer_at (map D.rules kinds.now.items) homes.old.entries
        dicts.old.entries i).objects ≡ Some bytes
        → Some result.0 ≡ last_match_place (layer_at (map D.rules kinds.now.items)
        homes.old.entries dicts.old.entries i) bytes }
    ensures leaves { LeavesDicts (map D.rules kinds.now.items)
        homes.old.entries homes.new.entries dicts.old.entries dicts.new.entries }
{
    let entry = &mut dicts[i];
    let kind = kind_of(kinds, entry.dict.kind);
    last_in(homes, &entry.home, near, &mut entry.dict, kind, at, steps)
}
