ghost use Rattle.std.specs.Prelude.{◌≡◌, ◌≤◌, ℕ, List, Some, IsSome, length, map, take};
ghost use Rattle.std.specs.Option.{option_map};
ghost use Rattle.vc_base.specs.Prelude.{number_of};
ghost use Rattle.vc_dict.specs.Stands.{Became, IsDict, Stands};
ghost use Rattle.vc_paths.specs.Layers.{bytes_there};
ghost use Rattle.vc_region.specs.Cells.{cells_in};
ghost use Rattle.vc_algebra.specs.InRegion.{HasDictInRegion, LeavesDictsIn, layered_in, layers_of_region};
ghost use Rattle.vc_algebra.specs.Sides.{CanAsk, CanSeekBy, last_place_like, sought_holder, sought_place};

use crate::places::{best_of, dict_of, kind_of};
use crate::side::Side;
use vc_base::{Addr, Cells, Steps};
use vc_dict::{Dict, Dicts};
use vc_dtdisc::DictDisc;
use vc_region::Region;

/// The holder of a dictionary that is sought by a key; all but what has the key is sought in an ordered one alone. This project's own.
pub fn sought<C: Cells, D: DictDisc, L>(
    dict: &mut Dict,
    cells: &mut C,
    kind: &D,
    side: Side,
    key: &[u8],
    steps: &mut Steps<L>,
) -> Option<Addr>
    requires dict { IsDict (D.rules kind.now) dict.old (C.blocks cells.old) }
    requires side { CanAsk side dict.old.method }
    ensures found { (holders : List ℕ)
        → Stands (D.rules kind.now) dict.old (C.blocks cells.old) holders
        → option_map number_of result
        ≡ sought_holder side (D.rules kind.now) (C.blocks cells.old) key.now holders }
    ensures dict { (holders : List ℕ)
        → Stands (D.rules kind.now) dict.old (C.blocks cells.old) holders
        → Became (D.rules kind.now) holders dict.old (C.blocks cells.old) dict.new
        (C.blocks cells.new) holders dict.old.current.0 }
    ensures rest { C.RestStays cells.old cells.new }
{
    match side {
        Side::Below => dict.before(cells, kind, key, steps),
        Side::Level => dict.find(cells, kind, key, steps),
        Side::AtLeast => dict.at_least(cells, kind, key, steps),
        Side::Above => dict.behind(cells, kind, key, steps),
    }
}

// The holder that is sought by a key, in the dictionary of a number.
pub(crate) fn sought_at<D: DictDisc, L>(
    region: &mut Region,
    dicts: &mut Dicts,
    kinds: &Vec<D>,
    d: u32,
    side: Side,
    key: &[u8],
    steps: &mut Steps<L>,
) -> Option<Addr>
    requires dict { HasDictInRegion (map D.rules kinds.now.items) region.old dicts.old d }
    requires side { CanAsk side
        (layers_of_region (map D.rules kinds.now.items) (cells_in region.old) dicts.old d).method }
    ensures found { option_map number_of result ≡ sought_place side
        (layers_of_region (map D.rules kinds.now.items) (cells_in region.old) dicts.old d) key.now }
    ensures leaves { LeavesDictsIn (map D.rules kinds.now.items) region.old region.new
        dicts.old dicts.new }
{
    let Region::Best(best) = region else {
        unreachable!()
    };
    let dict = dicts.dict_mut(d);
    let kind = kind_of(kinds, dict.kind);
    sought(dict, best, kind, side, key, steps)
}

/// Copies an object of up to 1,024 bytes, and answers how many it has. This project's own.
pub fn copied(object: &[u8], out: &mut [u8; 1024]) -> usize
    requires { length object.now ≤ 1024 }
    ensures copy { take result out.new ≡ object.now }
    ensures within { result ≤ 1024 }
{
    out[..object.len()].copy_from_slice(object);
    object.len()
}

// The holder in the dictionary of a number that is sought by the key of the object at a place of another one of the kind.
pub(crate) fn sought_like<D: DictDisc, L>(
    region: &mut Region,
    dicts: &mut Dicts,
    kinds: &Vec<D>,
    d: u32,
    side: Side,
    other: (u32, Addr),
    steps: &mut Steps<L>,
) -> Option<Addr>
    requires { CanSeekBy (layered_in (map D.rules kinds.now.items) region.old dicts.old) d side other }
    ensures found { (bytes : List ℕ)
        → bytes_there other.1.0 (layers_of_region (map D.rules kinds.now.items) (cells_in region.old)
        dicts.old other.0).objects ≡ Some bytes
        → option_map number_of result ≡ sought_place side
        (layers_of_region (map D.rules kinds.now.items) (cells_in region.old) dicts.old d)
        ((layers_of_region (map D.rules kinds.now.items) (cells_in region.old) dicts.old d).rules.key bytes) }
    ensures leaves { LeavesDictsIn (map D.rules kinds.now.items) region.old region.new
        dicts.old dicts.new }
{
    let kind = kind_of(kinds, dict_of(dicts, d).kind);
    let mut object = [0u8; 1024];
    let length = copied(best_of(region).body(other.1), &mut object);
    sought_at(
        region,
        dicts,
        kinds,
        d,
        side,
        kind.key(&object[..length]),
        steps,
    )
}

// The last holder that matches one, in the dictionary of a number.
pub(crate) fn last_at<D: DictDisc, L>(
    region: &mut Region,
    dicts: &mut Dicts,
    kinds: &Vec<D>,
    d: u32,
    at: Addr,
    steps: &mut Steps<L>,
) -> Addr
    requires dict { HasDictInRegion (map D.rules kinds.now.items) region.old dicts.old d }
    requires place { IsSome (bytes_there at.0 (layers_of_region (map D.rules kinds.now.items)
        (cells_in region.old) dicts.old d).objects) }
    ensures found { (bytes : List ℕ)
        → bytes_there at.0 (layers_of_region (map D.rules kinds.now.items) (cells_in region.old)
        dicts.old d).objects ≡ Some bytes
        → Some result.0 ≡ last_place_like (layers_of_region (map D.rules kinds.now.items)
        (cells_in region.old) dicts.old d) bytes }
    ensures leaves { LeavesDictsIn (map D.rules kinds.now.items) region.old region.new
        dicts.old dicts.new }
{
    let Region::Best(best) = region else {
        unreachable!()
    };
    let dict = dicts.dict_mut(d);
    let kind = kind_of(kinds, dict.kind);
    dict.last_like(best, kind, at, steps)
}
