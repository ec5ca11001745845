ghost use Rattle.std.specs.Prelude.{◌≡◌, ◌<◌, Some, IsSome, length, map, slice_get, true};
ghost use Rattle.vc_model.specs.Numbered.{at_number};
ghost use Rattle.vc_best.specs.Cells as best;
ghost use Rattle.vc_region.specs.Cells.{cells_in, rest_in};
ghost use Rattle.vc_region.specs.Region.{is_best};

use vc_best::Best;
use vc_dict::{Dict, Dicts};
use vc_dtdisc::DictDisc;
use vc_region::Region;

// The dictionary of a number, from 0 on. There is one.
pub(crate) fn dict_of(dicts: &Dicts, d: u32) -> &Dict
    requires { d < length dicts.now }
    ensures { slice_get dicts.now d ≡ Some result.now }
{
    &dicts.as_slice()[d as usize]
}

// The kind of a number, from 1 on. There is one.
pub(crate) fn kind_of<D: DictDisc>(kinds: &Vec<D>, k: u32) -> &D
    requires { IsSome (at_number (map D.rules kinds.now.items) k) }
    ensures { at_number (map D.rules kinds.now.items) k ≡ Some (D.rules result.now) }
{
    &kinds[k as usize - 1]
}

// A best region.
pub(crate) fn best_of(region: &Region) -> &Best
    requires { is_best (rest_in region.now) ≡ true }
    ensures { best.cells_in result.now ≡ cells_in region.now }
{
    let Region::Best(best) = region else {
        unreachable!()
    };
    best
}
