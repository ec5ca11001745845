ghost use Rattle.std.specs.Prelude.{◌<◌, IsErrOf, OnOk};
ghost use Rattle.vc_base.specs.Prelude.{place_of, HasBlock};
ghost use Rattle.vc_model.specs.Last.{last_free};
ghost use Rattle.vc_seg.specs.Answer.{Frees};
ghost use Rattle.vc_seg.specs.OneBlock.{IsBlockFreed};
ghost use Rattle.vc_last.specs.Chain.{IsLast};
ghost use Rattle.vc_last.specs.Read.{layout_by};

use crate::head::before_at;
use vc_base::Addr;
use vc_seg::{RegionFault, Segment};

// Frees the block at an address, if it is the latest. The one that its head names is then the latest.
pub(crate) fn free_in(segs: &[Segment], latest: &mut Addr, a: Addr) -> Result<(), RegionFault>
    requires kept { IsLast segs.now latest.old.0 }
    requires block { HasBlock (layout_by segs.now latest.old.0).blocks a.0 }
    ensures kept { IsLast segs.now latest.new.0 }
    ensures answer { Frees (last_free (layout_by segs.now latest.old.0) (place_of a.0)) result
        (layout_by segs.now latest.old.0) (layout_by segs.now latest.new.0) }
    ensures memory { ¬ IsErrOf result RegionFault.OutOfMemory }
    ensures freed { OnOk result (IsBlockFreed a.0 (layout_by segs.now latest.old.0).blocks
        (layout_by segs.now latest.new.0).blocks) }
{
    if a.0 != latest.0 {
        return Err(RegionFault::NotLast);
    }
    *latest = before_at(segs, a);
    Ok(())
}
