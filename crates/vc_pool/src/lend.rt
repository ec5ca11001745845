ghost use Rattle.std.specs.Prelude.{◌≡◌, ◌≢◌, ◌+◌, ◌-◌, ◌/◌, ◌%◌, ◌<◌, ◌≤◌, Err, IfErr, IfOk, IsErrOf, None, OnErr, OnOk, false, length, map, replicate, vec_capacity, vec_len};
ghost use Rattle.vc_base.specs.Prelude.{IsSegmentSize, TooMany, ask, cell_for};
ghost use Rattle.vc_model.specs.Segments.{growing};
ghost use Rattle.vc_pool.specs.Ask.{IsGranted};
ghost use Rattle.vc_pool.specs.Cells.Blocks.{pair_of};
ghost use Rattle.vc_pool.specs.Cells.Carve.{AreCarved};
ghost use Rattle.vc_pool.specs.Cells.Kept.{AreCellular, FitsElement};
ghost use Rattle.vc_pool.specs.Cells.Place.{cells_in};
ghost use Rattle.vc_seg.specs.Lend.{IsAsked, IsNoGrant};

use crate::cells::{PoolSegment, carve_new};
use crate::room::{reserve, table_of};
use std::alloc::Global;
use vc_base::Addr;
use vc_seg::{RegionFault, SegDisc, lend_next, rounded_up};

// A block of zeros in the first cell of a segment of so many bytes that is lent, under the least number that no segment has.
// None of the segments may be made longer instead. `TooManySegments` comes exactly where there are 1,023, before memory is
// wanted, and `NoSegment` where the discipline refuses. The memory for the list and for the table of the cells comes first, so
// that nothing is asked for in vain.
pub(crate) fn put_in_new(
    segs: &mut Vec<PoolSegment>,
    disc: &mut Box<dyn SegDisc>,
    alloc: Global,
    element: u32,
    size: u32,
    tag: u32,
    bytes: u32,
) -> Result<Addr, RegionFault>
    requires kept { AreCellular element (cells_in segs.old.items) }
    requires full { AreCarved element (cells_in segs.old.items) }
    requires new { growing (state disc.old).terms (map pair_of (cells_in segs.old.items)) ≡ None }
    requires size { FitsElement size element }
    requires least { 32 + cell_for element ≤ bytes }
    requires bytes { IsSegmentSize bytes }
    requires multiple { bytes % (state disc.old).terms.round ≡ 0 }
    ensures granted { IfOk result (λ a. IsGranted element tag size bytes
        (cells_in segs.old.items) (cells_in segs.new.items) (state disc.old) (state disc.new) a.0) }
    ensures fault { IfErr result (IsNoGrant (state disc.old).terms bytes
        (map pair_of (cells_in segs.old.items))) }
    ensures may { IsErrOf result RegionFault.OutOfMemory
        → ask (state disc.old).terms bytes (map pair_of (cells_in segs.old.items)) false ≢ TooMany }
    ensures same { OnErr result (segs.new.items ≡ segs.old.items) }
    ensures disc { IfErr result (λ e. IsAsked (Err e) (state disc.old) (state disc.new) bytes) }
{
    if segs.len() >= 1023 {
        return Err(RegionFault::TooManySegments);
    }
    reserve(segs, 1)?;
    let table = table_of(alloc, (bytes - 32) / rounded_up(element, 32))?;
    match lend_next(segs, disc, alloc, bytes) {
        Ok(segment) => Ok(carve_new(segs, segment, table, element, size, tag)),
        Err(fault) => Err(fault),
    }
}
