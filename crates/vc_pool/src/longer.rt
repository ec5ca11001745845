ghost use Rattle.std.specs.Prelude.{◌≡◌, ◌≢◌, ◌+◌, ◌-◌, ◌/◌, ◌%◌, ◌≤◌, ◌⊎◌, Err, IfErr, IfOk, IsErrOf, IsSome, OnErr, OnOk, false, length, map, vec_capacity, vec_len};
ghost use Rattle.vc_base.specs.Prelude.{HasOut, IsSegmentSize, TooMany, ask, cell_for};
ghost use Rattle.vc_model.specs.Discipline.{CanExtend, Extended};
ghost use Rattle.vc_model.specs.Segments.{growing};
ghost use Rattle.vc_pool.specs.Ask.{IsGranted};
ghost use Rattle.vc_pool.specs.Cells.Blocks.{pair_of};
ghost use Rattle.vc_pool.specs.Cells.Carve.{AreCarved};
ghost use Rattle.vc_pool.specs.Cells.Cells.{cells_of, with_more_bytes};
ghost use Rattle.vc_pool.specs.Cells.Kept.{AreCellular, FitsElement};
ghost use Rattle.vc_pool.specs.Cells.Place.{cells_in, pair_in};
ghost use Rattle.vc_seg.specs.Lend.{IsAsked, IsNoGrant};

use crate::cells::{PoolSegment, carve_at};
use crate::room::reserve;
use std::alloc::Global;
use vc_base::Addr;
use vc_seg::{RegionFault, SegDisc, extend_segment, rounded_up};

// Makes a segment longer by so many bytes, with a pair (0, 0) for each cell that comes. The memory for the pairs comes first,
// so that nothing is asked for in vain.
fn extend_cells(
    segment: &mut PoolSegment,
    disc: &mut Box<dyn SegDisc>,
    alloc: Global,
    cell: u32,
    more: u32,
) -> Result<(), RegionFault>
    requires can { CanExtend (state disc.old) (pair_in segment.old) more }
    requires cell { 1 ≤ cell }
    requires fewer { length segment.old.cells.items ≤ (length segment.old.seg.bytes + more - 32) / cell }
    ensures longer { OnOk result
        (cells_of segment.new ≡ with_more_bytes cell more (cells_of segment.old)) }
    ensures extended { OnOk result
        (Extended (state disc.old) (state disc.new) (pair_in segment.old) more) }
    ensures only { IfErr result (λ e. (e ≡ RegionFault.NoSegment) ⊎ (e ≡ RegionFault.OutOfMemory)) }
    ensures disc { IfErr result (λ e. IsAsked (Err e) (state disc.old) (state disc.new) more) }
    ensures same { OnErr result (cells_of segment.new ≡ cells_of segment.old) }
{
    let count = segment.cells_to_come(cell, more);
    reserve(&mut segment.cells, count)?;
    extend_segment(disc, alloc, &mut segment.seg, more)?;
    segment.add_pairs(count);
    Ok(())
}

// A block of zeros in the lowest uncarved cell of the segment lent latest, which is made longer by so many bytes. There is one,
// and its discipline makes segments longer. `TooManySegments` comes exactly where it would have more than 33,554,432 bytes,
// before memory is wanted, and `NoSegment` where the discipline refuses.
pub(crate) fn put_in_longer(
    segs: &mut [PoolSegment],
    disc: &mut Box<dyn SegDisc>,
    alloc: Global,
    element: u32,
    size: u32,
    tag: u32,
    more: u32,
) -> Result<Addr, RegionFault>
    requires kept { AreCellular element (cells_in segs.old) }
    requires lent { HasOut (state disc.old) (map pair_of (cells_in segs.old)) }
    requires full { AreCarved element (cells_in segs.old) }
    requires grows { IsSome (growing (state disc.old).terms (map pair_of (cells_in segs.old))) }
    requires size { FitsElement size element }
    requires least { 32 + cell_for element ≤ more }
    requires bytes { IsSegmentSize more }
    requires multiple { more % (state disc.old).terms.round ≡ 0 }
    ensures granted { IfOk result (λ a. IsGranted element tag size more
        (cells_in segs.old) (cells_in segs.new) (state disc.old) (state disc.new) a.0) }
    ensures fault { IfErr result (IsNoGrant (state disc.old).terms more
        (map pair_of (cells_in segs.old))) }
    ensures may { IsErrOf result RegionFault.OutOfMemory
        → ask (state disc.old).terms more (map pair_of (cells_in segs.old)) false ≢ TooMany }
    ensures same { OnErr result (cells_in segs.new ≡ cells_in segs.old) }
    ensures disc { IfErr result (λ e. IsAsked (Err e) (state disc.old) (state disc.new) more) }
{
    let place = segs.len() - 1;
    if segs[place].seg.size() + more > 33_554_432 {
        return Err(RegionFault::TooManySegments);
    }
    match extend_cells(&mut segs[place], disc, alloc, rounded_up(element, 32), more) {
        Ok(()) => Ok(carve_at(segs, place, element, size, tag)),
        Err(fault) => Err(fault),
    }
}
