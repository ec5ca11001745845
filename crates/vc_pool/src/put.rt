ghost use Rattle.std.specs.Prelude.{◌≡◌, ◌≢◌, ◌≤◌, Err, IfErr, IfOk, IsErrOf, OnErr, false, map};
ghost use Rattle.vc_base.specs.Prelude.{HasOut, TooMany, ask};
ghost use Rattle.vc_model.specs.Pool.{pool_alloc, pool_need};
ghost use Rattle.vc_pool.specs.Ask.{IsGranted, LacksCell, cell_need};
ghost use Rattle.vc_pool.specs.Read.{pool_by};
ghost use Rattle.vc_pool.specs.Cells.Blocks.{pair_of};
ghost use Rattle.vc_pool.specs.Cells.Carve.{AreCarved};
ghost use Rattle.vc_pool.specs.Cells.Kept.{AreCellular, FitsElement, IsPool};
ghost use Rattle.vc_pool.specs.Cells.Place.{cells_in};
ghost use Rattle.vc_seg.specs.Answer.{Answers, Asks};
ghost use Rattle.vc_seg.specs.Lend.{IsAsked, IsNoGrant};
ghost use Rattle.vc_seg.specs.OneBlock.{IsSize};

use crate::cells::{PoolSegment, carve_lowest, reuse};
use crate::lend::put_in_new;
use crate::longer::put_in_longer;
use std::alloc::Global;
use vc_base::Addr;
use vc_seg::{RegionFault, SegDisc, growing_of, round_of, rounded_up};

// The element size when a block of this size is put: the first block sets it. 0 stands for none.
fn element_with(element: u32, size: u32) -> u32
    requires { 1 ≤ size }
    ensures set { 1 ≤ element → element ≡ result }
    ensures unset { element ≡ 0 → result ≡ size }
    ensures some { 1 ≤ result }
{
    if element == 0 { size } else { element }
}

// A block of zeros in the lowest uncarved cell of the segment that a discipline lends, under the least number that no segment
// has, or of the one lent latest, which it makes longer. `TooManySegments` comes exactly where there are 1,023 segments, or
// where that one would have more than 33,554,432 bytes, before memory is wanted, and `NoSegment` where the discipline refuses.
fn put_by_asking(
    segs: &mut Vec<PoolSegment>,
    disc: &mut Box<dyn SegDisc>,
    alloc: Global,
    element: u32,
    size: u32,
    tag: u32,
) -> Result<Addr, RegionFault>
    requires kept { AreCellular element (cells_in segs.old.items) }
    requires lent { HasOut (state disc.old) (map pair_of (cells_in segs.old.items)) }
    requires full { AreCarved element (cells_in segs.old.items) }
    requires size { FitsElement size element }
    ensures granted { IfOk result (λ a. IsGranted element tag size
        (cell_need (state disc.old).terms element)
        (cells_in segs.old.items) (cells_in segs.new.items) (state disc.old) (state disc.new) a.0) }
    ensures fault { IfErr result (IsNoGrant (state disc.old).terms
        (cell_need (state disc.old).terms element)
        (map pair_of (cells_in segs.old.items))) }
    ensures may { IsErrOf result RegionFault.OutOfMemory
        → ask (state disc.old).terms (cell_need (state disc.old).terms element)
        (map pair_of (cells_in segs.old.items)) false ≢ TooMany }
    ensures same { OnErr result (cells_in segs.new.items ≡ cells_in segs.old.items) }
    ensures disc { IfErr result (λ e. IsAsked (Err e) (state disc.old) (state disc.new)
        (cell_need (state disc.old).terms element)) }
{
    let bytes = rounded_up(32 + rounded_up(element, 32), round_of(disc));
    match growing_of(segs, disc) {
        Some(_) => put_in_longer(segs, disc, alloc, element, size, tag, bytes),
        None => put_in_new(segs, disc, alloc, element, size, tag, bytes),
    }
}

// A block of zeros in the cell freed last, else in the lowest uncarved cell, else in a segment that is asked for.
pub(crate) fn alloc_in(
    segs: &mut Vec<PoolSegment>,
    element: &mut u32,
    freed: &mut Addr,
    disc: &mut Box<dyn SegDisc>,
    alloc: Global,
    size: u32,
    tag: u32,
) -> Result<Addr, RegionFault>
    requires kept { IsPool element.old (cells_in segs.old.items) freed.old.0 }
    requires lent { HasOut (state disc.old) (map pair_of (cells_in segs.old.items)) }
    requires size { IsSize size }
    ensures kept { IsPool element.new (cells_in segs.new.items) freed.new.0 }
    ensures answer { Answers (pool_alloc (state disc.old).terms
        (pool_by segs.old.items element.old freed.old.0) tag size) result
        (pool_by segs.old.items element.old freed.old.0)
        (pool_by segs.new.items element.new freed.new.0) }
    ensures disc { Asks result (state disc.old) (state disc.new)
        (pool_by segs.old.items element.old freed.old.0).layout.segments
        (pool_by segs.new.items element.new freed.new.0).layout.segments
        (pool_need (state disc.old).terms (pool_by segs.old.items element.old freed.old.0) size) }
    ensures no_memory { IsErrOf result RegionFault.OutOfMemory
        → LacksCell (state disc.old).terms (pool_by segs.old.items element.old freed.old.0) size }
{
    let set = element_with(*element, size);
    if size > set {
        return Err(RegionFault::PoolSize);
    }
    if freed.0 != 0 {
        return Ok(reuse(segs, freed, set, size, tag));
    }
    match carve_lowest(segs, set, size, tag) {
        Some(a) => {
            *element = set;
            Ok(a)
        }
        None => match put_by_asking(segs, disc, alloc, set, size, tag) {
            Ok(a) => {
                *element = set;
                Ok(a)
            }
            Err(fault) => Err(fault),
        },
    }
}
