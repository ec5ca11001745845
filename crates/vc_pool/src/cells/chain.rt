ghost use Rattle.std.specs.Prelude.{◌≡◌, ℕ, ◌≤◌};
ghost use Rattle.vc_base.specs.Prelude.{place_of, cell_for, HasBlock};
ghost use Rattle.vc_pool.specs.Cells.Call.{IsPutBack, IsReused};
ghost use Rattle.vc_pool.specs.Cells.Blocks.{layout_by};
ghost use Rattle.vc_pool.specs.Cells.Kept.{FitsElement, IsPool};
ghost use Rattle.vc_pool.specs.Cells.Place.{cells_in};

use crate::cells::PoolSegment;
use crate::cells::cell::find_cell;
use vc_base::Addr;
use vc_seg::rounded_up;

/// Puts a block of zeros into the cell that was freed last, and answers its address. The cell that was freed before it is
/// then the last.
pub fn reuse(segs: &mut [PoolSegment], freed: &mut Addr, element: u32, size: u32, tag: u32) -> Addr
    requires kept { IsPool element (cells_in segs.old) freed.old.0 }
    requires freed { 1 ≤ freed.old.0 }
    requires size { FitsElement size element }
    ensures value { result.0 ≡ freed.old.0 }
    ensures reused { IsReused element tag size
        (cells_in segs.old) (cells_in segs.new) freed.old.0 freed.new.0 }
{
    let cell = rounded_up(element, 32);
    let a = *freed;
    let (place, index) = find_cell(segs, element, a);
    *freed = segs[place].link(cell, index);
    segs[place].lay(cell, index, size, tag);
    a
}

/// Frees the block at an address. Its cell is the one freed last, and names the one that was so before it.
pub fn put_back(segs: &mut [PoolSegment], freed: &mut Addr, element: u32, a: Addr)
    requires kept { IsPool element (cells_in segs.old) freed.old.0 }
    requires block { HasBlock (layout_by (cell_for element) (cells_in segs.old)).blocks a.0 }
    ensures last { freed.new.0 ≡ a.0 }
    ensures back { IsPutBack element a.0 (cells_in segs.old) (cells_in segs.new) freed.old.0 }
{
    let cell = rounded_up(element, 32);
    let (place, index) = find_cell(segs, element, a);
    segs[place].release(cell, index, *freed);
    *freed = a;
}
