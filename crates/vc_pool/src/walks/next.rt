ghost use Rattle.std.specs.Prelude.{◌≡◌, ℕ, ◌<◌, ◌≤◌, IfNone, IfSome, length};
ghost use Rattle.vc_base.specs.Prelude.{cell_for, cell_offset, HasBlock};
ghost use Rattle.vc_seg.specs.OneBlock.{IsNextBlock};
ghost use Rattle.vc_pool.specs.Cells.Blocks.{layout_by};
ghost use Rattle.vc_pool.specs.Cells.Freed.{cells_at};
ghost use Rattle.vc_pool.specs.Cells.Kept.{AreCellular};
ghost use Rattle.vc_pool.specs.Cells.Place.{cells_in};
ghost use Rattle.vc_pool.specs.First.{AreEmpty, IsBare, IsFirstAbove, IsFirstIn};

use crate::cells::{PoolSegment, offset_of};
use crate::walks::first::first_block;
use vc_base::Addr;
use vc_seg::{find_number, next_segment, rounded_up};

// The index of the first cell that begins behind an offset in its segment.
fn index_behind(cell: u32, off: u32) -> u32
    requires { 1 ≤ cell }
    ensures before { (k : ℕ) → k < result → cell_offset cell k ≤ off }
    ensures behind { (k : ℕ) → result ≤ k → off < cell_offset cell k }
{
    if off < 32 { 0 } else { (off - 32) / cell + 1 }
}

// The first block of the segment of that number, of those in the cells from an index on.
fn first_in(segs: &[PoolSegment], element: u32, number: u32, from: u32) -> Option<Addr>
    requires kept { AreCellular element (cells_in segs.now) }
    ensures found { IfSome result
        (λ a. IsFirstIn (cell_for element) (cells_in segs.now) number from a.0) }
    ensures live { IfSome result
        (λ a. HasBlock (layout_by (cell_for element) (cells_in segs.now)).blocks a.0) }
    ensures none { IfNone result
        (AreEmpty from (length (cells_at number (cells_in segs.now)).pairs)
        (cells_at number (cells_in segs.now))) }
{
    let place = find_number(segs, number)?;
    let index = first_block(&segs[place], from)?;
    let cell = rounded_up(element, 32);
    Some(Addr::new(number, offset_of(cell, index)))
}

// The first block of the segments with a number above one.
fn first_above(segs: &[PoolSegment], element: u32, number: u32) -> Option<Addr>
    requires kept { AreCellular element (cells_in segs.now) }
    ensures found { IfSome result
        (λ a. IsFirstAbove (cell_for element) (cells_in segs.now) number a.0) }
    ensures live { IfSome result
        (λ a. HasBlock (layout_by (cell_for element) (cells_in segs.now)).blocks a.0) }
    ensures none { IfNone result ((m : ℕ) → number < m → IsBare m (cells_in segs.now)) }
{
    let mut after = number;
    while let Some((next, _)) = next_segment(segs, after) {
        if let Some(a) = first_in(segs, element, next, 0) {
            return Some(a);
        }
        after = next;
    }
    None
}

// The block with the least address above one. None where there is none.
pub(crate) fn next_in(segs: &[PoolSegment], element: u32, after: Addr) -> Option<Addr>
    requires kept { AreCellular element (cells_in segs.now) }
    ensures { IsNextBlock result after.0 (layout_by (cell_for element) (cells_in segs.now)).blocks }
{
    if element == 0 {
        return None;
    }
    let number = after.seg();
    let from = index_behind(rounded_up(element, 32), after.off());
    match first_in(segs, element, number, from) {
        Some(a) => Some(a),
        None => first_above(segs, element, number),
    }
}
