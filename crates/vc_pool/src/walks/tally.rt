ghost use Rattle.std.specs.Prelude.{◌≡◌, ℕ, ◌≤◌, All, drop, length, map};
ghost use Rattle.vc_base.specs.Prelude.{cell_for};
ghost use Rattle.vc_seg.specs.Tally.{HasRoom, tallied_all, tally_of};
ghost use Rattle.vc_model.specs.Numbers.{block_bytes, block_count, greatest_block};
ghost use Rattle.vc_model.specs.Pool.{cell_count};
ghost use Rattle.vc_pool.specs.Cells.Blocks.{layout_by, pair_of};
ghost use Rattle.vc_pool.specs.Cells.Kept.{AreCellular, segment_of};
ghost use Rattle.vc_pool.specs.Cells.Place.{cells_in};
ghost use Rattle.vc_seg.specs.Segment.{AreSegments};
ghost use Rattle.vc_pool.specs.Sizes.{HaveCells, element_of, sizes_in};

use crate::cells::PoolSegment;
use vc_seg::{Tally, tally_segments};

// A tally with the sizes of the blocks in these cells.
fn with_cells(before: Tally, cells: &[(u32, u32)]) -> Tally
    requires { HasRoom before (sizes_in cells.now) }
    ensures { result ≡ tallied_all before (sizes_in cells.now) }
{
    let mut tally = before;
    for cell in cells {
        if cell.0 > 0 {
            tally = tally.with(cell.0);
        }
    }
    tally
}

// A tally with the sizes of the blocks in a segment's cells. None is in a cell that wasn't carved.
fn with_segment(before: Tally, segment: &PoolSegment) -> Tally
    requires room { HasRoom before (sizes_in segment.now.cells.items) }
    requires few { segment.now.carved ≤ length segment.now.cells.items }
    requires fresh { All (λ c. c.0 ≡ 0) (drop segment.now.carved segment.now.cells.items) }
    ensures { result ≡ tallied_all before (sizes_in segment.now.cells.items) }
{
    with_cells(before, &segment.cells[..segment.carved as usize])
}

// How many blocks there are, the sum of their sizes and the greatest, in bytes.
pub(crate) fn tally_blocks(segs: &[PoolSegment], element: u32) -> Tally
    requires kept { AreCellular element (cells_in segs.now) }
    ensures count { result.count ≡ block_count (layout_by (cell_for element) (cells_in segs.now)) }
    ensures bytes { result.bytes ≡ block_bytes (layout_by (cell_for element) (cells_in segs.now)) }
    ensures most { result.most ≡ greatest_block (layout_by (cell_for element) (cells_in segs.now)) }
{
    let _ = element;
    let mut tally = Tally::new();
    for segment in segs {
        tally = with_segment(tally, segment);
    }
    tally
}

// The segments behind the first ones, in order of lending: none where there are no more than these.
pub(crate) fn tally_behind(segs: &[PoolSegment], first: usize) -> Tally
    requires { AreSegments (map segment_of (cells_in segs.now)) }
    ensures value { result ≡ tally_of (map (λ s. s.1) (drop first (map pair_of (cells_in segs.now)))) }
    ensures few { result.count ≤ 1023 }
{
    tally_segments(&segs[first.min(segs.len())..])
}

// How many cells there are.
pub(crate) fn count_cells(segs: &[PoolSegment]) -> u64
    requires { HaveCells (cells_in segs.now) }
    ensures value { (element : ℕ) → AreCellular element (cells_in segs.now)
        → result ≡ cell_count (element_of element) (map pair_of (cells_in segs.now)) }
    ensures most { result ≤ 34359738368 }
{
    let mut count = 0u64;
    for segment in segs {
        count += segment.cells.len() as u64;
    }
    count
}
