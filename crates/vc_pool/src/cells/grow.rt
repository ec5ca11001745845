ghost use Rattle.std.specs.Prelude.{◌≡◌, ◌+◌, ◌-◌, ◌/◌, ◌<◌, ◌≤◌, ◌++◌, All, length, replicate, vec_capacity, vec_len};
ghost use Rattle.vc_base.specs.Prelude.{place_of, cell_for};
ghost use Rattle.vc_model.specs.Segments.{new_segment};
ghost use Rattle.vc_seg.specs.Segment.{IsRegionSegment};
ghost use Rattle.vc_pool.specs.Cells.Kept.{AreCellular, FitsElement};
ghost use Rattle.vc_pool.specs.Cells.Place.{IsOther, cells_in};
ghost use Rattle.vc_pool.specs.Cells.Carve.{AreCarved, CarvesIn};

use crate::cells::PoolSegment;
use crate::cells::carve::carve_at;
use vc_base::Addr;
use vc_seg::Segment;

// Puts so many pairs (0, 0) behind the others of a table, which has room for them.
pub(crate) fn push_pairs(table: &mut Vec<(u32, u32)>, count: usize)
    requires room { vec_len table.old + count ≤ vec_capacity table.old }
    ensures { table.new.items ≡ table.old.items ++ replicate count (0, 0) }
{
    for _ in 0..count {
        table.push_reserved((0, 0));
    }
}

/// Puts a segment behind the others, whose cells are all carved, with a table that has a pair (0, 0) for each of its cells,
/// and a block of zeros into its first cell. Answers the block's address. The size is from 1 byte to the element size, which
/// is at most 16,777,216 bytes, and which that block may set where there was no segment.
pub fn carve_new(
    segs: &mut Vec<PoolSegment>,
    segment: Segment,
    table: Vec<(u32, u32)>,
    element: u32,
    size: u32,
    tag: u32,
) -> Addr
    requires kept { AreCellular element (cells_in segs.old.items) }
    requires full { AreCarved element (cells_in segs.old.items) }
    requires few { length segs.old.items < 1023 }
    requires room { vec_len segs.old < vec_capacity segs.old }
    requires segment { IsRegionSegment segment }
    requires unused { All (IsOther segment.number) (cells_in segs.old.items) }
    requires cell { 32 + cell_for element ≤ length segment.bytes }
    requires table { table.items ≡ replicate ((length segment.bytes - 32) / cell_for element) (0, 0) }
    requires size { FitsElement size element }
    ensures place { place_of result.0 ≡ (segment.number, 32) }
    ensures carved { CarvesIn element tag size (cells_in segs.old.items) (cells_in segs.new.items)
        (new_segment segment.number (length segment.bytes)) result.0 }
    ensures room { vec_capacity segs.new ≡ vec_capacity segs.old }
{
    let place = segs.len();
    let grown = PoolSegment {
        seg: segment,
        carved: 0,
        cells: table,
    };
    segs.push_reserved(grown);
    carve_at(segs, place, element, size, tag)
}
