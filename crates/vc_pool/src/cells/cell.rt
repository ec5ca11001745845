ghost use Rattle.std.specs.Prelude.{◌≡◌, ℕ, ◌-◌, ◌/◌, ◌<◌, ◌≤◌, length};
ghost use Rattle.std.specs.List.{HoldsAt};
ghost use Rattle.vc_base.specs.Prelude.{place_of, cell_for, cell_offset};
ghost use Rattle.vc_pool.specs.Cells.Cells.{HasCell, cells_of};
ghost use Rattle.vc_pool.specs.Cells.Freed.{cells_at};
ghost use Rattle.vc_pool.specs.Cells.Kept.{AreCellular};
ghost use Rattle.vc_pool.specs.Cells.Place.{IsCellAt, IsListed, cells_in};

use crate::cells::PoolSegment;
use vc_base::Addr;
use vc_seg::{find_number, rounded_up};

/// Where the cell of that index begins in its segment, in bytes. Cells are counted from 0.
#[inline(always)]
pub fn offset_of(cell: u32, index: u32) -> u32
    requires { cell_offset cell index ≤ 33554432 }
    ensures { result ≡ cell_offset cell index }
{
    32 + index * cell
}

// The index of the cell that begins at an offset in its segment.
#[inline(always)]
fn index_of(cell: u32, off: u32) -> u32
    requires some { 1 ≤ cell }
    requires first { 32 ≤ off }
    ensures { result ≡ (off - 32) / cell }
{
    (off - 32) / cell
}

// Where the segment of that number is among these. There is one.
#[inline(always)]
fn place_of_number(segs: &[PoolSegment], number: u32) -> usize
    requires there { 1 ≤ length (cells_at number (cells_in segs.now)).pairs }
    ensures within { result < length segs.now }
    ensures number { HoldsAt (λ s. s.seg.number ≡ number) segs.now result }
{
    match find_number(segs, number) {
        Some(place) => place,
        None => unreachable!(),
    }
}

/// Where the segment of an address is among these, and the index there of the cell that begins at the address.
pub fn find_cell(segs: &[PoolSegment], element: u32, a: Addr) -> (usize, u32)
    requires kept { AreCellular element (cells_in segs.now) }
    requires listed { IsListed (cell_for element) (cells_in segs.now) (place_of a.0) }
    ensures within { result.0 < length segs.now }
    ensures found { IsCellAt (cell_for element) (cells_in segs.now) (place_of a.0) result.0 result.1 }
    ensures cell { HoldsAt (λ s. HasCell (cell_for element) result.1 (cells_of s)) segs.now result.0 }
{
    let place = place_of_number(segs, a.seg());
    let index = index_of(rounded_up(element, 32), a.off());
    (place, index)
}
