ghost use Rattle.std.specs.Prelude.{◌≡◌, ℕ, ◌≤◌, IfNone, IfSome, map, option_map};
ghost use Rattle.std.specs.List.{HoldsAt};
ghost use Rattle.vc_base.specs.Prelude.{place_of, cell_for, cell_offset, uncarved};
ghost use Rattle.vc_seg.specs.Segment.{IsRegionSegment};
ghost use Rattle.vc_pool.specs.Cells.Blocks.{carved_by, pair_of};
ghost use Rattle.vc_pool.specs.Cells.Cells.{HasCell, carved_with, cells_of};
ghost use Rattle.vc_pool.specs.Cells.Kept.{AreCellular, FitsElement, IsFront, IsPool, segment_of};
ghost use Rattle.vc_pool.specs.Cells.Place.{cells_in};
ghost use Rattle.vc_pool.specs.Cells.Carve.{IsCarvedAt};
ghost use Rattle.vc_pool.specs.Cells.Open.{IsFirstOpen};

use crate::cells::PoolSegment;
use crate::cells::cell::offset_of;
use crate::cells::open::find_open;
use vc_base::Addr;
use vc_seg::rounded_up;

// Puts a block of zeros into the lowest uncarved cell of a segment, and answers its address.
fn carve_in(segment: &mut PoolSegment, element: u32, size: u32, tag: u32) -> Addr
    requires legal { IsRegionSegment (segment_of (cells_of segment.old)) }
    requires cell { HasCell (cell_for element) segment.old.carved (cells_of segment.old) }
    requires some { 1 ≤ element }
    requires most { element ≤ 16777216 }
    ensures place { place_of result.0
        ≡ (segment.old.seg.number, cell_offset (cell_for element) segment.old.carved) }
    ensures carved { cells_of segment.new
        ≡ carved_with (cell_for element) size tag (cells_of segment.old) }
{
    let cell = rounded_up(element, 32);
    let index = segment.carved;
    let a = Addr::new(segment.seg.number(), offset_of(cell, index));
    segment.carve(cell, size, tag);
    a
}

/// Puts a block of zeros into the lowest uncarved cell of the segment at a place, the first that isn't full, and answers its
/// address. The size is from 1 byte to the element size, which is at most 16,777,216 bytes.
pub fn carve_at(segs: &mut [PoolSegment], place: usize, element: u32, size: u32, tag: u32) -> Addr
    requires kept { AreCellular element (cells_in segs.old) }
    requires first { IsFirstOpen (cells_in segs.old) place }
    requires size { FitsElement size element }
    ensures place { HoldsAt (λ s. place_of result.0
        ≡ (s.seg.number, cell_offset (cell_for element) s.carved)) segs.old place }
    ensures carved { (last : ℕ) → IsPool element (cells_in segs.old) last
        → IsCarvedAt element tag size (cells_in segs.old) (cells_in segs.new) last result.0 }
{
    carve_in(&mut segs[place], element, size, tag)
}

/// Puts a block of zeros into the lowest uncarved cell of the first segment that has one, and answers its address. None where
/// every cell is carved. The size is from 1 byte to the element size, which is at most 16,777,216 bytes.
pub fn carve_lowest(segs: &mut [PoolSegment], element: u32, size: u32, tag: u32) -> Option<Addr>
    requires kept { AreCellular element (cells_in segs.old) }
    requires front { IsFront (cells_in segs.old) }
    requires size { FitsElement size element }
    ensures place { option_map (λ a. place_of a.0) result
        ≡ uncarved (cell_for element) (carved_by (cells_in segs.old))
        (map pair_of (cells_in segs.old)) }
    ensures carved { IfSome result (λ a. (last : ℕ) → IsPool element (cells_in segs.old) last
        → IsCarvedAt element tag size (cells_in segs.old) (cells_in segs.new) last a.0) }
    ensures same { IfNone result (segs.new ≡ segs.old) }
{
    let place = find_open(segs);
    if place == segs.len() {
        return None;
    }
    Some(carve_at(segs, place, element, size, tag))
}
