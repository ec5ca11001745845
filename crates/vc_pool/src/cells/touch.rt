ghost use Rattle.std.specs.Prelude.{◌≡◌, ℕ, Some, drop, length, option_map, take};
ghost use Rattle.vc_base.specs.Prelude.{place_of, cell_for, resize_there, HasBlock, find_block, with_bytes_at};
ghost use Rattle.vc_seg.specs.OneBlock.{IsInBlock};
ghost use Rattle.vc_pool.specs.Cells.Blocks.{layout_by};
ghost use Rattle.vc_pool.specs.Cells.Call.{Becomes};
ghost use Rattle.vc_pool.specs.Cells.Kept.{AreCellular, FitsElement, IsPool};
ghost use Rattle.vc_pool.specs.Cells.Place.{cells_in};

use crate::cells::PoolSegment;
use crate::cells::cell::find_cell;
use vc_base::Addr;
use vc_seg::rounded_up;

/// The size in bytes and the tag of the block at an address.
pub fn pair_at(segs: &[PoolSegment], element: u32, a: Addr) -> (u32, u32)
    requires kept { AreCellular element (cells_in segs.now) }
    requires block { HasBlock (layout_by (cell_for element) (cells_in segs.now)).blocks a.0 }
    ensures { option_map {U = ℕ × ℕ} (λ b. (b.size, b.label)) (find_block (place_of a.0)
        (layout_by (cell_for element) (cells_in segs.now)).blocks) ≡ Some result }
{
    let (place, index) = find_cell(segs, element, a);
    segs[place].pair(index)
}

/// The bytes of a range of the block at an address. The range lies in the block.
pub fn read_at(segs: &[PoolSegment], element: u32, a: Addr, off: u32, len: u32) -> &[u8]
    requires kept { AreCellular element (cells_in segs.now) }
    requires part { IsInBlock (layout_by (cell_for element) (cells_in segs.now)).blocks a.0 off len }
    ensures { option_map (λ b. take len (drop off b.bytes)) (find_block (place_of a.0)
        (layout_by (cell_for element) (cells_in segs.now)).blocks) ≡ Some result.now }
{
    let (place, index) = find_cell(segs, element, a);
    segs[place].read(rounded_up(element, 32), index, off, len)
}

/// Puts bytes into the block at an address, from an offset in it on. They lie in the block.
pub fn write_at(segs: &mut [PoolSegment], element: u32, a: Addr, off: u32, src: &[u8])
    requires kept { AreCellular element (cells_in segs.old) }
    requires part { IsInBlock (layout_by (cell_for element) (cells_in segs.old)).blocks
        a.0 off (length src.now) }
    ensures { (freed : ℕ) → IsPool element (cells_in segs.old) freed
        → Becomes element (cells_in segs.old) (cells_in segs.new) freed
        (with_bytes_at (layout_by (cell_for element) (cells_in segs.old)) (place_of a.0) off src.now) }
{
    let (place, index) = find_cell(segs, element, a);
    segs[place].write(rounded_up(element, 32), index, off, src);
}

/// Gives the block at an address another size where it is, from 1 byte to the element size. What is added is zero.
pub fn resize_at(segs: &mut [PoolSegment], element: u32, a: Addr, size: u32)
    requires kept { AreCellular element (cells_in segs.old) }
    requires block { HasBlock (layout_by (cell_for element) (cells_in segs.old)).blocks a.0 }
    requires size { FitsElement size element }
    ensures { (freed : ℕ) → IsPool element (cells_in segs.old) freed
        → Becomes element (cells_in segs.old) (cells_in segs.new) freed
        (resize_there (layout_by (cell_for element) (cells_in segs.old)) (place_of a.0) size) }
{
    let (place, index) = find_cell(segs, element, a);
    segs[place].resize(rounded_up(element, 32), index, size);
}
