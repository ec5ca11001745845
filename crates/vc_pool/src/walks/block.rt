ghost use Rattle.vc_base.specs.Prelude.{cell_for};
ghost use Rattle.vc_seg.specs.OneBlock.{IsBlockAt};
ghost use Rattle.vc_pool.specs.Cells.Blocks.{layout_by};
ghost use Rattle.vc_pool.specs.Cells.Kept.{AreCellular};
ghost use Rattle.vc_pool.specs.Cells.Place.{cells_in};

use crate::cells::{PoolSegment, offset_of};
use vc_base::Addr;
use vc_seg::{find_number, rounded_up};

// The block whose bytes hold the byte at an offset of a segment, and the offset in it. None where no block does.
pub(crate) fn block_in(
    segs: &[PoolSegment],
    element: u32,
    seg: u32,
    off: u32,
) -> Option<(Addr, u32)>
    requires kept { AreCellular element (cells_in segs.now) }
    ensures { IsBlockAt result (seg, off)
        (layout_by (cell_for element) (cells_in segs.now)).blocks }
{
    let place = find_number(segs, seg)?;
    if off < 32 {
        return None;
    }
    let cell = rounded_up(element, 32);
    let index = (off - 32) / cell;
    let inner = (off - 32) % cell;
    if index as usize >= segs[place].cells.len() {
        return None;
    }
    if inner >= segs[place].pair(index).0 {
        return None;
    }
    Some((Addr::new(seg, offset_of(cell, index)), inner))
}
