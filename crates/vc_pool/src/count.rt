ghost use Rattle.std.specs.Prelude.{◌≡◌, ℕ};
ghost use Rattle.vc_pool.specs.Read.{pool_by};
ghost use Rattle.vc_pool.specs.Stat.{pool_stat};
ghost use Rattle.vc_pool.specs.Cells.Kept.{AreCellular};
ghost use Rattle.vc_pool.specs.Cells.Place.{cells_in};

use crate::cells::PoolSegment;
use crate::walks::{count_cells, tally_blocks};
use vc_seg::{Stat, rounded_up, tally_segments};

// The numbers of blocks, cells and segments, and their sizes in bytes.
pub(crate) fn stat_of(segs: &[PoolSegment], element: u32) -> Stat
    requires kept { AreCellular element (cells_in segs.now) }
    ensures { (freed : ℕ) → result ≡ pool_stat (pool_by segs.now element freed) }
{
    let blocks = tally_blocks(segs, element);
    let segments = tally_segments(segs);
    let cell = rounded_up(element, 32);
    let free = count_cells(segs).saturating_sub(blocks.count);
    Stat {
        busy: blocks.count,
        free,
        sbusy: blocks.bytes,
        sfree: free * u64::from(cell),
        mbusy: blocks.most,
        mfree: if free == 0 { 0 } else { u64::from(cell) },
        segs: segments.count as u32,
        extent: segments.bytes,
    }
}
