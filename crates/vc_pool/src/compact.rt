mod mark;
mod relink;

ghost use Rattle.std.specs.Prelude.{◌≡◌, ℕ, ◌<◌, All, false, filter, length};
ghost use Rattle.vc_base.specs.Prelude.{compact_count, HasOut, TookBack, cell_for};
ghost use Rattle.vc_pool.specs.Compacting.{IsCompacted};
ghost use Rattle.vc_pool.specs.Cells.Blocks.{layout_by};
ghost use Rattle.vc_pool.specs.Cells.Kept.{IsPool};
ghost use Rattle.vc_pool.specs.Cells.Place.{cells_in};

use crate::cells::PoolSegment;
use mark::mark;
use relink::relink;
use vc_base::Addr;
use vc_seg::{SegDisc, give_back};

// Gives back each segment without a block, in ascending order of number, and counts them. Their freed cells leave the
// chain, and the order of the others stays.
pub(crate) fn compact_in(
    segs: &mut Vec<PoolSegment>,
    freed: &mut Addr,
    element: u32,
    disc: &mut Box<dyn SegDisc>,
) -> u32
    requires kept { IsPool element (cells_in segs.old.items) freed.old.0 }
    requires out { HasOut (state disc.old)
        (layout_by (cell_for element) (cells_in segs.old.items)).segments }
    ensures compacted { IsCompacted element (cells_in segs.old.items) (cells_in segs.new.items)
        freed.old.0 freed.new.0 }
    ensures count { result ≡ compact_count
        (layout_by (cell_for element) (cells_in segs.old.items)) }
    ensures disc { TookBack (state disc.old) (state disc.new)
        (layout_by (cell_for element) (cells_in segs.old.items)).segments
        (layout_by (cell_for element) (cells_in segs.new.items)).segments }
{
    let mut marks = [false; 1024];
    mark(segs, &mut marks);
    relink(segs, freed, element, &marks);
    let before = segs.len();
    give_back(segs, &marks, disc);
    (before - segs.len()) as u32
}
