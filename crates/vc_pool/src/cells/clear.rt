ghost use Rattle.std.specs.Prelude.{◌≡◌, ℕ, map};
ghost use Rattle.vc_pool.specs.Cells.Cells.{uncarved_all};
ghost use Rattle.vc_pool.specs.Cells.Kept.{AreCellular};
ghost use Rattle.vc_pool.specs.Cells.Place.{cells_in};
ghost use Rattle.vc_pool.specs.Cells.Carve.{IsUncarved};

use crate::cells::PoolSegment;

// Takes every block out. No cell is carved then.
fn uncarve_each(segs: &mut [PoolSegment])
    ensures { cells_in segs.new ≡ map uncarved_all (cells_in segs.old) }
{
    for segment in segs.iter_mut() {
        segment.clear();
    }
}

/// Takes every block out. No cell is carved then, and none is free.
pub fn clear_all(segs: &mut [PoolSegment])
    ensures { (element : ℕ) → AreCellular element (cells_in segs.old)
        → IsUncarved element (cells_in segs.old) (cells_in segs.new) }
{
    uncarve_each(segs);
}
