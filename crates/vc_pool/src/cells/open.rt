ghost use Rattle.std.specs.Prelude.{◌≡◌, ◌≤◌, All, length};
ghost use Rattle.vc_pool.specs.Cells.Kept.{IsFront};
ghost use Rattle.vc_pool.specs.Cells.Place.{cells_in};
ghost use Rattle.vc_pool.specs.Cells.Open.{HasCells, IsOpenFrom};

use crate::cells::PoolSegment;

// Where the first segment with an uncarved cell is among these, or how many they are where each is full. It is found by
// bisection, since the full ones stand first.
pub(crate) fn find_open(segs: &[PoolSegment]) -> usize
    requires front { IsFront (cells_in segs.now) }
    requires cells { All HasCells (cells_in segs.now) }
    ensures within { result ≤ length segs.now }
    ensures front { IsOpenFrom (cells_in segs.now) result }
{
    segs.partition_point(|segment| segment.carved as usize == segment.cells.len())
}
