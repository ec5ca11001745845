ghost use Rattle.std.specs.Prelude.{◌≡◌, ◌≢◌, ℕ, ◌<◌, ◌≤◌, All, IfNone, IfSome, drop, length};
ghost use Rattle.vc_pool.specs.Cells.Cells.{cells_of};
ghost use Rattle.vc_pool.specs.First.{AreEmpty, IsFirstBlock};

use crate::cells::PoolSegment;

// The first of a segment's cells from an index on that has a block, by its index. None is in a cell that wasn't carved.
pub(crate) fn first_block(segment: &PoolSegment, from: u32) -> Option<u32>
    requires few { segment.now.carved ≤ length segment.now.cells.items }
    requires fresh { All (λ c. c.0 ≡ 0) (drop segment.now.carved segment.now.cells.items) }
    ensures found { IfSome result (λ k. IsFirstBlock from k (cells_of segment.now)) }
    ensures none { IfNone result
        (AreEmpty from (length segment.now.cells.items) (cells_of segment.now)) }
{
    for index in from..segment.carved {
        if segment.pair(index).0 > 0 {
            return Some(index);
        }
    }
    None
}
