ghost use Rattle.std.specs.Prelude.{◌≡◌, ℕ, ◌<◌, ◌≤◌, ◌==◌, ◌&&◌, ◌||◌, All, false, length, map, slice_index_or};
ghost use Rattle.vc_pool.specs.Cells.Cells.{cells_of};
ghost use Rattle.vc_pool.specs.Cells.Place.{cells_in};
ghost use Rattle.vc_pool.specs.Marks.{has_block, has_block_at};

use crate::cells::PoolSegment;

// Whether a block is in a cell of a segment.
fn has_block(segment: &PoolSegment) -> bool
    ensures { result ≡ has_block (cells_of segment.now) }
{
    for cell in &segment.cells {
        if cell.0 > 0 {
            return true;
        }
    }
    false
}

// Marks the number of a segment where a block is in it.
fn mark_one(segment: &PoolSegment, marks: &mut [bool])
    requires number { segment.now.seg.number < 1024 }
    requires len { length marks.old ≡ 1024 }
    ensures len { length marks.new ≡ 1024 }
    ensures marked { (n : ℕ) → slice_index_or marks.new n false
        ≡ (slice_index_or marks.old n false
        || ((segment.now.seg.number == n) && has_block (cells_of segment.now))) }
{
    if has_block(segment) {
        marks[segment.seg.number() as usize] = true;
    }
}

// Marks the number of each segment that a block is in.
pub(crate) fn mark(segs: &[PoolSegment], marks: &mut [bool])
    requires numbers { All (λ s. s.seg.number < 1024) segs.now }
    requires len { length marks.old ≡ 1024 }
    requires clear { All (λ m. m ≡ false) marks.old }
    ensures len { length marks.new ≡ 1024 }
    ensures marked { (n : ℕ) → slice_index_or marks.new n false ≡ has_block_at (cells_in segs.now) n }
{
    for segment in segs {
        mark_one(segment, marks);
    }
}
