ghost use Rattle.std.specs.Prelude.{◌≡◌, ℕ, ◌<◌, All, false, length, slice_index_or};
ghost use Rattle.vc_base.specs.Prelude.{compact_count, compacted_layout, HasOut, TookBack};
ghost use Rattle.vc_model.specs.Compact.{is_occupied};
ghost use Rattle.vc_last.specs.Chain.{IsLast, IsReady, blocks_from};
ghost use Rattle.vc_last.specs.Read.{layout_by};

use crate::head::before_at;
use vc_base::Addr;
use vc_seg::{SegDisc, Segment, give_back};

// Marks the number of each segment that a block is in, in one walk from the latest back.
fn mark(segs: &[Segment], latest: Addr, marks: &mut [bool])
    requires kept { IsLast segs.now latest.0 }
    requires len { length marks.old ≡ 1024 }
    requires clear { All (λ m. m ≡ false) marks.old }
    ensures { (n : ℕ) → n < 1024 → slice_index_or marks.new n false
        ≡ is_occupied (blocks_from segs.now latest.0) n }
{
    let mut at = latest;
    while at.0 != 0 {
        marks[at.seg() as usize] = true;
        at = before_at(segs, at);
    }
}

// The discipline takes back each segment without a block, in ascending order of number, and they are counted.
pub(crate) fn compact_in(segs: &mut Vec<Segment>, latest: Addr, disc: &mut Box<dyn SegDisc>) -> u32
    requires kept { IsReady segs.old latest.0 }
    requires out { HasOut (state disc.old) (layout_by segs.old.items latest.0).segments }
    ensures kept { IsReady segs.new latest.0 }
    ensures layout { layout_by segs.new.items latest.0
        ≡ compacted_layout (layout_by segs.old.items latest.0) }
    ensures count { result ≡ compact_count (layout_by segs.old.items latest.0) }
    ensures disc { TookBack (state disc.old) (state disc.new)
        (layout_by segs.old.items latest.0).segments
        (layout_by segs.new.items latest.0).segments }
{
    let mut marks = [false; 1024];
    mark(segs, latest, &mut marks);
    let before = segs.len();
    give_back(segs, &marks, disc);
    (before - segs.len()) as u32
}
