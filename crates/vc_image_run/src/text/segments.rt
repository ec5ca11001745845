ghost use Rattle.std.specs.Prelude.{◌≡◌, IfOk};
ghost use Rattle.vc_model.specs.Walk.{by_number};
ghost use Rattle.vc_best.specs.Parts.{segments_in};
ghost use Rattle.vc_script.specs.declared.reply.Reply.TheVariants.{SegmentList};

use std::alloc::Global;
use vc_base::OutOfMemory;
use vc_best::Best;
use vc_script::{Reply, SegmentItems};

// Lists the segments by number.
pub(crate) fn segments(alloc: Global, best: &Best) -> Result<Reply, OutOfMemory>
    ensures { IfOk result (λ reply. reply ≡ SegmentList (by_number (segments_in best.now))) }
{
    let mut items = Vec::new(alloc);
    let mut after = 0;
    while let Some(segment) = best.next_segment(after) {
        items.push(segment)?;
        after = segment.0;
    }
    Ok(Reply::SegmentList(SegmentItems::from_vec(items)))
}
