ghost use Rattle.std.specs.Prelude.{◌≡◌, ◌%◌, ◌≤◌, None, Some, map, vec_capacity};
ghost use Rattle.vc_base.specs.Prelude.{HasOut, IsSegmentSize};
ghost use Rattle.vc_model.specs.Segments.{growing};
ghost use Rattle.vc_seg.specs.Segment.{AreSegments, pair_of};
ghost use Rattle.vc_last.specs.Granted.{IsObtained};

use std::alloc::Global;
use vc_seg::{RegionFault, SegDisc, Segment, extend_segment, growing_of, lend_next};

// Asks for a segment of that many bytes under the least number that no segment has, and puts it behind the others, where
// there is room for 1,023. None of them may be made longer instead.
fn add_segment(
    segs: &mut Vec<Segment>,
    disc: &mut Box<dyn SegDisc>,
    alloc: Global,
    bytes: u32,
) -> Result<(), RegionFault>
    requires new { growing (state disc.old).terms (map pair_of segs.old.items) ≡ None }
    requires segments { AreSegments segs.old.items }
    requires room { 1023 ≤ vec_capacity segs.old }
    requires bytes { IsSegmentSize bytes }
    requires multiple { bytes % (state disc.old).terms.round ≡ 0 }

    ensures obtained { IsObtained bytes result segs.old.items segs.new.items (state disc.old) (state disc.new) }
    ensures room { 1023 ≤ vec_capacity segs.new }
{
    let segment = lend_next(segs, disc, alloc, bytes)?;
    segs.push_reserved(segment);
    Ok(())
}

// Asks for that many bytes more of the segment lent latest, given as number and size, where the discipline makes it longer.
fn extend_newest(
    segs: &mut Vec<Segment>,
    disc: &mut Box<dyn SegDisc>,
    alloc: Global,
    newest: (u32, u32),
    bytes: u32,
) -> Result<(), RegionFault>
    requires newest { growing (state disc.old).terms (map pair_of segs.old.items) ≡ Some newest }
    requires segments { AreSegments segs.old.items }
    requires room { 1023 ≤ vec_capacity segs.old }
    requires lent { HasOut (state disc.old) (map pair_of segs.old.items) }
    requires bytes { IsSegmentSize bytes }
    requires multiple { bytes % (state disc.old).terms.round ≡ 0 }

    ensures obtained { IsObtained bytes result segs.old.items segs.new.items (state disc.old) (state disc.new) }
    ensures room { 1023 ≤ vec_capacity segs.new }
{
    if newest.1 + bytes > 33_554_432 {
        return Err(RegionFault::TooManySegments);
    }
    let last = segs.len() - 1;
    extend_segment(disc, alloc, &mut segs[last], bytes)
}

// Asks for that many bytes: more of the segment lent latest, where the discipline makes that longer, and else a new
// segment behind the others, where there is room for 1,023.
pub(crate) fn ask_for(
    segs: &mut Vec<Segment>,
    disc: &mut Box<dyn SegDisc>,
    alloc: Global,
    bytes: u32,
) -> Result<(), RegionFault>
    requires segments { AreSegments segs.old.items }
    requires room { 1023 ≤ vec_capacity segs.old }
    requires lent { HasOut (state disc.old) (map pair_of segs.old.items) }
    requires bytes { IsSegmentSize bytes }
    requires multiple { bytes % (state disc.old).terms.round ≡ 0 }

    ensures obtained { IsObtained bytes result segs.old.items segs.new.items (state disc.old) (state disc.new) }
    ensures room { 1023 ≤ vec_capacity segs.new }
{
    match growing_of(segs, disc) {
        Some(newest) => extend_newest(segs, disc, alloc, newest, bytes),
        None => add_segment(segs, disc, alloc, bytes),
    }
}
