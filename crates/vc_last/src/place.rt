ghost use Rattle.std.specs.Prelude.{◌≡◌, ◌+◌, ◌≤◌, Some, length, map, option_map};
ghost use Rattle.vc_base.specs.Prelude.{sized_block};
ghost use Rattle.vc_model.specs.Last.{last_place, newest, next_offset};
ghost use Rattle.vc_model.specs.Layout.{footprint};
ghost use Rattle.vc_model.specs.Resize.{is_usable};
ghost use Rattle.vc_seg.specs.Segment.{pair_of};
ghost use Rattle.vc_last.specs.Chain.{IsLast};
ghost use Rattle.vc_last.specs.Head.{HasHeadAt, has_room};
ghost use Rattle.vc_last.specs.Place.{IsNewest};
ghost use Rattle.vc_last.specs.Read.{layout_by};

use crate::head::size_at;
use crate::range::place_of_number;
use vc_base::Addr;
use vc_seg::{Segment, span_of};

// Where the next block begins in the newest segment, which has that number: behind the latest block where that is
// there, since no other one ends behind it, and else at offset 32, since no block is there.
fn next_offset(segs: &[Segment], latest: Addr, number: u32) -> u32
    requires kept { IsLast segs.now latest.0 }
    requires newest { IsNewest (layout_by segs.now latest.0) number }
    ensures value { result ≡ next_offset number (layout_by segs.now latest.0).blocks }
    ensures most { result ≤ 50331744 }
{
    if latest.is_none() {
        return 32;
    }
    if latest.seg() != number {
        return 32;
    }
    latest.off() + span_of(size_at(segs, latest))
}

// The place for a block behind those of the newest segment, as segment and offset.
pub(crate) fn place(segs: &[Segment], latest: Addr, size: u32) -> Option<(u32, u32)>
    requires kept { IsLast segs.now latest.0 }
    requires most { size ≤ 16777216 }
    ensures { result ≡ last_place (layout_by segs.now latest.0) size }
{
    let newest = segs.last()?;
    let number = newest.number();
    let off = next_offset(segs, latest, number);
    if off + span_of(size) <= newest.size() {
        Some((number, off))
    } else {
        None
    }
}

// Whether the block at an address can have a size where it is, if it is the latest.
pub(crate) fn can_end(segs: &[Segment], a: Addr, size: u32) -> bool
    requires block { HasHeadAt segs.now a.0 }
    requires most { size ≤ 16777216 }
    ensures { result ≡ has_room segs.now a.0 size }
{
    let place = place_of_number(segs, a.seg());
    a.off() + span_of(size) <= segs[place].size()
}
