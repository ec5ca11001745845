ghost use Rattle.std.specs.Prelude.{◌≡◌, ◌+◌, ◌%◌, ◌<◌, ◌≤◌, IfSome, None, length, option_map};
ghost use Rattle.vc_extent.specs.Extent.{extents};
ghost use Rattle.vc_extent.specs.Change.{IsExtentAt, behind, extent_in, first_of, last_before};

use crate::read::span_in;
use vc_seg::Segment;

// The offset that names the extent behind the one from a place on, where there is one.
pub(crate) fn next_in(seg: &Segment, at: u32) -> Option<u32>
    requires there { IsExtentAt seg.now.bytes at }
    requires multiple { (at + 16) % 32 ≡ 0 }
    ensures value { option_map (λ e. e.off) (first_of (behind (at + 16) (extents seg.now.bytes)))
        ≡ result }
    ensures below { IfSome result (λ off. off < 33554432) }
    ensures multiple { IfSome result (λ off. off % 32 ≡ 0) }
    ensures named { IfSome result (λ off. 0 < (extent_in off (extents seg.now.bytes)).span) }
{
    let end = at + span_in(seg, at);
    if end + 16 < seg.size() {
        Some(end + 16)
    } else {
        None
    }
}

// The offset that names the extent before the one from a place on, where there is one.
pub(crate) fn previous_in(seg: &Segment, at: u32) -> Option<u32>
    requires there { IsExtentAt seg.now.bytes at }
    requires multiple { (at + 16) % 32 ≡ 0 }
    ensures value { option_map (λ e. e.off) (last_before None (at + 16) (extents seg.now.bytes))
        ≡ result }
    ensures below { IfSome result (λ off. off < 33554432) }
    ensures multiple { IfSome result (λ off. off % 32 ≡ 0) }
    ensures named { IfSome result (λ off. 0 < (extent_in off (extents seg.now.bytes)).span) }
{
    let before = seg.field(at + 12);
    if before == 0 {
        None
    } else {
        Some(at + 16 - before)
    }
}
