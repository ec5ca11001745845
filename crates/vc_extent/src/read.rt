#![tactic(auto, using(crate::proofs::Changed::room_steps))]

ghost use Rattle.std.specs.Prelude.{◌≡◌, ◌+◌, ◌%◌, ◌<◌, ◌≤◌, IfSome, IsSome, length};
ghost use Rattle.vc_extent.specs.Extent.{extents};
ghost use Rattle.vc_extent.specs.Change.{IsExtentAt, behind, extent_in, first_of, last_span};

use vc_seg::Segment;

// The span of the extent from a place on.
#[inline(always)]
pub(crate) fn span_in(seg: &Segment, at: u32) -> u32
    requires there { IsExtentAt seg.now.bytes at }
    ensures value { result ≡ (extent_in (at + 16) (extents seg.now.bytes)).span }
    ensures within { at + result + 16 ≤ length seg.now.bytes }
    ensures most { length seg.now.bytes ≤ 33554432 }
    ensures start { 16 ≤ at }
    ensures least { 32 ≤ result }
    ensures multiple { result % 32 ≡ 0 }
{
    seg.field(at)
}

// The span of the extent behind the one from a place on, whose span is given.
pub(crate) fn span_behind(seg: &Segment, at: u32, bytes: u32) -> u32
    requires there { IsExtentAt seg.now.bytes at }
    requires bytes { bytes ≡ (extent_in (at + 16) (extents seg.now.bytes)).span }
    requires some { IsSome (first_of (behind (at + 16) (extents seg.now.bytes))) }
    ensures value { IfSome (first_of (behind (at + 16) (extents seg.now.bytes)))
        (λ e. result ≡ e.span) }
    ensures within { at + bytes + result + 16 ≤ length seg.now.bytes }
    ensures least { 32 ≤ result }
    ensures multiple { result % 32 ≡ 0 }
{
    seg.field(at + bytes)
}

// The span of the last extent of a segment. It is found by a walk from a place on, where an extent lies, which reads
// one span after another.
pub(crate) fn last_in(seg: &Segment, from: u32) -> u32
    requires { IsExtentAt seg.now.bytes from }
    ensures { result ≡ last_span 0 (extents seg.now.bytes) }
{
    let end = seg.size() - 16;
    let mut span = span_in(seg, from);
    let mut at = from + span;
    while at < end {
        span = seg.field(at);
        at += span;
    }
    span
}

// The size of the extent from a place on, 0 where it is free.
#[inline(always)]
pub(crate) fn size_in(seg: &Segment, at: u32) -> u32
    requires there { IsExtentAt seg.now.bytes at }
    ensures value { result ≡ (extent_in (at + 16) (extents seg.now.bytes)).size }
    ensures within { at + 16 + result ≤ length seg.now.bytes }
    ensures most { length seg.now.bytes ≤ 33554432 }
{
    seg.field(at + 4)
}

// The tag of the extent from a place on, 0 where it is free.
#[inline(always)]
pub(crate) fn tag_in(seg: &Segment, at: u32) -> u32
    requires there { IsExtentAt seg.now.bytes at }
    ensures { result ≡ (extent_in (at + 16) (extents seg.now.bytes)).tag }
{
    seg.field(at + 8)
}
