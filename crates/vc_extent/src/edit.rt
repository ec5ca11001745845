ghost use Rattle.std.specs.Prelude.{◌≡◌, ℕ, ◌+◌, ◌%◌, ◌<◌, ◌≤◌, IfSome, IsSome, length, min, take};
ghost use Rattle.vc_base.specs.Prelude.{span};
ghost use Rattle.vc_extent.specs.Extent.{extents};
ghost use Rattle.vc_extent.specs.Change.{Changes, IsBusyAt, IsExtentAt, IsRoomFor, behind, extent_in, first_of, join, mark_busy, mark_free, set_size, shrink, split};
ghost use Rattle.vc_extent.specs.Tiles.{EndsWithin};
ghost use Rattle.vc_extent.specs.Stretch.{CanStretch, IsStretched};

use crate::lay::{lay_busy, lay_free, lay_rest, set_boundary};
use crate::read::{span_behind, span_in, tag_in};
use vc_seg::{Segment, span_of};

// Splits the free extent from a place on. The first gets that many bytes.
pub(crate) fn split_in(seg: &mut Segment, at: u32, bytes: u32)
    requires there { IsExtentAt seg.old.bytes at }
    requires larger { bytes < (extent_in (at + 16) (extents seg.old.bytes)).span }
    requires least { 32 ≤ bytes }
    requires multiple { bytes % 32 ≡ 0 }
    ensures { Changes (at + 16) (split bytes) seg.old seg.new }
{
    let whole = span_in(seg, at);
    lay_rest(seg, at, whole, bytes);
    lay_free(seg, at, bytes);
}

// Joins the free extent from a place on and the free one behind it.
pub(crate) fn join_in(seg: &mut Segment, at: u32)
    requires there { IsExtentAt seg.old.bytes at }
    requires some { IsSome (first_of (behind (at + 16) (extents seg.old.bytes))) }
    ensures { Changes (at + 16) join seg.old seg.new }
{
    let first = span_in(seg, at);
    let both = first + span_behind(seg, at, first);
    set_boundary(seg, at + both, both);
    lay_free(seg, at, both);
}

// Makes the free extent from a place on a busy one.
pub(crate) fn mark_busy_in(seg: &mut Segment, at: u32, size: u32, tag: u32)
    requires { IsRoomFor size seg.old.bytes at }
    ensures change { Changes (at + 16)
        (mark_busy size tag (extent_in (at + 16) (extents seg.new.bytes)).body) seg.old seg.new }
    ensures len { length (extent_in (at + 16) (extents seg.new.bytes)).body ≡ size }
{
    let bytes = span_in(seg, at);
    lay_busy(seg, at, bytes, size, tag);
}

// Makes the busy extent from a place on a free one.
pub(crate) fn mark_free_in(seg: &mut Segment, at: u32)
    requires there { IsExtentAt seg.old.bytes at }
    ensures { Changes (at + 16) mark_free seg.old seg.new }
{
    let bytes = span_in(seg, at);
    lay_free(seg, at, bytes);
}

// Gives the busy extent from a place on another size with the same span.
pub(crate) fn set_size_in(seg: &mut Segment, at: u32, size: u32)
    requires { IsRoomFor size seg.old.bytes at }
    ensures change { Changes (at + 16)
        (set_size size (extent_in (at + 16) (extents seg.new.bytes)).body) seg.old seg.new }
    ensures len { length (extent_in (at + 16) (extents seg.new.bytes)).body ≡ size }
    ensures kept { (k : ℕ) → k ≤ size → k ≤ (extent_in (at + 16) (extents seg.old.bytes)).size
        → take k (extent_in (at + 16) (extents seg.new.bytes)).body
        ≡ take k (extent_in (at + 16) (extents seg.old.bytes)).body }
{
    let bytes = span_in(seg, at);
    let tag = tag_in(seg, at);
    lay_busy(seg, at, bytes, size, tag);
}

// Moves the border behind the busy extent from a place on into the free one behind it, and answers how many bytes that
// one keeps.
pub(crate) fn stretch_in(seg: &mut Segment, at: u32, size: u32) -> u32
    requires { CanStretch seg.old.bytes at size }
    ensures stretched { IsStretched seg.old seg.new at size }
    ensures left { IfSome (first_of (behind (at + 16) (extents seg.old.bytes)))
        (λ e. result + span size ≡ (extent_in (at + 16) (extents seg.old.bytes)).span + e.span) }
    ensures within { EndsWithin seg.old.bytes (at + span size + result) }
{
    let first = span_in(seg, at);
    let whole = first + span_behind(seg, at, first);
    let tag = tag_in(seg, at);
    let bytes = span_of(size);
    if bytes == whole {
        set_boundary(seg, at + whole, whole);
        lay_busy(seg, at, whole, size, tag);
        return 0;
    }
    lay_rest(seg, at, whole, bytes);
    lay_busy(seg, at, bytes, size, tag);
    whole - bytes
}

// Leaves what a lesser size of the busy extent from a place on doesn't want to a free one behind it.
pub(crate) fn shrink_in(seg: &mut Segment, at: u32, size: u32)
    requires busy { IsBusyAt seg.old.bytes at }
    requires some { 1 ≤ size }
    requires below { span size < (extent_in (at + 16) (extents seg.old.bytes)).span }
    ensures change { Changes (at + 16) (shrink size) seg.old seg.new }
    ensures within { at + span size + 16 < length seg.old.bytes }
    ensures most { length seg.old.bytes ≤ 33554432 }
{
    let whole = span_in(seg, at);
    let tag = tag_in(seg, at);
    let bytes = span_of(size);
    lay_rest(seg, at, whole, bytes);
    lay_busy(seg, at, bytes, size, tag);
}
