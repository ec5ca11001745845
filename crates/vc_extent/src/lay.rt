ghost use Rattle.std.specs.Prelude.{◌≡◌, ℕ, ◌+◌, ◌-◌, ◌<◌, ◌≤◌, ◌%◌, List, [], ◌∷◌, length, take, drop};
ghost use Rattle.vc_base.specs.Prelude.{IsSegmentSize, span};
ghost use Rattle.vc_seg.specs.Field.{field_at};
ghost use Rattle.vc_extent.specs.Extent.{Extent, busy_extent, extents, free_extent, no_links};
ghost use Rattle.vc_extent.specs.Change.{IsWidened, last_span};
ghost use Rattle.vc_seg.specs.Segment.{Bytes, grown_segment};
ghost use Rattle.vc_seg.specs.Frame.{StaysBelow, StaysOutside};
ghost use Rattle.vc_extent.specs.Tiles.{EndsWithin, IsTiled, Tiles};

use vc_seg::Segment;

// Tells the extent from a place on, where there is one, that the one before it has that span.
pub(crate) fn set_boundary(seg: &mut Segment, at: u32, before: u32)
    requires within { EndsWithin seg.old.bytes at }
    ensures tiles { (p : ℕ) (es : List Extent)
        → Tiles seg.old.bytes (length seg.old.bytes - 16) p at es
        → Tiles seg.new.bytes (length seg.new.bytes - 16) before at es }
    ensures rest { StaysBelow (at + 12) seg.old seg.new }
{
    if at + 16 < seg.size() {
        seg.set_field(at + 12, before);
    }
}

// Writes the span, the size and the tag of an extent from a place on.
fn set_head(seg: &mut Segment, at: u32, span: u32, size: u32, tag: u32)
    requires within { at + 12 ≤ length seg.old.bytes }
    requires most { length seg.old.bytes ≤ 33554432 }
    ensures span { field_at at seg.new.bytes ≡ span }
    ensures size { field_at (at + 4) seg.new.bytes ≡ size }
    ensures tag { field_at (at + 8) seg.new.bytes ≡ tag }
    ensures rest { StaysOutside at (at + 12) seg.old seg.new }
{
    seg.set_field(at, span);
    seg.set_field(at + 4, size);
    seg.set_field(at + 8, tag);
}

// Makes a busy extent of a span from a place on, before what tiles the segment from its end on.
pub(crate) fn lay_busy(seg: &mut Segment, at: u32, bytes: u32, size: u32, tag: u32)
    requires within { EndsWithin seg.old.bytes (at + bytes) }
    requires some { 1 ≤ size }
    requires span { bytes ≡ span size }
    ensures tiles { (es : List Extent)
        → Tiles seg.old.bytes (length seg.old.bytes - 16) bytes (at + bytes) es
        → Tiles seg.new.bytes (length seg.new.bytes - 16) (field_at (at + 12) seg.old.bytes) at
        (busy_extent (at + 16) bytes size tag (take size (drop (at + 16) seg.old.bytes)) ∷ es) }
    ensures rest { StaysBelow at seg.old seg.new }
{
    set_head(seg, at, bytes, size, tag);
}

// Makes a free extent of a span from a place on, before what tiles the segment from its end on. Its links are 0.
pub(crate) fn lay_free(seg: &mut Segment, at: u32, bytes: u32)
    requires within { EndsWithin seg.old.bytes (at + bytes) }
    requires least { 32 ≤ bytes }
    requires multiple { bytes % 32 ≡ 0 }
    ensures tiles { (es : List Extent)
        → Tiles seg.old.bytes (length seg.old.bytes - 16) bytes (at + bytes) es
        → Tiles seg.new.bytes (length seg.new.bytes - 16) (field_at (at + 12) seg.old.bytes) at
        (free_extent (at + 16) bytes no_links ∷ es) }
    ensures rest { StaysBelow at seg.old seg.new }
{
    set_head(seg, at, bytes, 0, 0);
    seg.set_field(at + 16, 0);
    seg.set_field(at + 20, 0);
    seg.set_field(at + 24, 0);
}

// Makes a free extent of what is left of a whole behind its first bytes, before what tiles the segment from the end of
// the whole on.
pub(crate) fn lay_rest(seg: &mut Segment, at: u32, whole: u32, bytes: u32)
    requires within { EndsWithin seg.old.bytes (at + whole) }
    requires less { bytes < whole }
    requires whole { whole % 32 ≡ 0 }
    requires multiple { bytes % 32 ≡ 0 }
    ensures tiles { (p : ℕ) (es : List Extent)
        → Tiles seg.old.bytes (length seg.old.bytes - 16) p (at + whole) es
        → Tiles seg.new.bytes (length seg.new.bytes - 16) bytes (at + bytes)
        (free_extent (at + 16 + bytes) (whole - bytes) no_links ∷ es) }
    ensures rest { StaysBelow (at + bytes) seg.old seg.new }
{
    let left = whole - bytes;
    set_boundary(seg, at + whole, left);
    lay_free(seg, at + bytes, left);
    set_boundary(seg, at + bytes, bytes);
}

// Of a segment that got so many bytes more, makes as many a free extent behind the others, of which the last has that
// span. It begins where they end, 16 bytes before those that were added.
pub(crate) fn lay_more(seg: &mut Segment, more: u32, before: u32)
    requires long { more + 64 ≤ length seg.old.bytes }
    requires least { 32 ≤ more }
    requires multiple { more % 32 ≡ 0 }
    ensures { (old : Bytes) → IsTiled old.bytes → before ≡ last_span 0 (extents old.bytes)
        → seg.old ≡ grown_segment more old → IsWidened more old seg.new }
{
    let end = seg.size() - more - 16;
    seg.set_field(end + 12, before);
    lay_free(seg, end, more);
}

// Makes a segment one free extent, whatever lies in it.
pub(crate) fn format(seg: &mut Segment)
    ensures number { seg.new.number ≡ seg.old.number }
    ensures len { length seg.new.bytes ≡ length seg.old.bytes }
    ensures size { IsSegmentSize (length seg.old.bytes) }
    ensures tiled { IsTiled seg.new.bytes }
    ensures extents { extents seg.new.bytes
        ≡ free_extent 32 (length seg.old.bytes - 32) no_links ∷ [] }
{
    let size = seg.size();
    seg.set_field(28, 0);
    lay_free(seg, 16, size - 32);
}
