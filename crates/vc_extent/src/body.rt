#![tactic(auto, using(crate::proofs::Changed::room_steps))]

ghost use Rattle.std.specs.Prelude.{◌≡◌, ◌+◌, ◌*◌, ◌<◌, ◌≤◌, length, replicate, take, drop};
ghost use Rattle.vc_extent.specs.Extent.{extents};
ghost use Rattle.vc_extent.specs.Change.{Changes, IsBusyAt, IsExtentAt, IsFreeAt, extent_in, link_in, set_link, write};

use crate::read::size_in;
use vc_seg::Segment;

// The bytes of the busy extent from a place on.
#[inline(always)]
pub(crate) fn body_in(seg: &Segment, at: u32) -> &[u8]
    requires there { IsExtentAt seg.now.bytes at }
    ensures bytes { result.now ≡ (extent_in (at + 16) (extents seg.now.bytes)).body }
    ensures len { length result.now ≡ (extent_in (at + 16) (extents seg.now.bytes)).size }
{
    let size = size_in(seg, at);
    seg.bytes(at + 16, size)
}

// Puts bytes into the busy extent from a place on, from an offset in it on.
#[inline(always)]
pub(crate) fn put_in(seg: &mut Segment, at: u32, off: u32, src: &[u8])
    requires busy { IsBusyAt seg.old.bytes at }
    requires within { off + length src.now ≤ (extent_in (at + 16) (extents seg.old.bytes)).size }
    ensures { Changes (at + 16) (write off src.now) seg.old seg.new }
{
    seg.put(at + 16 + off, src);
}

// Fills a range of the busy extent from a place on, from an offset in it on, with one byte.
pub(crate) fn fill_in(seg: &mut Segment, at: u32, off: u32, len: u32, byte: u8)
    requires busy { IsBusyAt seg.old.bytes at }
    requires within { off + len ≤ (extent_in (at + 16) (extents seg.old.bytes)).size }
    ensures { Changes (at + 16) (write off (replicate len byte)) seg.old seg.new }
{
    seg.fill(at + 16 + off, len, byte);
}

// Link k of the free extent from a place on, from 0 to 2.
#[inline(always)]
pub(crate) fn link_at(seg: &Segment, at: u32, k: u32) -> u32
    requires free { IsFreeAt seg.now.bytes at }
    requires k { k < 3 }
    ensures { result ≡ link_in k (extent_in (at + 16) (extents seg.now.bytes)).links }
{
    seg.field(at + 16 + 4 * k)
}

// Sets link k of the free extent from a place on, from 0 to 2.
#[inline(always)]
pub(crate) fn set_link_at(seg: &mut Segment, at: u32, k: u32, v: u32)
    requires free { IsFreeAt seg.old.bytes at }
    requires k { k < 3 }
    ensures { Changes (at + 16) (set_link k v) seg.old seg.new }
{
    seg.set_field(at + 16 + 4 * k, v);
}
