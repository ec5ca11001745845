ghost use Rattle.std.specs.Prelude.{◌≡◌, ℕ, ◌+◌, ◌-◌, ◌<◌, ◌≤◌, length, replicate, take, drop};
ghost use Rattle.vc_base.specs.Prelude.{place_of, zeros, sized_block};
ghost use Rattle.vc_model.specs.Resize.{fitted_bytes};
ghost use Rattle.vc_seg.specs.Segment.{AreSegments};
ghost use Rattle.vc_seg.specs.Memory.{bytes_of_number};
ghost use Rattle.vc_seg.specs.Field.{field_at};
ghost use Rattle.vc_seg.specs.Frame.{StaysOutside};
ghost use Rattle.vc_last.specs.Head.{HasHeadAt, LiesThere, StaysBut, before_of, block_of, HeadStays};

use crate::range::{bytes_in, place_of_number};
use vc_base::Addr;
use vc_seg::Segment;

// The number in the four bytes from a place on of the segment of that number, the lowest first. There is one.
#[inline(always)]
fn field(segs: &[Segment], number: u32, at: u32) -> u32
    requires segments { AreSegments segs.now }
    requires within { at + 4 ≤ length (bytes_of_number number segs.now) }
    ensures { result ≡ field_at at (bytes_of_number number segs.now) }
{
    let bytes = bytes_in(segs, number, at, 4);
    u32::from_le_bytes([bytes[0], bytes[1], bytes[2], bytes[3]])
}

// The size of the block at an address, in bytes.
#[inline(always)]
pub(crate) fn size_at(segs: &[Segment], a: Addr) -> u32
    requires { HasHeadAt segs.now a.0 }
    ensures value { result ≡ (block_of segs.now a.0).size }
    ensures most { (block_of segs.now a.0).off + result + 16 ≤ 33554432 }
{
    field(segs, a.seg(), a.off() - 16)
}

// The tag of the block at an address.
#[inline(always)]
pub(crate) fn tag_at(segs: &[Segment], a: Addr) -> u32
    requires { HasHeadAt segs.now a.0 }
    ensures { result ≡ (block_of segs.now a.0).label }
{
    field(segs, a.seg(), a.off() - 12)
}

// The address of the block that was allocated before the one at an address, and is live. None where there is none.
#[inline(always)]
pub(crate) fn before_at(segs: &[Segment], a: Addr) -> Addr
    requires { HasHeadAt segs.now a.0 }
    ensures { result.0 ≡ before_of segs.now a.0 }
{
    Addr(field(segs, a.seg(), a.off() - 8))
}

// Writes a block of zeros at an offset of a segment, with its head.
fn lay_in(seg: &mut Segment, off: u32, size: u32, tag: u32, before: u32)
    requires first { 16 ≤ off }
    requires within { off + size ≤ length seg.old.bytes }
    ensures size { field_at (off - 16) seg.new.bytes ≡ size }
    ensures label { field_at (off - 12) seg.new.bytes ≡ tag }
    ensures before { field_at (off - 8) seg.new.bytes ≡ before }
    ensures zero { field_at (off - 4) seg.new.bytes ≡ 0 }
    ensures bytes { take size (drop off seg.new.bytes) ≡ replicate size 0 }
    ensures rest { StaysOutside (off - 16) (off + size) seg.old seg.new }
{
    let at = off - 16;
    seg.set_field(at, size);
    seg.set_field(at + 4, tag);
    seg.set_field(at + 8, before);
    seg.set_field(at + 12, 0);
    seg.fill(off, size, 0);
}

// Makes zero what a size from an offset on has behind the old one.
fn zero_behind(seg: &mut Segment, off: u32, old: u32, size: u32)
    requires most { length seg.old.bytes ≤ 33554432 }
    requires before { off + old ≤ length seg.old.bytes }
    requires within { off + size ≤ length seg.old.bytes }
    ensures bytes { take size (drop off seg.new.bytes)
        ≡ fitted_bytes size (take old (drop off seg.old.bytes)) }
    ensures rest { StaysOutside off (off + size) seg.old seg.new }
{
    if size > old {
        seg.fill(off + old, size - old, 0);
    }
}

// Gives the block at an offset of a segment another size. Its first bytes of both sizes stay, and the others are zero.
fn size_in(seg: &mut Segment, off: u32, old: u32, size: u32)
    requires most { length seg.old.bytes ≤ 33554432 }
    requires first { 16 ≤ off }
    requires before { off + old ≤ length seg.old.bytes }
    requires within { off + size ≤ length seg.old.bytes }
    ensures size { field_at (off - 16) seg.new.bytes ≡ size }
    ensures head { HeadStays off seg.old.bytes seg.new.bytes }
    ensures bytes { take size (drop off seg.new.bytes)
        ≡ fitted_bytes size (take old (drop off seg.old.bytes)) }
    ensures rest { StaysOutside (off - 16) (off + size) seg.old seg.new }
{
    seg.set_field(off - 16, size);
    zero_behind(seg, off, old, size);
}

// Writes a block of zeros at an offset of the segment of that number, behind a head that names the block before it.
pub(crate) fn lay(segs: &mut [Segment], number: u32, off: u32, size: u32, tag: u32, before: Addr)
    requires segments { AreSegments segs.old }
    requires first { 16 ≤ off }
    requires within { off + size ≤ length (bytes_of_number number segs.old) }
    ensures laid { LiesThere segs.new before.0 (zeros tag size (number, off)) }
    ensures rest { StaysBut number (off - 16) (off + size) segs.old segs.new }
{
    let place = place_of_number(segs, number);
    lay_in(&mut segs[place], off, size, tag, before.0);
}

// Gives the block at an address another size where it is. Its first bytes of both sizes stay, and the others are zero.
pub(crate) fn set_size(segs: &mut [Segment], a: Addr, size: u32)
    requires block { HasHeadAt segs.old a.0 }
    requires within { (block_of segs.old a.0).off + size
        ≤ length (bytes_of_number (place_of a.0).0 segs.old) }
    ensures laid { LiesThere segs.new (before_of segs.old a.0) (sized_block size (block_of segs.old a.0)) }
    ensures rest { StaysBut (place_of a.0).0 ((place_of a.0).1 - 16) ((place_of a.0).1 + size)
        segs.old segs.new }
{
    let old = size_at(segs, a);
    let place = place_of_number(segs, a.seg());
    size_in(&mut segs[place], a.off(), old, size);
}

// Makes the head of the block at an address name another one as allocated before it.
pub(crate) fn set_before(segs: &mut [Segment], a: Addr, before: Addr)
    requires { HasHeadAt segs.old a.0 }
    ensures value { before_of segs.new a.0 ≡ before.0 }
    ensures rest { StaysBut (place_of a.0).0 ((place_of a.0).1 - 8) ((place_of a.0).1 - 4)
        segs.old segs.new }
{
    let place = place_of_number(segs, a.seg());
    segs[place].set_field(a.off() - 8, before.0);
}
