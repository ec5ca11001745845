ghost use Rattle.std.specs.Prelude.{◌≡◌, ℕ, ◌+◌, ◌<◌, ◌≤◌, length, take, drop};
ghost use Rattle.vc_base.specs.Prelude.{with_bytes};
ghost use Rattle.vc_seg.specs.Segment.{AreSegments};
ghost use Rattle.vc_seg.specs.Memory.{bytes_of_number, write_segment};
ghost use Rattle.vc_last.specs.Head.{IsFirstAt, StaysBut};

use vc_seg::{Segment, copy_between, find_number};

// Where the segment of that number is among these. There is one.
#[inline(always)]
pub(crate) fn place_of_number(segs: &[Segment], number: u32) -> usize
    requires segments { AreSegments segs.now }
    requires there { 0 < length (bytes_of_number number segs.now) }
    ensures { IsFirstAt number segs.now result }
{
    match find_number(segs, number) {
        Some(place) => place,
        None => unreachable!(),
    }
}

// The bytes of a range of the segment of that number. There is one.
#[inline(always)]
pub(crate) fn bytes_in(segs: &[Segment], number: u32, at: u32, len: u32) -> &[u8]
    requires segments { AreSegments segs.now }
    requires there { 0 < length (bytes_of_number number segs.now) }
    requires within { at + len ≤ length (bytes_of_number number segs.now) }
    ensures { result.now ≡ take len (drop at (bytes_of_number number segs.now)) }
{
    let place = place_of_number(segs, number);
    segs[place].bytes(at, len)
}

// Puts bytes into the segment of that number, from an offset on. There is one.
#[inline(always)]
pub(crate) fn put_in(segs: &mut [Segment], number: u32, at: u32, src: &[u8])
    requires segments { AreSegments segs.old }
    requires there { 0 < length (bytes_of_number number segs.old) }
    requires within { at + length src.now ≤ length (bytes_of_number number segs.old) }
    ensures bytes { bytes_of_number number segs.new
        ≡ with_bytes at src.now (bytes_of_number number segs.old) }
    ensures rest { StaysBut number at (at + length src.now) segs.old segs.new }
{
    let place = place_of_number(segs, number);
    segs[place].put(at, src);
}

// Copies a range of the segment of one number into that of another, which may be the same. Both are there.
pub(crate) fn copy_in(segs: &mut [Segment], number: u32, from: u32, target: u32, to: u32, len: u32)
    requires segments { AreSegments segs.old }
    requires source { 0 < length (bytes_of_number number segs.old) }
    requires target { 0 < length (bytes_of_number target segs.old) }
    requires from { from + len ≤ length (bytes_of_number number segs.old) }
    requires to { to + len ≤ length (bytes_of_number target segs.old) }
    ensures { segs.new
        ≡ write_segment target to
        (take len (drop from (bytes_of_number number segs.old))) segs.old }
{
    let source = place_of_number(segs, number);
    let place = place_of_number(segs, target);
    copy_between(segs, source, from, place, to, len);
}
