ghost use Rattle.std.specs.Prelude.{◌≡◌, ◌↔◌, ◌+◌, ◌≤◌, Bool, IsTrue, length};
ghost use Rattle.vc_base.specs.Prelude.{IsSegmentSize};
ghost use Rattle.vc_image_check.specs.Segments.Sound.{CanFollow, IsSoundSegment};

use crate::bytes::word;
use vc_seg::span_of;

// Whether the head from a place on is one of an extent that can stand behind one of a span, which is free or not.
fn can_stand(bytes: &[u8], at: usize, before: u32, behind_free: bool) -> bool
    requires within { at + 16 ≤ length bytes.now }
    requires most { length bytes.now ≤ 33554432 }
    ensures { IsTrue result ↔ CanFollow bytes.now before at behind_free }
{
    let span = word(bytes, at);
    let size = word(bytes, at + 4);
    if word(bytes, at + 12) != before || span % 32 != 0 || span < 32 || size > 16_777_264 {
        return false;
    }
    if size == 0 {
        word(bytes, at + 8) == 0 && !behind_free
    } else {
        span == span_of(size)
    }
}

/// Whether the bytes of a segment are sound: extents tile all but the first and the last 16, each with a span of 32 bytes or
/// a multiple, which the one behind it tells again; a busy one has a size of 1 to 16,777,264 bytes, whose span it has; a free
/// one has tag 0; and no two free ones are neighbours. Whatever the bytes are, no more heads are read than lie one behind the
/// other. There are as many bytes as a segment can have. This project's own.
pub fn is_sound_segment(bytes: &[u8]) -> bool
    requires { IsSegmentSize (length bytes.now) }
    ensures { IsTrue result ↔ IsSoundSegment bytes.now }
{
    let stop = bytes.len() - 16;
    let mut at = 16;
    let mut before = 0;
    let mut free = false;
    while at < stop {
        if !can_stand(bytes, at, before, free) {
            return false;
        }
        before = word(bytes, at);
        if before as usize > stop - at {
            return false;
        }
        free = word(bytes, at + 4) == 0;
        at += before as usize;
    }
    true
}
