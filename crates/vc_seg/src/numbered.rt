ghost use Rattle.std.specs.Prelude.{◌≡◌, ℕ};
ghost use Rattle.vc_seg.specs.Segment.{pair_of};

use crate::Segment;

/// One of a region's segments, with whatever its method keeps beside the memory.
pub trait Numbered {
    /// Its number in its region, and its size in bytes.
    ghost pair: { Self → ℕ × ℕ };

    /// Its number, from 1 to 1,023.
    fn number(&self) -> u32
        ensures { result ≡ (pair self.now).0 };

    /// Its size in bytes.
    fn size(&self) -> u32
        ensures { result ≡ (pair self.now).1 };

    /// Its memory alone.
    fn into_segment(self) -> Segment
        ensures { pair_of result ≡ pair self };
}

impl Numbered for Segment {
    ghost pair = { pair_of };

    fn number(&self) -> u32 {
        Segment::number(self)
    }

    fn size(&self) -> u32 {
        Segment::size(self)
    }

    fn into_segment(self) -> Segment {
        self
    }
}
