ghost use Rattle.std.specs.Prelude.{◌≡◌, ℕ, ◌+◌, ◌*◌, ◌/◌, ◌%◌, ◌<◌, ◌≤◌, ◌↔◌, IsTrue};
ghost use Rattle.vc_model.specs.Addr.{address, place_of};

/// An address in a region: `number × 2^20 + offset / 32`, with the number of a segment, from 1 to 1,023, and an offset
/// in bytes, a multiple of 32 below 33,554,432. This project's own.
#[derive(Clone, Copy, Debug, PartialEq, Eq, PartialOrd, Ord, Hash)]
pub struct Addr(pub u32);

impl Addr {
    /// No address: 0, which no segment has, since their numbers are from 1 on.
    pub const NONE: Addr = Addr(0);

    /// Whether this is no address.
    pub fn is_none(self) -> bool
        ensures { IsTrue result ↔ (self.0 ≡ 0) }
    {
        self == Addr::NONE
    }

    /// The address of an offset in a segment.
    pub fn new(seg: u32, off: u32) -> Addr
        requires first { 1 ≤ seg }
        requires last { seg ≤ 1023 }
        requires below { off < 33554432 }
        requires multiple { off % 32 ≡ 0 }
        ensures value { result.0 ≡ address (seg, off) }
        ensures place { place_of result.0 ≡ (seg, off) }
    {
        Addr(seg * 1_048_576 + off / 32)
    }

    /// The number of the segment.
    pub fn seg(self) -> u32
        ensures { result ≡ self.0 / 1048576 }
    {
        self.0 / 1_048_576
    }

    /// The offset in the segment, in bytes.
    pub fn off(self) -> u32
        ensures { result ≡ self.0 % 1048576 * 32 }
    {
        self.0 % 1_048_576 * 32
    }
}
