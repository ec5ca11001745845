ghost use Rattle.std.specs.Prelude.{◌≡◌, ◌+◌, ◌/◌, ◌≤◌, ◌==◌, if◌then◌else◌};
ghost use Rattle.std.specs.List.{HoldsAt};
ghost use Rattle.vc_extent.specs.Change.{IsExtentAt};
ghost use Rattle.vc_extent.specs.Tiling.{IsPlace, IsThere};

use crate::extents::Extents;
use vc_base::Addr;

// Where walks begin once the extent behind one of that span is joined into it: at that one, where they began behind it.
#[inline(always)]
pub(crate) fn joined(near: Addr, a: Addr, bytes: u32) -> Addr
    requires number { a.0 / 1048576 ≤ 1023 }
    requires bytes { bytes ≤ 33554432 }
    ensures { result.0 ≡ (if near.0 == a.0 + bytes / 32 then a.0 else near.0) }
{
    if near.0 == a.0 + bytes / 32 {
        return a;
    }
    near
}

// Where walks begin once the extents of segment n are gone: nowhere, where they began in it.
pub(crate) fn outside(near: Addr, n: u32) -> Addr
    ensures { result.0 ≡ (if near.0 / 1048576 == n then 0 else near.0) }
{
    if near.seg() == n {
        return Addr::NONE;
    }
    near
}

impl Extents {
    // The place of segment n, which is there, and where the head of the extent lies in it at which a walk to the last
    // one begins: the first one's, where none is known.
    pub(crate) fn walk_from(&self, n: u32) -> (usize, u32)
        requires { IsThere n self.now.segs.items }
        ensures place { IsPlace n self.now.segs.items result.0 }
        ensures there { HoldsAt (λ s. IsExtentAt s.bytes result.1) self.now.segs.items result.0 }
        ensures first { 1 ≤ n }
        ensures last { n ≤ 1023 }
    {
        let place = self.place(n);
        if self.near.seg() == n {
            return self.find(self.near);
        }
        (place, 16)
    }
}
