ghost use Rattle.std.specs.Prelude.{◌≡◌, ◌≤◌, map, take};
ghost use Rattle.vc_extent.specs.Change.{write};
ghost use Rattle.vc_extent.specs.Tiling.{IsBusy, IsExtentChanged, extent_of, tiling};

use crate::extents::Extents;
use vc_base::Addr;
use vc_seg::copy_between;

impl Extents {
    /// Copies the first bytes of one busy extent to the front of another, which may be the same. They lie within both
    /// sizes.
    pub fn copy(&mut self, from: Addr, to: Addr, len: u32)
        requires from { IsBusy (tiling self.old.segs.items) from.0 }
        requires to { IsBusy (tiling self.old.segs.items) to.0 }
        requires within { len ≤ (extent_of (tiling self.old.segs.items) from.0).size }
        requires fits { len ≤ (extent_of (tiling self.old.segs.items) to.0).size }
        ensures { IsExtentChanged self.old.segs.items self.new.segs.items to.0
            (write 0 (take len (extent_of (tiling self.old.segs.items) from.0).body)) }
    {
        let (source, at) = self.find(from);
        let (target, place) = self.find(to);
        copy_between(&mut self.segs, source, at + 16, target, place + 16, len);
    }
}
