#![tactic(auto, using(crate::proofs::WalkStarts::changed_steps))]

ghost use Rattle.std.specs.Prelude.{◌≡◌, ◌+◌, ◌<◌, ◌≤◌, length, map, replicate, take};
ghost use Rattle.vc_extent.specs.Change.{link_in, set_link, write};
ghost use Rattle.vc_extent.specs.Tiling.{IsBusy, IsFree, IsExtentChanged, extent_of, tiling};

use crate::body::{body_in, fill_in, link_at, put_in, set_link_at};
use crate::extents::Extents;
use vc_base::Addr;

impl Extents {
    /// Link k of a free extent, from 0 to 2.
    #[inline(always)]
    pub fn link(&self, a: Addr, k: u32) -> Addr
        requires free { IsFree (tiling self.now.segs.items) a.0 }
        requires k { k < 3 }
        ensures { result.0 ≡ link_in k (extent_of (tiling self.now.segs.items) a.0).links }
    {
        let (place, at) = self.find(a);
        Addr(link_at(&self.segs[place], at, k))
    }

    /// Sets link k of a free extent, from 0 to 2.
    #[inline(always)]
    pub fn set_link(&mut self, a: Addr, k: u32, v: Addr)
        requires free { IsFree (tiling self.old.segs.items) a.0 }
        requires k { k < 3 }
        ensures { IsExtentChanged self.old.segs.items self.new.segs.items a.0
            (set_link k v.0) }
    {
        let (place, at) = self.find(a);
        set_link_at(&mut self.segs[place], at, k, v.0);
    }

    /// The bytes of a busy extent, as many as its size.
    #[inline(always)]
    pub fn body(&self, a: Addr) -> &[u8]
        requires { IsBusy (tiling self.now.segs.items) a.0 }
        ensures bytes { result.now ≡ (extent_of (tiling self.now.segs.items) a.0).body }
        ensures len { length result.now ≡ (extent_of (tiling self.now.segs.items) a.0).size }
    {
        let (place, at) = self.find(a);
        body_in(&self.segs[place], at)
    }

    /// Puts bytes into a busy extent from an offset in it on. They end within its size.
    #[inline(always)]
    pub fn put(&mut self, a: Addr, off: u32, src: &[u8])
        requires busy { IsBusy (tiling self.old.segs.items) a.0 }
        requires within { off + length src.now ≤ (extent_of (tiling self.old.segs.items) a.0).size }
        ensures { IsExtentChanged self.old.segs.items self.new.segs.items a.0
            (write off src.now) }
    {
        let (place, at) = self.find(a);
        put_in(&mut self.segs[place], at, off, src);
    }

    /// Fills a range of a busy extent, from an offset in it on, with one byte. It ends within its size.
    pub fn fill(&mut self, a: Addr, off: u32, len: u32, byte: u8)
        requires busy { IsBusy (tiling self.old.segs.items) a.0 }
        requires within { off + len ≤ (extent_of (tiling self.old.segs.items) a.0).size }
        ensures { IsExtentChanged self.old.segs.items self.new.segs.items a.0
            (write off (replicate len byte)) }
    {
        let (place, at) = self.find(a);
        fill_in(&mut self.segs[place], at, off, len, byte);
    }
}
