ghost use Rattle.std.specs.Prelude.{◌≤◌, IfOk, IsErrOf, IsTrue, length};
ghost use Rattle.vc_base.specs.Prelude.{HasOut, IsAlign};
ghost use Rattle.vc_region.specs.Region.{AsksForMemory, aligns, region_align, region_alloc};
ghost use Rattle.vc_seg.specs.Answer.{Answers};
ghost use Rattle.vc_seg.specs.OneBlock.{IsBlockPut, IsSize};
ghost use Rattle.vc_region.specs.Parts.{AsksOfDisc, blocks_in, disc_in, region_of, segments_in};

use crate::region::{Region, Uncounted};
use vc_base::{Addr, Steps};
use vc_seg::{BoxedDisc, RegionFault, SegDisc};

impl Region {
    /// A block of zeros: 1 to 16,777,216 bytes at an offset that 32 divides, where the method puts it. Where there is no
    /// place for it, a segment is asked for. `OutOfMemory` comes only there, but in a profile region, which keeps lists, at
    /// any time. `PoolSize` comes exactly in a pool, where the size is above the element size. The site,
    /// of 1 to 32 bytes, is used in a profile region alone.
    pub fn alloc(&mut self, size: u32, tag: u32, site: &[u8]) -> Result<Addr, RegionFault>
        requires size { IsSize size }
        requires lent { HasOut (disc_in state self.old) (segments_in self.old) }
        requires named { 1 ≤ length site.now }
        requires short { length site.now ≤ 32 }

        ensures answer { Answers (region_alloc (disc_in state self.old).terms
            (region_of self.old) tag site.now size)
            result (region_of self.old) (region_of self.new) }
        ensures disc { AsksOfDisc state result self.old self.new size 32 }
        ensures no_memory { IsErrOf result RegionFault.OutOfMemory
            → AsksForMemory (disc_in state self.old).terms (region_of self.old) size 32 }

        // The block has an address of its own, and the others stay.
        ensures put { IfOk result
            (λ a. IsBlockPut tag size a.0 (blocks_in self.old) (blocks_in self.new)) }
    {
        match self {
            Region::Best(best) => {
                let mut steps = Steps::<Uncounted>::new(best.alloc);
                best.alloc(size, 32, tag, &mut steps)
            }
            Region::Pool(pool) => pool.alloc(size, tag),
            Region::Last(last) => last.alloc(size, tag),
            Region::Debug(debug) => debug.alloc(size, tag),
            Region::Profile(profile) => profile.alloc(size, 32, tag, site),
        }
    }

    /// A block as `alloc` gives it, at an offset that the alignment divides, a power of two from 32 to 4,096.
    /// `WrongMethod` comes exactly in a pool, in a last region and in a debug region, and no other fault comes there.
    pub fn align(
        &mut self,
        size: u32,
        align: u32,
        tag: u32,
        site: &[u8],
    ) -> Result<Addr, RegionFault>
        requires size { IsSize size }
        requires lent { HasOut (disc_in state self.old) (segments_in self.old) }
        requires align { IsAlign align }
        requires named { 1 ≤ length site.now }
        requires short { length site.now ≤ 32 }

        ensures answer { Answers (region_align (disc_in state self.old).terms
            (region_of self.old) tag site.now size align)
            result (region_of self.old) (region_of self.new) }
        ensures disc { AsksOfDisc state result self.old self.new size align }
        ensures no_memory { IsErrOf result RegionFault.OutOfMemory
            → IsTrue (aligns (region_of self.old)) }
        ensures no_place { IsErrOf result RegionFault.OutOfMemory
            → AsksForMemory (disc_in state self.old).terms (region_of self.old) size align }

        // The block has an address of its own, and the others stay.
        ensures put { IfOk result
            (λ a. IsBlockPut tag size a.0 (blocks_in self.old) (blocks_in self.new)) }
    {
        match self {
            Region::Best(best) => {
                let mut steps = Steps::<Uncounted>::new(best.alloc);
                best.alloc(size, align, tag, &mut steps)
            }
            Region::Profile(profile) => profile.alloc(size, align, tag, site),
            Region::Pool(_) | Region::Last(_) | Region::Debug(_) => Err(RegionFault::WrongMethod),
        }
    }
}
