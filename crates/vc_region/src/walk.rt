ghost use Rattle.std.specs.Prelude.{◌≡◌, ◌⊎◌};
ghost use Rattle.vc_base.specs.Prelude.{HasBlock, next_segment, segment_at};
ghost use Rattle.vc_seg.specs.OneBlock.{IsBlockAt, IsNextBlock};
ghost use Rattle.vc_region.specs.Stat.{stat_of};
ghost use Rattle.vc_region.specs.Parts.{blocks_in, region_of, segments_in};

use crate::region::Region;
use vc_base::Addr;
use vc_seg::Stat;

/// What it holds, by place and in order. These calls can't fail, and take no memory.
impl Region {
    /// The block whose bytes hold the byte at an offset of a segment, and the offset in the block. None where no block
    /// does.
    pub fn block_at(&self, seg: u32, off: u32) -> Option<(Addr, u32)>
        ensures { IsBlockAt result (seg, off) (blocks_in self.now) }
    {
        match self {
            Region::Best(best) => best.block_at(seg, off),
            Region::Pool(pool) => pool.block_at(seg, off),
            Region::Last(last) => last.block_at(seg, off),
            Region::Debug(debug) => debug.block_at(seg, off),
            Region::Profile(profile) => profile.block_at(seg, off),
        }
    }

    /// The size of the segment of that number, where it has a byte at that offset, else None.
    pub fn segment_at(&self, seg: u32, off: u32) -> Option<u32>
        ensures { result ≡ segment_at (seg, off) (segments_in self.now) }
    {
        match self {
            Region::Best(best) => best.segment_at(seg, off),
            Region::Pool(pool) => pool.segment_at(seg, off),
            Region::Last(last) => last.segment_at(seg, off),
            Region::Debug(debug) => debug.segment_at(seg, off),
            Region::Profile(profile) => profile.segment_at(seg, off),
        }
    }

    /// The segment with the least number above one, as number and size. A walk begins with 0, and ends with None.
    pub fn next_segment(&self, after: u32) -> Option<(u32, u32)>
        ensures { result ≡ next_segment after (segments_in self.now) }
    {
        match self {
            Region::Best(best) => best.next_segment(after),
            Region::Pool(pool) => pool.next_segment(after),
            Region::Last(last) => last.next_segment(after),
            Region::Debug(debug) => debug.next_segment(after),
            Region::Profile(profile) => profile.next_segment(after),
        }
    }

    /// The block behind one in order of addresses. A walk begins with `Addr::NONE`, and ends with None.
    pub fn next_block(&self, after: Addr) -> Option<Addr>
        requires { (after.0 ≡ 0) ⊎ HasBlock (blocks_in self.now) after.0 }
        ensures { IsNextBlock result after.0 (blocks_in self.now) }
    {
        match self {
            Region::Best(best) => best.next_block(after),
            Region::Pool(pool) => pool.next_block(after),
            Region::Last(last) => last.next_block(after),
            Region::Debug(debug) => debug.next_block(after),
            Region::Profile(profile) => profile.next_block(after),
        }
    }

    /// Its numbers of blocks, gaps and segments, and their sizes in bytes.
    pub fn stat(&self) -> Stat
        ensures { result ≡ stat_of (region_of self.now) }
    {
        match self {
            Region::Best(best) => best.stat(),
            Region::Pool(pool) => pool.stat(),
            Region::Last(last) => last.stat(),
            Region::Debug(debug) => debug.stat(),
            Region::Profile(profile) => profile.stat(),
        }
    }
}
