ghost use Rattle.std.specs.Prelude.{◌≡◌, ◌⊎◌};
ghost use Rattle.vc_base.specs.Prelude.{HasBlock, next_segment, segment_at};
ghost use Rattle.vc_seg.specs.OneBlock.{IsBlockAt, IsNextBlock};
ghost use Rattle.vc_seg.specs.Stat.{layout_stat};
ghost use Rattle.vc_audit.specs.ProfileParts.{blocks_in, layout_in, segments_in};

use crate::profile::Profile;
use vc_base::Addr;
use vc_seg::Stat;

/// What it holds, by place and in order. These calls can't fail, and take no memory.
impl Profile {
    /// The block whose bytes hold the byte at an offset of a segment, and the offset in the block. None where no block
    /// does.
    pub fn block_at(&self, seg: u32, off: u32) -> Option<(Addr, u32)>
        ensures { IsBlockAt result (seg, off) (blocks_in self.now) }
    {
        self.best.block_at(seg, off)
    }

    /// The size of the segment of that number, where it has a byte at that offset, else None.
    pub fn segment_at(&self, seg: u32, off: u32) -> Option<u32>
        ensures { result ≡ segment_at (seg, off) (segments_in self.now) }
    {
        self.best.segment_at(seg, off)
    }

    /// The segment with the least number above one, as number and size. A walk begins with 0, and ends with None.
    pub fn next_segment(&self, after: u32) -> Option<(u32, u32)>
        ensures { result ≡ next_segment after (segments_in self.now) }
    {
        self.best.next_segment(after)
    }

    /// The block behind one in order of addresses. A walk begins with `Addr::NONE`, and ends with None.
    pub fn next_block(&self, after: Addr) -> Option<Addr>
        requires { (after.0 ≡ 0) ⊎ HasBlock (blocks_in self.now) after.0 }
        ensures { IsNextBlock result after.0 (blocks_in self.now) }
    {
        self.best.next_block(after)
    }

    /// Its numbers of blocks, gaps and segments, and their sizes in bytes.
    pub fn stat(&self) -> Stat
        ensures { result ≡ layout_stat (layout_in self.now) }
    {
        self.best.stat()
    }
}
