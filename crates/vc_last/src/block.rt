ghost use Rattle.std.specs.Prelude.{◌≡◌, Some, length, take, drop, option_map};
ghost use Rattle.vc_base.specs.Prelude.{place_of, HasBlock, find_block, next_segment, segment_at};
ghost use Rattle.vc_seg.specs.OneBlock.{IsBlockAt, IsBlockWritten, IsInBlock, IsNextBlock};

use crate::head::{size_at, tag_at};
use crate::last::Last;
use crate::range::{bytes_in, put_in};
use crate::walk::{block_in, next_in};
use vc_base::Addr;
use vc_seg::{next_segment, segment_at};

/// The calls on one block, and the walks. They can't fail, and take no memory.
impl Last {
    ghost use Rattle.vc_last.specs.Parts.{blocks_in, layout_of, segments_in};

    /// The size in bytes of the block at that address, from 1 to 16,777,216.
    pub fn size(&self, a: Addr) -> u32
        requires { HasBlock (blocks_in self.now) a.0 }
        ensures { option_map (λ b. b.size) (find_block (place_of a.0) (blocks_in self.now))
            ≡ Some result }
    {
        size_at(&self.segs, a)
    }

    /// The tag of the block at that address.
    pub fn tag(&self, a: Addr) -> u32
        requires { HasBlock (blocks_in self.now) a.0 }
        ensures { option_map (λ b. b.label) (find_block (place_of a.0) (blocks_in self.now))
            ≡ Some result }
    {
        tag_at(&self.segs, a)
    }

    /// The bytes of a range of the block at that address. The range lies in the block.
    pub fn read(&self, a: Addr, off: u32, len: u32) -> &[u8]
        requires { IsInBlock (blocks_in self.now) a.0 off len }
        ensures { option_map (λ b. take len (drop off b.bytes))
            (find_block (place_of a.0) (blocks_in self.now)) ≡ Some result.now }
    {
        bytes_in(&self.segs, a.seg(), a.off() + off, len)
    }

    /// Puts bytes into the block at that address, from an offset on. They lie in the block.
    pub fn write(&mut self, a: Addr, off: u32, src: &[u8])
        requires { IsInBlock (blocks_in self.old) a.0 off (length src.now) }
        ensures written { IsBlockWritten a.0 off src.now (layout_of self.old) (layout_of self.new) }
        ensures disc { state self.new.disc ≡ state self.old.disc }
    {
        put_in(&mut self.segs, a.seg(), a.off() + off, src);
    }

    /// The block whose bytes hold the byte at an offset of a segment, and the offset in the block. None where no block
    /// does.
    pub fn block_at(&self, seg: u32, off: u32) -> Option<(Addr, u32)>
        ensures { IsBlockAt result (seg, off) (blocks_in self.now) }
    {
        block_in(&self.segs, self.latest, seg, off)
    }

    /// The size of the segment of that number, where it has a byte at that offset, else None.
    pub fn segment_at(&self, seg: u32, off: u32) -> Option<u32>
        ensures { result ≡ segment_at (seg, off) (segments_in self.now) }
    {
        segment_at(&self.segs, seg, off)
    }

    /// The segment with the least number above one, as number and size. A walk begins with 0, and ends with None.
    pub fn next_segment(&self, after: u32) -> Option<(u32, u32)>
        ensures { result ≡ next_segment after (segments_in self.now) }
    {
        next_segment(&self.segs, after)
    }

    /// The block with the least address above one, whatever the order of allocation. A walk begins with `Addr::NONE`, and
    /// ends with None.
    pub fn next_block(&self, after: Addr) -> Option<Addr>
        ensures { IsNextBlock result after.0 (blocks_in self.now) }
    {
        next_in(&self.segs, self.latest, after)
    }
}
