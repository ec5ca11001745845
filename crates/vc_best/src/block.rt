ghost use Rattle.std.specs.Prelude.{◌≡◌, Some, length, take, drop, option_map, replicate};
ghost use Rattle.vc_base.specs.Prelude.{place_of, HasBlock, find_block};
ghost use Rattle.vc_seg.specs.OneBlock.{IsBlockWritten, IsInBlock};

use crate::best::Best;
use vc_base::Addr;

/// The calls on one block. They can't fail, and take no memory.
impl Best {
    ghost use Rattle.vc_best.specs.Parts.{blocks_in, layout_of, size_in};

    /// The size in bytes of the block at that address, from 1 to 16,777,264.
    pub fn size(&self, a: Addr) -> u32
        requires { HasBlock (blocks_in self.now) a.0 }
        ensures { size_in self.now a.0 ≡ Some result }
    {
        self.extents.size_at(a)
    }

    /// The tag of the block at that address.
    pub fn tag(&self, a: Addr) -> u32
        requires { HasBlock (blocks_in self.now) a.0 }
        ensures { option_map (λ b. b.label) (find_block (place_of a.0) (blocks_in self.now))
            ≡ Some result }
    {
        self.extents.tag_at(a)
    }

    /// The bytes of a range of the block at that address. The range lies in the block.
    pub fn read(&self, a: Addr, off: u32, len: u32) -> &[u8]
        requires { IsInBlock (blocks_in self.now) a.0 off len }
        ensures { option_map (λ b. take len (drop off b.bytes))
            (find_block (place_of a.0) (blocks_in self.now)) ≡ Some result.now }
    {
        let body = self.extents.body(a);
        &body[off as usize..(off + len) as usize]
    }

    /// Puts bytes into the block at that address, from an offset on. They lie in the block.
    pub fn write(&mut self, a: Addr, off: u32, src: &[u8])
        requires { IsInBlock (blocks_in self.old) a.0 off (length src.now) }
        ensures written { IsBlockWritten a.0 off src.now (layout_of self.old) (layout_of self.new) }
        ensures disc { state self.new.disc ≡ state self.old.disc }
        ensures same_disc { self.new.disc ≡ self.old.disc }
    {
        self.extents.put(a, off, src);
    }

    /// Fills a range of the block at that address with one byte. The range lies in the block.
    pub fn fill(&mut self, a: Addr, off: u32, len: u32, byte: u8)
        requires { IsInBlock (blocks_in self.old) a.0 off len }
        ensures written { IsBlockWritten a.0 off (replicate len byte) (layout_of self.old) (layout_of self.new) }
        ensures disc { state self.new.disc ≡ state self.old.disc }
    {
        self.extents.fill(a, off, len, byte);
    }
}
