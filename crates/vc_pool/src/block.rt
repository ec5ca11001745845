ghost use Rattle.std.specs.Prelude.{◌≡◌, Some, length, take, drop, option_map};
ghost use Rattle.vc_base.specs.Prelude.{place_of, without_block, HasBlock, find_block, with_bytes_at};
ghost use Rattle.vc_seg.specs.OneBlock.{IsInBlock};

use crate::cells::{pair_at, read_at, write_at};
use crate::pool::Pool;
use vc_base::Addr;

/// The calls on one block. They can't fail, and take no memory.
impl Pool {
    ghost use Rattle.vc_pool.specs.Parts.{blocks_in, pool_of};

    /// The size in bytes of the block at that address, from 1 to 16,777,216.
    pub fn size(&self, a: Addr) -> u32
        requires { HasBlock (blocks_in self.now) a.0 }
        ensures { option_map (λ b. b.size) (find_block (place_of a.0) (blocks_in self.now))
            ≡ Some result }
    {
        pair_at(&self.segs, self.element, a).0
    }

    /// The tag of the block at that address.
    pub fn tag(&self, a: Addr) -> u32
        requires { HasBlock (blocks_in self.now) a.0 }
        ensures { option_map (λ b. b.label) (find_block (place_of a.0) (blocks_in self.now))
            ≡ Some result }
    {
        pair_at(&self.segs, self.element, a).1
    }

    /// The bytes of a range of the block at that address. The range lies in the block.
    pub fn read(&self, a: Addr, off: u32, len: u32) -> &[u8]
        requires { IsInBlock (blocks_in self.now) a.0 off len }
        ensures { option_map (λ b. take len (drop off b.bytes))
            (find_block (place_of a.0) (blocks_in self.now)) ≡ Some result.now }
    {
        read_at(&self.segs, self.element, a, off, len)
    }

    /// Puts bytes into the block at that address, from an offset on. They lie in the block.
    pub fn write(&mut self, a: Addr, off: u32, src: &[u8])
        requires { IsInBlock (blocks_in self.old) a.0 off (length src.now) }
        ensures pool { pool_of self.new ≡ record (pool_of self.old) {
          layout = with_bytes_at (pool_of self.old).layout (place_of a.0) off src.now;
        } }
        ensures disc { state self.new.disc ≡ state self.old.disc }
        ensures others { without_block (place_of a.0) (blocks_in self.new)
            ≡ without_block (place_of a.0) (blocks_in self.old) }
    {
        write_at(&mut self.segs, self.element, a, off, src);
    }
}
