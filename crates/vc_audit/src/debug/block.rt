ghost use Rattle.std.specs.Prelude.{◌≡◌, ◌+◌, Some, IfSome, length, take, drop, option_map, pos, negsuc, ◌≤ℤ◌, ◌<ℤ◌};
ghost use Rattle.vc_base.specs.Prelude.{place_of, without_block, HasBlock, find_block};
ghost use Rattle.vc_seg.specs.OneBlock.{IsInBlock};
ghost use Rattle.vc_audit.specs.Debug.{debug_write, guarded_offset, with_poke};
ghost use Rattle.vc_audit.specs.DebugParts.{blocks_in, debug_of, disc_in};

use crate::debug::Debug;
use crate::debug::guard::guarded_addr;
use vc_base::Addr;
use vc_seg::{BoxedDisc, SegDisc};

// The place in a block with guards of an offset from the user's bytes on.
fn guarded_off(off: i64) -> u32
    requires first { negsuc 31 ≤ℤ off }
    requires last { off <ℤ pos 16777232 }
    ensures { result ≡ guarded_offset off }
{
    (off + 32) as u32
}

/// The calls on one block. They can't fail, and take no memory.
impl Debug {
    /// The size in bytes of the block at that address, from 1 to 16,777,216.
    pub fn size(&self, a: Addr) -> u32
        requires { HasBlock (blocks_in self.now) a.0 }
        ensures { option_map (λ b. b.size) (find_block (place_of a.0) (blocks_in self.now))
            ≡ Some result }
    {
        self.best.size(guarded_addr(a)) - 48
    }

    /// The tag of the block at that address.
    pub fn tag(&self, a: Addr) -> u32
        requires { HasBlock (blocks_in self.now) a.0 }
        ensures { option_map (λ b. b.label) (find_block (place_of a.0) (blocks_in self.now))
            ≡ Some result }
    {
        self.best.tag(guarded_addr(a))
    }

    /// The bytes of a range of the block at that address. The range lies in the block.
    pub fn read(&self, a: Addr, off: u32, len: u32) -> &[u8]
        requires { IsInBlock (blocks_in self.now) a.0 off len }
        ensures { option_map (λ b. take len (drop off b.bytes))
            (find_block (place_of a.0) (blocks_in self.now))
            ≡ Some result.now }
    {
        self.best.read(guarded_addr(a), 32 + off, len)
    }

    /// Puts bytes into the block at that address, from an offset on. They lie in the block.
    pub fn write(&mut self, a: Addr, off: u32, src: &[u8])
        requires { IsInBlock (blocks_in self.old) a.0 off (length src.now) }
        ensures debug { debug_of self.new
            ≡ debug_write (debug_of self.old) (place_of a.0) off src.now }
        ensures disc { disc_in state self.new ≡ disc_in state self.old }
        ensures others { without_block (place_of a.0) (blocks_in self.new)
            ≡ without_block (place_of a.0) (blocks_in self.old) }
    {
        self.best.write(guarded_addr(a), 32 + off, src);
        self.marks.get(a);
    }

    /// Puts one byte at an offset from the block's bytes on, which may lie in its guards: from -32 on, and below the
    /// size and 16.
    pub fn poke(&mut self, a: Addr, off: i64, byte: u8)
        requires block { HasBlock (blocks_in self.old) a.0 }
        requires first { negsuc 31 ≤ℤ off }
        requires last { IfSome (find_block (place_of a.0) (blocks_in self.old))
            (λ b. off <ℤ pos (b.size + 16)) }
        ensures debug { debug_of self.new
            ≡ with_poke (debug_of self.old) (place_of a.0) off byte }
        ensures disc { disc_in state self.new ≡ disc_in state self.old }
        ensures others { without_block (place_of a.0) (blocks_in self.new)
            ≡ without_block (place_of a.0) (blocks_in self.old) }
    {
        self.best.fill(guarded_addr(a), guarded_off(off), 1, byte);
        self.marks.get(a);
    }
}
