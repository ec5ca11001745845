ghost use Rattle.std.specs.Prelude.{◌≡◌, Some, length, take, drop, option_map};
ghost use Rattle.vc_base.specs.Prelude.{place_of, without_block, HasBlock, find_block};
ghost use Rattle.vc_seg.specs.OneBlock.{IsInBlock};
ghost use Rattle.vc_audit.specs.Profile.{profile_write};
ghost use Rattle.vc_audit.specs.ProfileParts.{blocks_in, disc_in, profile_of};

use crate::profile::Profile;
use vc_base::Addr;
use vc_seg::{BoxedDisc, SegDisc};

/// The calls on one block. They can't fail, and take no memory.
impl Profile {
    /// The size in bytes of the block at that address, from 1 to 16,777,216.
    pub fn size(&self, a: Addr) -> u32
        requires { HasBlock (blocks_in self.now) a.0 }
        ensures { option_map (λ b. b.size) (find_block (place_of a.0) (blocks_in self.now))
            ≡ Some result }
    {
        self.best.size(a)
    }

    /// The tag of the block at that address.
    pub fn tag(&self, a: Addr) -> u32
        requires { HasBlock (blocks_in self.now) a.0 }
        ensures { option_map (λ b. b.label) (find_block (place_of a.0) (blocks_in self.now))
            ≡ Some result }
    {
        self.best.tag(a)
    }

    /// The bytes of a range of the block at that address. The range lies in the block.
    pub fn read(&self, a: Addr, off: u32, len: u32) -> &[u8]
        requires { IsInBlock (blocks_in self.now) a.0 off len }
        ensures { option_map (λ b. take len (drop off b.bytes))
            (find_block (place_of a.0) (blocks_in self.now))
            ≡ Some result.now }
    {
        self.best.read(a, off, len)
    }

    /// Puts bytes into the block at that address, from an offset on. They lie in the block.
    pub fn write(&mut self, a: Addr, off: u32, src: &[u8])
        requires { IsInBlock (blocks_in self.old) a.0 off (length src.now) }
        ensures profile { profile_of self.new
            ≡ profile_write (profile_of self.old) (place_of a.0) off src.now }
        ensures disc { disc_in state self.new ≡ disc_in state self.old }
        ensures others { without_block (place_of a.0) (blocks_in self.new)
            ≡ without_block (place_of a.0) (blocks_in self.old) }
    {
        self.best.write(a, off, src);
    }
}
