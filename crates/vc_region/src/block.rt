ghost use Rattle.std.specs.Prelude.{◌≡◌, Some, length, take, drop, option_map};
ghost use Rattle.vc_base.specs.Prelude.{place_of, without_block, HasBlock, find_block};
ghost use Rattle.vc_region.specs.Region.{region_write};
ghost use Rattle.vc_seg.specs.OneBlock.{IsInBlock};
ghost use Rattle.vc_region.specs.Parts.{blocks_in, disc_in, region_of};

use crate::region::Region;
use vc_base::Addr;
use vc_seg::{BoxedDisc, SegDisc};

/// The calls on one block. They can't fail, and take no memory.
impl Region {
    /// The size in bytes of the block at that address, from 1 to 16,777,264.
    pub fn size(&self, a: Addr) -> u32
        requires { HasBlock (blocks_in self.now) a.0 }
        ensures { option_map (λ b. b.size) (find_block (place_of a.0) (blocks_in self.now))
            ≡ Some result }
    {
        match self {
            Region::Best(best) => best.size(a),
            Region::Pool(pool) => pool.size(a),
            Region::Last(last) => last.size(a),
            Region::Debug(debug) => debug.size(a),
            Region::Profile(profile) => profile.size(a),
        }
    }

    /// The tag of the block at that address.
    pub fn tag(&self, a: Addr) -> u32
        requires { HasBlock (blocks_in self.now) a.0 }
        ensures { option_map (λ b. b.label) (find_block (place_of a.0) (blocks_in self.now))
            ≡ Some result }
    {
        match self {
            Region::Best(best) => best.tag(a),
            Region::Pool(pool) => pool.tag(a),
            Region::Last(last) => last.tag(a),
            Region::Debug(debug) => debug.tag(a),
            Region::Profile(profile) => profile.tag(a),
        }
    }

    /// The bytes of a range of the block at that address. The range lies in the block.
    pub fn read(&self, a: Addr, off: u32, len: u32) -> &[u8]
        requires { IsInBlock (blocks_in self.now) a.0 off len }
        ensures { option_map (λ b. take len (drop off b.bytes))
            (find_block (place_of a.0) (blocks_in self.now))
            ≡ Some result.now }
    {
        match self {
            Region::Best(best) => best.read(a, off, len),
            Region::Pool(pool) => pool.read(a, off, len),
            Region::Last(last) => last.read(a, off, len),
            Region::Debug(debug) => debug.read(a, off, len),
            Region::Profile(profile) => profile.read(a, off, len),
        }
    }

    /// Puts bytes into the block at that address, from an offset on. They lie in the block.
    pub fn write(&mut self, a: Addr, off: u32, src: &[u8])
        requires { IsInBlock (blocks_in self.old) a.0 off (length src.now) }
        ensures region { region_of self.new
            ≡ region_write (region_of self.old) (place_of a.0) off src.now }
        ensures disc { disc_in state self.new ≡ disc_in state self.old }
        ensures others { without_block (place_of a.0) (blocks_in self.new)
            ≡ without_block (place_of a.0) (blocks_in self.old) }
    {
        match self {
            Region::Best(best) => best.write(a, off, src),
            Region::Pool(pool) => pool.write(a, off, src),
            Region::Last(last) => last.write(a, off, src),
            Region::Debug(debug) => debug.write(a, off, src),
            Region::Profile(profile) => profile.write(a, off, src),
        }
    }
}
