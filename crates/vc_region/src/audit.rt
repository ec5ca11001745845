ghost use Rattle.std.specs.Prelude.{◌≡◌, ℕ, ℤ, pos, negsuc, ◌+◌, ◌≤ℤ◌, ◌<ℤ◌, ◌⊎◌, IfSome, OnErr, OnOk, option_map, true};
ghost use Rattle.vc_base.specs.Prelude.{place_of, address_of, without_block, HasBlock, find_block};
ghost use Rattle.vc_region.specs.Parts.{blocks_in, disc_in, region_of};
ghost use Rattle.vc_region.specs.Region.{is_debug, is_profile, next_damaged_in, region_poke, region_watch, row_in, watch_at};

use crate::region::Region;
use vc_base::{Addr, OutOfMemory};
use vc_seg::{BoxedDisc, ProfileRow, SegDisc};

/// The calls on a debug region, and that on a profile region.
impl Region {
    /// Puts one byte at an offset from the block's bytes on, which may lie in its guards: from -32 on, and below the
    /// size and 16. The region is of the method `VmDebug`.
    pub fn poke(&mut self, a: Addr, off: i64, byte: u8)
        requires method { is_debug (region_of self.old) ≡ true }
        requires block { HasBlock (blocks_in self.old) a.0 }
        requires first { negsuc 31 ≤ℤ off }
        requires last { IfSome (find_block (place_of a.0) (blocks_in self.old))
            (λ b. off <ℤ pos (b.size + 16)) }
        ensures region { region_of self.new
            ≡ region_poke (region_of self.old) (place_of a.0) off byte }
        ensures disc { disc_in state self.new ≡ disc_in state self.old }
        ensures others { without_block (place_of a.0) (blocks_in self.new)
            ≡ without_block (place_of a.0) (blocks_in self.old) }
    {
        if let Region::Debug(debug) = self {
            debug.poke(a, off, byte);
        }
    }

    /// The next block behind one in order of addresses with a damaged byte in its guards, and the least offset of such a
    /// byte from the block's bytes on. A walk begins with `Addr::NONE`, and ends with None. The region is of the method
    /// `VmDebug`.
    pub fn check(&self, after: Addr) -> Option<(Addr, i64)>
        requires method { is_debug (region_of self.now) ≡ true }
        requires after { (after.0 ≡ 0) ⊎ HasBlock (blocks_in self.now) after.0 }
        ensures value { option_map {U = ℕ × ℤ} (λ f. (f.0.0, f.1)) result
            ≡ option_map {U = ℕ × ℤ} (λ f. (address_of f.0, f.1))
            (next_damaged_in after.0 (region_of self.now)) }
        ensures live { IfSome result (λ f. HasBlock (blocks_in self.now) f.0.0) }
    {
        match self {
            Region::Debug(debug) => debug.check(after),
            _ => None,
        }
    }

    /// Watches the block at that address with a line, in place of the watch that it has. Want of memory changes nothing.
    /// The region is of the method `VmDebug`.
    pub fn watch(&mut self, a: Addr, line: u32) -> Result<(), OutOfMemory>
        requires method { is_debug (region_of self.old) ≡ true }
        requires block { HasBlock (blocks_in self.old) a.0 }
        ensures ok { OnOk result (region_of self.new
            ≡ region_watch (region_of self.old) (place_of a.0) line) }
        ensures err { OnErr result (region_of self.new ≡ region_of self.old) }
        ensures disc { disc_in state self.new ≡ disc_in state self.old }
    {
        match self {
            Region::Debug(debug) => debug.watch(a, line),
            _ => Ok(()),
        }
    }

    /// The line of the watch on the block at that address. The region is of the method `VmDebug`.
    pub fn watched(&self, a: Addr) -> Option<u32>
        requires method { is_debug (region_of self.now) ≡ true }
        requires block { HasBlock (blocks_in self.now) a.0 }
        ensures { result ≡ watch_at (region_of self.now) (place_of a.0) }
    {
        match self {
            Region::Debug(debug) => debug.watched(a),
            _ => None,
        }
    }

    /// The row of that index, from 0 on, of its sites in order of first use. None behind the last. The region is of the
    /// method `VmProfile`.
    pub fn row(&self, i: u32) -> Option<ProfileRow>
        requires { is_profile (region_of self.now) ≡ true }
        ensures { result ≡ row_in (region_of self.now) i }
    {
        match self {
            Region::Profile(profile) => profile.row(i),
            _ => None,
        }
    }
}
