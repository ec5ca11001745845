ghost use Rattle.std.specs.Prelude.{◌≡◌, ℕ, ◌≤◌, ℤ, pos, ◌-ℤ◌, ◌⊎◌, Some, IfSome, length, option_map, position};
ghost use Rattle.vc_base.specs.Prelude.{place_of, address_of, HasBlock, find_block};
ghost use Rattle.vc_best.specs.Parts.{layout_of};
ghost use Rattle.vc_audit.specs.Debug.{damage, damaged_place, is_damaged, next_damaged};
ghost use Rattle.vc_audit.specs.DebugParts.{blocks_in, debug_of};

use crate::debug::Debug;
use crate::debug::guard::{guarded_after, user_addr};
use vc_base::Addr;

// The place of the first byte that isn't what guards are made of.
fn first_place(bytes: &[u8]) -> Option<usize>
    ensures { result ≡ position is_damaged bytes.now }
{
    bytes.iter().position(|byte| *byte != 0xA5)
}

// The same of the bytes of a guard, of which there are at most 32.
fn first_damaged(bytes: &[u8]) -> Option<u32>
    requires { length bytes.now ≤ 32 }
    ensures { result ≡ position is_damaged bytes.now }
{
    match first_place(bytes) {
        Some(n) => Some(n as u32),
        None => None,
    }
}

// The offset from the user's bytes on of a place in a block with guards.
fn offset_of(place: u32) -> i64
    ensures { result ≡ pos place -ℤ pos 32 }
{
    i64::from(place) - 32
}

/// What a check finds.
impl Debug {
    // The place in the block with guards at an address of the first damaged byte of its guards.
    fn damaged_place(&self, at: Addr) -> Option<u32>
        requires { HasBlock (layout_of self.now.best).blocks at.0 }
        ensures { option_map damaged_place
            (find_block (place_of at.0) (layout_of self.now.best).blocks)
            ≡ Some result }
    {
        if let Some(n) = first_damaged(self.best.read(at, 0, 32)) {
            return Some(n);
        }
        let back = self.best.size(at) - 16;
        match first_damaged(self.best.read(at, back, 16)) {
            Some(n) => Some(back + n),
            None => None,
        }
    }

    // The least offset from the user's bytes on of a damaged byte in the guards of the block with guards at an address.
    fn damage_at(&self, at: Addr) -> Option<i64>
        requires { HasBlock (layout_of self.now.best).blocks at.0 }
        ensures { option_map damage (find_block (place_of at.0) (layout_of self.now.best).blocks)
            ≡ Some result }
    {
        match self.damaged_place(at) {
            Some(n) => Some(offset_of(n)),
            None => None,
        }
    }

    /// The next block behind one in order of addresses with a damaged byte in its guards, and the least offset of such a
    /// byte from the block's bytes on. A walk begins with `Addr::NONE`, and ends with None.
    pub fn check(&self, after: Addr) -> Option<(Addr, i64)>
        requires { (after.0 ≡ 0) ⊎ HasBlock (blocks_in self.now) after.0 }
        ensures value { option_map {U = ℕ × ℤ} (λ f. (f.0.0, f.1)) result
            ≡ option_map {U = ℕ × ℤ} (λ f. (address_of f.0, f.1))
            (next_damaged after.0 (debug_of self.now)) }
        ensures live { IfSome result (λ f. HasBlock (blocks_in self.now) f.0.0) }
    {
        let mut at = guarded_after(after);
        while let Some(next) = self.best.next_block(at) {
            if let Some(off) = self.damage_at(next) {
                return Some((user_addr(next), off));
            }
            at = next;
        }
        None
    }
}
