ghost use Rattle.std.specs.Prelude.{◌≡◌, ◌+◌, ◌-◌, ◌≤◌};
ghost use Rattle.vc_base.specs.Prelude.{place_of, without_block};
ghost use Rattle.vc_best.specs.Parts.{blocks_in, layout_of};
ghost use Rattle.vc_seg.specs.Boxed.{disc_in_box};
ghost use Rattle.vc_seg.specs.OneBlock.{IsInBlock};
ghost use Rattle.vc_audit.specs.Debug.{with_back_guard, with_guards, with_zeros};

use vc_base::Addr;
use vc_best::Best;
use vc_seg::{BoxedDisc, SegDisc};

// The byte that guards are made of.
const GUARD: u8 = 0xA5;

// The address of the block with guards around the user's bytes at an address.
pub(super) fn guarded_addr(a: Addr) -> Addr
    requires { 1 ≤ a.0 }
    ensures { result.0 ≡ a.0 - 1 }
{
    Addr(a.0 - 1)
}

// The same for the address that a walk goes on from, which may be none.
pub(super) fn guarded_after(after: Addr) -> Addr
    ensures { result.0 ≡ after.0 - 1 }
{
    Addr(after.0.saturating_sub(1))
}

// The address of the user's bytes in the block with guards at an address.
pub(super) fn user_addr(a: Addr) -> Addr
    requires { (place_of a.0).1 + 33 ≤ 33554432 }
    ensures { result.0 ≡ a.0 + 1 }
{
    Addr(a.0 + 1)
}

// Writes the back guard of a block.
fn write_back_guard(best: &mut Best, at: Addr, size: u32)
    requires range { IsInBlock (blocks_in best.old) at.0 (32 + size) 16 }
    requires most { size ≤ 16777216 }
    ensures layout { layout_of best.new
        ≡ with_back_guard (layout_of best.old) (place_of at.0) size }
    ensures others { without_block (place_of at.0) (blocks_in best.new)
        ≡ without_block (place_of at.0) (blocks_in best.old) }
    ensures disc { disc_in_box state best.new.disc ≡ disc_in_box state best.old.disc }
{
    best.fill(at, 32 + size, 16, GUARD);
}

// Writes both guards of a block.
pub(super) fn write_guards(best: &mut Best, at: Addr, size: u32)
    requires range { IsInBlock (blocks_in best.old) at.0 0 (size + 48) }
    requires most { size ≤ 16777216 }
    ensures layout { layout_of best.new ≡ with_guards (layout_of best.old) (place_of at.0) size }
    ensures others { without_block (place_of at.0) (blocks_in best.new)
        ≡ without_block (place_of at.0) (blocks_in best.old) }
    ensures disc { disc_in_box state best.new.disc ≡ disc_in_box state best.old.disc }
{
    best.fill(at, 0, 32, GUARD);
    write_back_guard(best, at, size);
}

// Writes zeros behind the user's bytes that are kept of a block, and the back guard.
pub(super) fn write_zeros(best: &mut Best, at: Addr, kept: u32, size: u32)
    requires range { IsInBlock (blocks_in best.old) at.0 0 (size + 48) }
    requires within { kept ≤ size }
    requires most { size ≤ 16777216 }
    ensures layout { layout_of best.new
        ≡ with_zeros (layout_of best.old) (place_of at.0) kept size }
    ensures others { without_block (place_of at.0) (blocks_in best.new)
        ≡ without_block (place_of at.0) (blocks_in best.old) }
    ensures disc { disc_in_box state best.new.disc ≡ disc_in_box state best.old.disc }
{
    best.fill(at, 32 + kept, size - kept, 0);
    write_back_guard(best, at, size);
}
