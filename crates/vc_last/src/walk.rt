ghost use Rattle.std.specs.Prelude.{◌≡◌, ℕ, [], ◌∷◌, IfSome, filter, fold, nat_lt, option_map};
ghost use Rattle.vc_base.specs.Prelude.{address_of, HasBlock};
ghost use Rattle.vc_model.specs.Order.{lesser_by};
ghost use Rattle.vc_model.specs.Walk.{block_at, holds_byte, next_block};
ghost use Rattle.vc_last.specs.Chain.{IsLast};
ghost use Rattle.vc_last.specs.Head.{HasHeadAt, block_of};
ghost use Rattle.vc_last.specs.Read.{layout_by};

use crate::head::{before_at, size_at};
use vc_base::Addr;
use vc_seg::Segment;

// The lesser of the least address so far and one more, where that is above one.
fn consider(least: Option<u32>, after: u32, address: u32) -> Option<u32>
    ensures { result ≡ fold (lesser_by (λ a. a)) least
        (filter (λ a. nat_lt after a) (address ∷ [])) }
{
    if address <= after {
        return least;
    }
    match least {
        Some(so_far) => {
            if address < so_far {
                Some(address)
            } else {
                least
            }
        }
        None => Some(address),
    }
}

// The address of the block with the least address above one, of those from the latest back. None where there is none.
pub(crate) fn next_in(segs: &[Segment], latest: Addr, after: Addr) -> Option<Addr>
    requires kept { IsLast segs.now latest.0 }
    ensures value { option_map (λ a. a.0) result
        ≡ option_map address_of (next_block after.0 (layout_by segs.now latest.0).blocks) }
    ensures live { IfSome result (λ a. HasBlock (layout_by segs.now latest.0).blocks a.0) }
{
    let mut least = None;
    let mut at = latest;
    while at.0 != 0 {
        least = consider(least, after.0, at.0);
        at = before_at(segs, at);
    }
    let address = least?;
    Some(Addr(address))
}

// Whether the bytes of the block at an address hold the byte at an offset of a segment.
fn holds(segs: &[Segment], a: Addr, seg: u32, off: u32) -> bool
    requires { HasHeadAt segs.now a.0 }
    ensures { result ≡ holds_byte (seg, off) (block_of segs.now a.0) }
{
    let from = a.off();
    a.seg() == seg && from <= off && off < from + size_at(segs, a)
}

// The block whose bytes hold the byte at an offset of a segment, of those from the latest back, and the offset in the
// block. None where no block does.
pub(crate) fn block_in(segs: &[Segment], latest: Addr, seg: u32, off: u32) -> Option<(Addr, u32)>
    requires kept { IsLast segs.now latest.0 }
    ensures value { option_map {U = ℕ × ℕ} (λ f. (f.0.0, f.1)) result
        ≡ option_map {U = ℕ × ℕ} (λ f. (address_of f.0, f.1))
        (block_at (seg, off) (layout_by segs.now latest.0).blocks) }
    ensures live { IfSome result (λ f. HasBlock (layout_by segs.now latest.0).blocks f.0.0) }
{
    let mut at = latest;
    while at.0 != 0 {
        if holds(segs, at, seg, off) {
            return Some((at, off - at.off()));
        }
        at = before_at(segs, at);
    }
    None
}
