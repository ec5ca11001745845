ghost use Rattle.std.specs.Prelude.{◌≡◌, ℕ, ◌+◌, ◌≤◌, ◌<◌, ◌⊎◌, ◌↔◌, IfSome, IsTrue, find, option_map};
ghost use Rattle.vc_base.specs.Prelude.{address, place_of, HasBlock};
ghost use Rattle.vc_model.specs.Layout.{place_of_block};
ghost use Rattle.vc_model.specs.Walk.{holds_byte};
ghost use Rattle.vc_seg.specs.OneBlock.{IsBlockAt, IsNextBlock};
ghost use Rattle.vc_extent.specs.Tiling.{IsBusy, IsNamed, IsThere, extent_of, extents_of, tiling};
ghost use Rattle.vc_best.specs.Blocks.{all_busy, busy_in, layout_by};
ghost use Rattle.vc_best.specs.Next.{IsFirst};

use vc_base::Addr;
use vc_extent::Extents;

// Whether an extent has a block whose bytes hold the byte at an offset of its segment.
fn holds_byte(extents: &Extents, a: Addr, off: u32) -> bool
    requires { IsNamed (tiling extents.now.segs.items) a.0 }
    ensures { IsTrue result ↔ (((place_of a.0).1 ≤ off) × (off
        < (place_of a.0).1 + (extent_of (tiling extents.now.segs.items) a.0).size)) }
{
    a.off() <= off && off - a.off() < extents.size_at(a)
}

// The extent of a segment whose block holds the byte at an offset.
fn extent_with_byte(extents: &Extents, seg: u32, off: u32) -> Option<Addr>
    requires { IsThere seg extents.now.segs.items }
    ensures value { option_map (λ a. place_of a.0) result ≡ option_map place_of_block
        (find (holds_byte (seg, off)) (busy_in (seg, extents_of seg (tiling extents.now.segs.items)))) }
    ensures busy { IfSome result (λ a. IsBusy (tiling extents.now.segs.items) a.0) }
    ensures before { IfSome result (λ a. (place_of a.0).1 ≤ off) }
{
    let mut next = Some(extents.first(seg));
    while let Some(a) = next {
        if holds_byte(extents, a, off) {
            return Some(a);
        }
        next = extents.after(a);
    }
    None
}

// The block whose bytes hold the byte at an offset of a segment, and the offset in the block. None where no block does.
pub(crate) fn block_at(extents: &Extents, seg: u32, off: u32) -> Option<(Addr, u32)>
    ensures { IsBlockAt result (seg, off) (layout_by extents.now.segs.items).blocks }
{
    if extents.has(seg).is_none() {
        return None;
    }
    let a = extent_with_byte(extents, seg, off)?;
    Some((a, off - a.off()))
}

// The first busy extent of a segment from one on.
fn first_busy(extents: &Extents, a: Addr) -> Option<Addr>
    requires { IsNamed (tiling extents.now.segs.items) a.0 }
    ensures first { IsFirst (busy_in (
      (place_of a.0).0,
      extents_of (place_of a.0).0
          (tiling extents.now.segs.items),
    )) a.0 (option_map (λ r. r.0) result) }
    ensures busy { IfSome result (λ r. IsBusy (tiling extents.now.segs.items) r.0) }
    ensures seg { IfSome result (λ r. (place_of r.0).0 ≡ (place_of a.0).0) }
{
    let mut next = Some(a);
    while let Some(here) = next {
        if extents.is_busy(here) {
            return Some(here);
        }
        next = extents.after(here);
    }
    None
}

// The first busy extent of the segment of a number, where there is one.
fn first_in(extents: &Extents, number: u32) -> Option<Addr>
    ensures first { IsFirst (busy_in (number, extents_of number (tiling extents.now.segs.items)))
        (address (number, 0)) (option_map (λ r. r.0) result) }
    ensures busy { IfSome result (λ r. IsBusy (tiling extents.now.segs.items) r.0) }
    ensures seg { IfSome result (λ r. (place_of r.0).0 ≡ number) }
{
    if extents.has(number).is_none() {
        return None;
    }
    first_busy(extents, extents.first(number))
}

// The first busy extent of the segments from a number on, from 1 to 1,024.
fn first_in_segments(extents: &Extents, from: u32) -> Option<Addr>
    requires some { 1 ≤ from }
    requires most { from ≤ 1024 }
    ensures first { IsFirst (all_busy (tiling extents.now.segs.items)) (address (from, 0))
        (option_map (λ r. r.0) result) }
    ensures busy { IfSome result (λ r. IsBusy (tiling extents.now.segs.items) r.0) }
{
    for number in from..1024 {
        let found = first_in(extents, number);
        if found.is_some() {
            return found;
        }
    }
    None
}

// The first busy extent behind one in its segment.
fn busy_behind(extents: &Extents, a: Addr) -> Option<Addr>
    requires { IsNamed (tiling extents.now.segs.items) a.0 }
    ensures first { IsFirst (busy_in (
      (place_of a.0).0,
      extents_of (place_of a.0).0
          (tiling extents.now.segs.items),
    )) (a.0 + 1) (option_map (λ r. r.0) result) }
    ensures busy { IfSome result (λ r. IsBusy (tiling extents.now.segs.items) r.0) }
    ensures seg { IfSome result (λ r. (place_of r.0).0 ≡ (place_of a.0).0) }
{
    let next = extents.after(a)?;
    first_busy(extents, next)
}

// The busy extent with the least address above one that is busy, or above 0.
fn busy_above(extents: &Extents, after: Addr) -> Option<Addr>
    requires { (after.0 ≡ 0) ⊎ IsBusy (tiling extents.now.segs.items) after.0 }
    ensures first { IsFirst (all_busy (tiling extents.now.segs.items)) (after.0 + 1)
        (option_map (λ r. r.0) result) }
    ensures busy { IfSome result (λ r. IsBusy (tiling extents.now.segs.items) r.0) }
{
    if after.is_none() {
        return first_in_segments(extents, 1);
    }
    let found = busy_behind(extents, after);
    if found.is_some() {
        return found;
    }
    first_in_segments(extents, after.seg() + 1)
}

// The block with the least address above that of a block, or above 0.
pub(crate) fn next_block(extents: &Extents, after: Addr) -> Option<Addr>
    requires { (after.0 ≡ 0) ⊎ HasBlock (layout_by extents.now.segs.items).blocks after.0 }
    ensures { IsNextBlock result after.0 (layout_by extents.now.segs.items).blocks }
{
    busy_above(extents, after)
}
