ghost use Rattle.std.specs.Prelude.{◌≡◌, ◌≢◌, ℕ, ◌+◌, ◌*◌, ◌≤◌, IfSome, None, List, [], ◌∷◌, ◌++◌, false};
ghost use Rattle.vc_base.specs.Prelude.{contains, address, place_of, without_block_at, resize_there, span};
ghost use Rattle.vc_seg.specs.OneBlock.{IsGuardedSize};
ghost use Rattle.vc_seg.specs.Put.{with_zeros};
ghost use Rattle.vc_extent.specs.Tiling.{IsBusy, IsNamed, extent_of, tiling};
ghost use Rattle.vc_gaps.specs.ButLinks.{StaysButLinks};
ghost use Rattle.vc_gaps.specs.Cost.{GapsCost};
ghost use Rattle.vc_gaps.specs.GapTree.{CanLinkGap, HasGaps};
ghost use Rattle.vc_best.specs.Beside.{free_before, free_next, some_name};
ghost use Rattle.vc_best.specs.Blocks.{layout_by};
ghost use Rattle.vc_best.specs.Free.{IsMerged, room_of};
ghost use Rattle.vc_best.specs.GapsChange.{HasGapsBefore};
ghost use Rattle.vc_best.specs.Standing.{AreAllowed, AreKept, AreWhole, CanPutBlock, IsLeastHolding, IsLeastOut, IsOnlyOut, IsPutInGap};

use crate::carve::{cut_back, cut_front, lay_zeros};
use crate::release::{absorb_before, release};
use crate::stay::resize_there;
use vc_base::{Addr, Steps};
use vc_extent::Extents;
use vc_gaps::{gap_seat, link_gap, take_gap_seat, unlink_gap};
use vc_seg::{rounded_up, span_of};

// Before the bytes of free extents change these are taken out of the tree of gaps, and then those that are left are put in.

// Takes the free extent behind one, where there is one, out of the tree.
fn unlink_next(extents: &mut Extents, root: &mut Addr, a: Addr)
    requires named { IsNamed (tiling extents.old.segs.items) a.0 }
    requires gaps { HasGaps (tiling extents.old.segs.items) root.old.0 [] }
    ensures gaps { HasGaps (tiling extents.new.segs.items) root.new.0
        (free_next (tiling extents.old.segs.items) a.0) }
    ensures cost { GapsCost (tiling extents.old.segs.items) (tiling extents.new.segs.items)
        root.old.0 root.new.0 0 0 12 0 0 }
    ensures rest { StaysButLinks extents.old.segs.items extents.new.segs.items }
{
    let Some(next) = extents.after(a) else {
        return;
    };
    if !extents.is_busy(next) {
        *root = unlink_gap(extents, *root, next);
    }
}

// Takes the free extent before one, where there is one, out of a tree that has it.
fn unlink_before(extents: &mut Extents, root: &mut Addr, a: Addr)
    requires named { IsNamed (tiling extents.old.segs.items) a.0 }
    requires gaps { HasGapsBefore (tiling extents.old.segs.items) root.old.0 a.0 }
    ensures gaps { (out : List ℕ) → HasGaps (tiling extents.old.segs.items) root.old.0 out
        → HasGaps (tiling extents.new.segs.items) root.new.0
        (free_before (tiling extents.old.segs.items) a.0 ++ out) }
    ensures cost { GapsCost (tiling extents.old.segs.items) (tiling extents.new.segs.items)
        root.old.0 root.new.0 0 0 12 0 0 }
    ensures rest { StaysButLinks extents.old.segs.items extents.new.segs.items }
{
    let Some(before) = extents.before(a) else {
        return;
    };
    if !extents.is_busy(before) {
        *root = unlink_gap(extents, *root, before);
    }
}

// Puts the free extent behind one, where there is one, into a tree without it.
fn link_next<L>(extents: &mut Extents, root: &mut Addr, a: Addr, steps: &mut Steps<L>)
    requires named { IsNamed (tiling extents.old.segs.items) a.0 }
    requires gaps { HasGaps (tiling extents.old.segs.items) root.old.0
        (free_next (tiling extents.old.segs.items) a.0) }
    ensures gaps { HasGaps (tiling extents.new.segs.items) root.new.0 [] }
    ensures rises { steps.old ≤ steps.new }
    ensures cost { GapsCost (tiling extents.old.segs.items) (tiling extents.new.segs.items)
        root.old.0 root.new.0 steps.old steps.new 8 1 1 }
    ensures rest { StaysButLinks extents.old.segs.items extents.new.segs.items }
{
    let Some(next) = extents.after(a) else {
        return;
    };
    if !extents.is_busy(next) {
        *root = link_gap(extents, *root, next, steps);
    }
}

// Puts a free extent, where there is one, into a tree without it.
fn link_some<L>(extents: &mut Extents, root: &mut Addr, some: Option<Addr>, steps: &mut Steps<L>)
    requires { IfSome some (λ a. CanLinkGap (tiling extents.old.segs.items) root.old.0 a.0) }
    ensures gaps { (out : List ℕ) → IfSome some (λ a. contains out a.0 ≡ false)
        → HasGaps (tiling extents.old.segs.items) root.old.0 (some_name some ++ out)
        → HasGaps (tiling extents.new.segs.items) root.new.0 out }
    ensures rises { steps.old ≤ steps.new }
    ensures none { some ≡ None → GapsCost (tiling extents.old.segs.items)
        (tiling extents.new.segs.items) root.old.0 root.new.0 steps.old steps.new 0 0 0 }
    ensures cost { GapsCost (tiling extents.old.segs.items) (tiling extents.new.segs.items)
        root.old.0 root.new.0 steps.old steps.new 8 1 1 }
    ensures rest { StaysButLinks extents.old.segs.items extents.new.segs.items }
{
    if let Some(a) = some {
        *root = link_gap(extents, *root, a, steps);
    }
}

// Puts a block of zeros into a free extent that isn't in the tree, at an offset of its segment. What is before and behind
// it is in the tree then. It answers the block's address.
fn put_block<L>(
    extents: &mut Extents,
    root: &mut Addr,
    a: Addr,
    off: u32,
    size: u32,
    tag: u32,
    steps: &mut Steps<L>,
) -> Addr
    requires room { CanPutBlock (tiling extents.old.segs.items) a.0 off size }
    requires merged { IsMerged (tiling extents.old.segs.items) }
    requires gaps { HasGaps (tiling extents.old.segs.items) root.old.0 (a.0 ∷ []) }
    ensures layout { layout_by extents.new.segs.items
        ≡ with_zeros (layout_by extents.old.segs.items) tag size ((place_of a.0).0, off) }
    ensures value { result.0 ≡ address ((place_of a.0).0, off) }
    ensures kept { AreKept extents.new.segs.items root.new.0 }
    ensures least_steps { steps.old + 1 ≤ steps.new }
    ensures cost { GapsCost (tiling extents.old.segs.items) (tiling extents.new.segs.items)
        root.old.0 root.new.0 steps.old steps.new 16 3 2 }
    ensures cost_at_start { off ≡ (place_of a.0).1 → GapsCost (tiling extents.old.segs.items)
        (tiling extents.new.segs.items) root.old.0 root.new.0 steps.old steps.new 8 2 1 }
{
    let (front, to) = cut_front(extents, a, off);
    let rest = cut_back(extents, to, span_of(size), steps);
    lay_zeros(extents, to, size, tag);
    link_some(extents, root, front, steps);
    link_some(extents, root, rest, steps);
    to
}

// Puts a block of zeros into the least free extent that holds it, which isn't in the tree, at the lowest offset that the
// alignment divides. It answers the block's address.
pub(crate) fn put_in_out<L>(
    extents: &mut Extents,
    root: &mut Addr,
    a: Addr,
    size: u32,
    align: u32,
    tag: u32,
    steps: &mut Steps<L>,
) -> Addr
    requires { IsLeastOut extents.old.segs.items root.old.0 size align a.0 }
    ensures put { IsPutInGap (layout_by extents.old.segs.items) (layout_by extents.new.segs.items)
        tag size align result.0 }
    ensures whole { AreWhole extents.new.segs.items root.new.0 }
    ensures least_steps { steps.old + 1 ≤ steps.new }
    ensures cost { GapsCost (tiling extents.old.segs.items) (tiling extents.new.segs.items)
        root.old.0 root.new.0 steps.old steps.new 16 3 2 }
    ensures cost_by_32 { align ≡ 32 → GapsCost (tiling extents.old.segs.items)
        (tiling extents.new.segs.items) root.old.0 root.new.0 steps.old steps.new 8 2 1 }
{
    let off = rounded_up(a.off(), align);
    put_block(extents, root, a, off, size, tag, steps)
}

// Puts a block of zeros into the one free extent that holds it, which isn't in the tree. With a free one before it, that is
// taken out of the tree first and the two become one. It answers the block's address.
pub(crate) fn put_at_end<L>(
    extents: &mut Extents,
    root: &mut Addr,
    end: Addr,
    size: u32,
    align: u32,
    tag: u32,
    steps: &mut Steps<L>,
) -> Addr
    requires { IsOnlyOut extents.old.segs.items root.old.0 size align end.0 }
    ensures put { IsPutInGap (layout_by extents.old.segs.items) (layout_by extents.new.segs.items)
        tag size align result.0 }
    ensures whole { AreWhole extents.new.segs.items root.new.0 }
    ensures least_steps { steps.old + 1 ≤ steps.new }
    ensures cost { GapsCost (tiling extents.old.segs.items) (tiling extents.new.segs.items)
        root.old.0 root.new.0 steps.old steps.new 28 3 2 }
{
    unlink_before(extents, root, end);
    let gap = absorb_before(extents, end);
    put_in_out(extents, root, gap, size, align, tag, steps)
}

// Puts a block of zeros at the start of the least gap that holds it, where what is left holds another one: no gap before this
// one does, so what is left takes its place in the tree.
fn put_at_start(extents: &mut Extents, root: &mut Addr, a: Addr, size: u32, tag: u32)
    requires sized { IsGuardedSize size }
    requires least { IsLeastHolding (tiling extents.old.segs.items) size 32 a.0 }
    requires left { 2 * span size ≤ (extent_of (tiling extents.old.segs.items) a.0).span }
    requires kept { AreKept extents.old.segs.items root.old.0 }
    ensures layout { layout_by extents.new.segs.items
        ≡ with_zeros (layout_by extents.old.segs.items) tag size ((place_of a.0).0, (place_of a.0).1) }
    ensures kept { AreKept extents.new.segs.items root.new.0 }
    ensures cost { GapsCost (tiling extents.old.segs.items) (tiling extents.new.segs.items)
        root.old.0 root.new.0 0 0 0 0 0 }
{
    let seat = gap_seat(extents, a);
    let rest = extents.split(a, span_of(size));
    lay_zeros(extents, a, size, tag);
    *root = take_gap_seat(extents, *root, seat, rest);
}

// Puts a block of zeros into the least gap that holds it at an alignment of 32, as `put_in_gap` does.
fn put_by_32<L>(
    extents: &mut Extents,
    root: &mut Addr,
    a: Addr,
    size: u32,
    tag: u32,
    steps: &mut Steps<L>,
) -> Addr
    requires allowed { AreAllowed size 32 }
    requires least { IsLeastHolding (tiling extents.old.segs.items) size 32 a.0 }
    requires whole { AreWhole extents.old.segs.items root.old.0 }
    ensures put { IsPutInGap (layout_by extents.old.segs.items) (layout_by extents.new.segs.items)
        tag size 32 result.0 }
    ensures whole { AreWhole extents.new.segs.items root.new.0 }
    ensures least_steps { steps.old + 1 ≤ steps.new }
    ensures cost { GapsCost (tiling extents.old.segs.items) (tiling extents.new.segs.items)
        root.old.0 root.new.0 steps.old steps.new 28 3 2 }
{
    if 2 * span_of(size) <= extents.span_at(a, steps) {
        put_at_start(extents, root, a, size, tag);
        return a;
    }
    *root = unlink_gap(extents, *root, a);
    put_in_out(extents, root, a, size, 32, tag, steps)
}

// Puts a block of zeros into the least gap that holds it. It answers the block's address.
pub(crate) fn put_in_gap<L>(
    extents: &mut Extents,
    root: &mut Addr,
    a: Addr,
    size: u32,
    align: u32,
    tag: u32,
    steps: &mut Steps<L>,
) -> Addr
    requires allowed { AreAllowed size align }
    requires least { IsLeastHolding (tiling extents.old.segs.items) size align a.0 }
    requires whole { AreWhole extents.old.segs.items root.old.0 }
    ensures put { IsPutInGap (layout_by extents.old.segs.items) (layout_by extents.new.segs.items)
        tag size align result.0 }
    ensures whole { AreWhole extents.new.segs.items root.new.0 }
    ensures least_steps { steps.old + 1 ≤ steps.new }
    ensures cost { GapsCost (tiling extents.old.segs.items) (tiling extents.new.segs.items)
        root.old.0 root.new.0 steps.old steps.new 28 3 2 }
{
    if align == 32 {
        return put_by_32(extents, root, a, size, tag, steps);
    }
    *root = unlink_gap(extents, *root, a);
    put_in_out(extents, root, a, size, align, tag, steps)
}

// Frees the block at an address. The free extent that it then is, or is part of, is in the tree.
pub(crate) fn free_block<L>(extents: &mut Extents, root: &mut Addr, a: Addr, steps: &mut Steps<L>)
    requires busy { IsBusy (tiling extents.old.segs.items) a.0 }
    requires kept { AreKept extents.old.segs.items root.old.0 }
    ensures layout { layout_by extents.new.segs.items
        ≡ without_block_at (layout_by extents.old.segs.items) (place_of a.0) }
    ensures kept { AreKept extents.new.segs.items root.new.0 }
    ensures least_steps { steps.old + 1 ≤ steps.new }
    ensures cost { GapsCost (tiling extents.old.segs.items) (tiling extents.new.segs.items)
        root.old.0 root.new.0 steps.old steps.new 32 1 1 }
{
    unlink_next(extents, root, a);
    unlink_before(extents, root, a);
    let freed = release(extents, a);
    *root = link_gap(extents, *root, freed, steps);
}

// Gives the block at an address another size where it is, as `resize_there` does, and keeps the tree.
pub(crate) fn resize_block<L>(
    extents: &mut Extents,
    root: &mut Addr,
    a: Addr,
    size: u32,
    steps: &mut Steps<L>,
)
    requires busy { IsBusy (tiling extents.old.segs.items) a.0 }
    requires size { IsGuardedSize size }
    requires room { span size ≤ room_of (tiling extents.old.segs.items) a.0 }
    requires kept { AreKept extents.old.segs.items root.old.0 }
    ensures layout { layout_by extents.new.segs.items
        ≡ resize_there (layout_by extents.old.segs.items) (place_of a.0) size }
    ensures kept { AreKept extents.new.segs.items root.new.0 }
    ensures least_steps { steps.old + 2 ≤ steps.new }
    ensures cost { GapsCost (tiling extents.old.segs.items) (tiling extents.new.segs.items)
        root.old.0 root.new.0 steps.old steps.new 20 3 1 }
{
    if span_of(size) == extents.span_at(a, steps) {
        resize_there(extents, a, size, steps);
        return;
    }
    unlink_next(extents, root, a);
    resize_there(extents, a, size, steps);
    link_next(extents, root, a, steps);
}
