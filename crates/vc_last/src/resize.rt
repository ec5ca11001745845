ghost use Rattle.std.specs.Prelude.{◌≡◌, ◌≢◌, ◌≤◌, false, map, take, true};
ghost use Rattle.vc_base.specs.Prelude.{place_of, without_block_at, HasOut, without_block, resize_there, sized_block, HasBlock, with_bytes_at};
ghost use Rattle.vc_model.specs.Last.{can_end, latest};
ghost use Rattle.vc_model.specs.Layout.{footprint};
ghost use Rattle.vc_model.specs.Resize.{is_usable};
ghost use Rattle.vc_seg.specs.OneBlock.{IsSize};
ghost use Rattle.vc_seg.specs.Segment.{pair_of};
ghost use Rattle.vc_last.specs.Call.{IsResize};
ghost use Rattle.vc_last.specs.Chain.{IsReady};
ghost use Rattle.vc_last.specs.Head.{before_of, block_of, has_room};
ghost use Rattle.vc_last.specs.Read.{layout_by};

use crate::head::{before_at, set_before, set_size, size_at, tag_at};
use crate::place::can_end;
use crate::put::alloc_in;
use crate::range::copy_in;
use std::alloc::Global;
use vc_base::Addr;
use vc_seg::{RegionFault, SegDisc, Segment};

// Gives the latest block another size where it is.
fn resize_there(segs: &mut Vec<Segment>, a: Addr, size: u32)
    requires kept { IsReady segs.old a.0 }
    requires block { a.0 ≢ 0 }
    requires some { 1 ≤ size }
    requires fits { has_room segs.old.items a.0 size ≡ true }
    ensures kept { IsReady segs.new a.0 }
    ensures layout { layout_by segs.new.items a.0
        ≡ resize_there (layout_by segs.old.items a.0) (place_of a.0) size }
{
    set_size(segs, a, size);
}

// Copies the bytes of a block, up to a number of them, into the front of the latest one, which has room for them.
fn copy_front(segs: &mut Vec<Segment>, a: Addr, to: Addr, size: u32)
    requires kept { IsReady segs.old to.0 }
    requires block { HasBlock (layout_by segs.old.items to.0).blocks a.0 }
    requires to { HasBlock (layout_by segs.old.items to.0).blocks to.0 }
    requires room { size ≤ (block_of segs.old.items to.0).size }
    ensures kept { IsReady segs.new to.0 }
    ensures layout { layout_by segs.new.items to.0
        ≡ with_bytes_at (layout_by segs.old.items to.0) (place_of to.0) 0
        (take size (block_of segs.old.items a.0).bytes) }
{
    let kept = size_at(segs, a).min(size);
    copy_in(segs, a.seg(), a.off(), to.seg(), to.off(), kept);
}

// Frees the block that was allocated before the latest one.
fn unlink(segs: &mut Vec<Segment>, a: Addr, to: Addr)
    requires kept { IsReady segs.old to.0 }
    requires to { to.0 ≢ 0 }
    requires before { before_of segs.old.items to.0 ≡ a.0 }
    requires block { a.0 ≢ 0 }
    ensures kept { IsReady segs.new to.0 }
    ensures layout { layout_by segs.new.items to.0
        ≡ without_block_at (layout_by segs.old.items to.0) (place_of a.0) }
{
    let before = before_at(segs, a);
    set_before(segs, to, before);
}

// Moves the latest block, which gets another size by that and is the latest still.
fn move_latest(
    segs: &mut Vec<Segment>,
    latest: &mut Addr,
    disc: &mut Box<dyn SegDisc>,
    alloc: Global,
    size: u32,
) -> Result<Addr, RegionFault>
    requires kept { IsReady segs.old latest.old.0 }
    requires block { latest.old.0 ≢ 0 }
    requires size { IsSize size }
    requires lent { HasOut (state disc.old) (layout_by segs.old.items latest.old.0).segments }
    requires ends { has_room segs.old.items latest.old.0 size ≡ false }

    ensures kept { IsReady segs.new latest.new.0 }
    ensures resize { IsResize latest.old.0 size true result
        (layout_by segs.old.items latest.old.0) (layout_by segs.new.items latest.new.0)
        (state disc.old) (state disc.new) }
{
    let a = *latest;
    let tag = tag_at(segs, a);
    match alloc_in(segs, latest, disc, alloc, size, tag) {
        Ok(to) => {
            copy_front(segs, a, to, size);
            unlink(segs, a, to);
            Ok(to)
        }
        Err(fault) => Err(fault),
    }
}

// Gives the block at an address another size, if it is the latest, and answers its address.
pub(crate) fn resize_in(
    segs: &mut Vec<Segment>,
    at: &mut Addr,
    disc: &mut Box<dyn SegDisc>,
    alloc: Global,
    a: Addr,
    size: u32,
    may_move: bool,
) -> Result<Addr, RegionFault>
    requires kept { IsReady segs.old at.old.0 }
    requires block { HasBlock (layout_by segs.old.items at.old.0).blocks a.0 }
    requires size { IsSize size }
    requires lent { HasOut (state disc.old) (layout_by segs.old.items at.old.0).segments }

    ensures kept { IsReady segs.new at.new.0 }
    ensures resize { IsResize a.0 size may_move result
        (layout_by segs.old.items at.old.0) (layout_by segs.new.items at.new.0)
        (state disc.old) (state disc.new) }
{
    if a.0 != at.0 {
        return Err(RegionFault::NotLast);
    }
    if can_end(segs, a, size) {
        resize_there(segs, a, size);
        return Ok(a);
    }
    if !may_move {
        return Err(RegionFault::Fixed);
    }
    move_latest(segs, at, disc, alloc, size)
}
