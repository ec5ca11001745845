ghost use Rattle.std.specs.Prelude.{◌≡◌, ◌≤◌, IfOk, None};
ghost use Rattle.vc_base.specs.Prelude.{HasOut, HasBlock};
ghost use Rattle.vc_model.specs.Last.{last_place};
ghost use Rattle.vc_seg.specs.OneBlock.{IsSize};
ghost use Rattle.vc_last.specs.Call.{IsAlloc};
ghost use Rattle.vc_last.specs.Chain.{IsReady};
ghost use Rattle.vc_last.specs.Place.{IsAt, IsNewest, IsBlockPlace, with_latest};
ghost use Rattle.vc_last.specs.Read.{layout_by};

use crate::ask::ask_for;
use crate::head::lay;
use crate::place::place;
use std::alloc::Global;
use vc_base::Addr;
use vc_seg::{RegionFault, SegDisc, Segment, round_of, rounded_up, span_of};

// Puts a block of zeros at a place behind those of the newest segment, and answers its address. It is the latest.
fn put(segs: &mut Vec<Segment>, latest: Addr, seg: u32, off: u32, size: u32, tag: u32) -> Addr
    requires kept { IsReady segs.old latest.0 }
    requires newest { IsNewest (layout_by segs.old.items latest.0) seg }
    requires place { IsBlockPlace (layout_by segs.old.items latest.0) size (seg, off) }
    requires some { 1 ≤ size }
    ensures kept { IsReady segs.new result.0 }
    ensures layout { layout_by segs.new.items result.0
        ≡ with_latest (layout_by segs.old.items latest.0) tag size (seg, off) }
    ensures at { IsAt result.0 (seg, off) }
    ensures fresh { ¬ HasBlock (layout_by segs.old.items latest.0).blocks result.0 }
{
    lay(segs, seg, off, size, tag, latest);
    Addr::new(seg, off)
}

// A block of zeros that has no place: bytes are asked for, and it goes behind the last block of the segment that is the
// newest then.
fn put_in_new(
    segs: &mut Vec<Segment>,
    latest: &mut Addr,
    disc: &mut Box<dyn SegDisc>,
    alloc: Global,
    size: u32,
    tag: u32,
) -> Result<Addr, RegionFault>
    requires kept { IsReady segs.old latest.old.0 }
    requires size { IsSize size }
    requires lent { HasOut (state disc.old) (layout_by segs.old.items latest.old.0).segments }
    requires none { last_place (layout_by segs.old.items latest.old.0) size ≡ None }
    ensures kept { IsReady segs.new latest.new.0 }
    ensures alloc { IsAlloc tag size result (layout_by segs.old.items latest.old.0)
        (layout_by segs.new.items latest.new.0) (state disc.old) (state disc.new) }
    ensures latest { IfOk result (λ a. latest.new.0 ≡ a.0) }
{
    let bytes = rounded_up(span_of(size) + 32, round_of(disc));
    match ask_for(segs, disc, alloc, bytes) {
        Ok(()) => {
            let Some(room) = place(segs, *latest, size) else {
                unreachable!()
            };
            let a = put(segs, *latest, room.0, room.1, size, tag);
            *latest = a;
            Ok(a)
        }
        Err(fault) => Err(fault),
    }
}

// A block of zeros behind the last block of the newest segment, for which bytes are asked where it doesn't fit there. It is
// the latest.
pub(crate) fn alloc_in(
    segs: &mut Vec<Segment>,
    latest: &mut Addr,
    disc: &mut Box<dyn SegDisc>,
    alloc: Global,
    size: u32,
    tag: u32,
) -> Result<Addr, RegionFault>
    requires kept { IsReady segs.old latest.old.0 }
    requires size { IsSize size }
    requires lent { HasOut (state disc.old) (layout_by segs.old.items latest.old.0).segments }
    ensures kept { IsReady segs.new latest.new.0 }
    ensures alloc { IsAlloc tag size result (layout_by segs.old.items latest.old.0)
        (layout_by segs.new.items latest.new.0) (state disc.old) (state disc.new) }
    ensures latest { IfOk result (λ a. latest.new.0 ≡ a.0) }
{
    match place(segs, *latest, size) {
        Some(at) => {
            let a = put(segs, *latest, at.0, at.1, size, tag);
            *latest = a;
            Ok(a)
        }
        None => put_in_new(segs, latest, disc, alloc, size, tag),
    }
}
