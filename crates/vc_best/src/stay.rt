ghost use Rattle.std.specs.Prelude.{◌≡◌, ◌+◌, ◌≤◌, ◌↔◌, IsTrue};
ghost use Rattle.vc_base.specs.Prelude.{place_of, resize_there, span};
ghost use Rattle.vc_extent.specs.Tiling.{IsBusy, IsNamed, tiling};
ghost use Rattle.vc_best.specs.GapsChange.{GapBehindChanges};
ghost use Rattle.vc_best.specs.Blocks.{layout_by};
ghost use Rattle.vc_best.specs.Free.{IsMerged, room_of};
ghost use Rattle.vc_best.specs.Standing.{CanResizeThere, IsBorderMoved};

use crate::release::absorb_next;
use vc_base::{Addr, Steps};
use vc_extent::Extents;
use vc_seg::span_of;

// The bytes from a busy extent's start on up to the next busy one, or to the end of what its segment has for extents.
fn room<L>(extents: &Extents, a: Addr, steps: &mut Steps<L>) -> u32
    requires { IsBusy (tiling extents.now.segs.items) a.0 }
    ensures value { result ≡ room_of (tiling extents.now.segs.items) a.0 }
    ensures least_steps { steps.old + 1 ≤ steps.new }
    ensures most_steps { steps.new ≤ steps.old + 2 }
{
    let own = extents.span_at(a, steps);
    match extents.after(a) {
        Some(next) => {
            if extents.is_busy(next) {
                own
            } else {
                own + extents.span_at(next, steps)
            }
        }
        None => own,
    }
}

// Whether the block at an address can have another size where it is.
pub(crate) fn has_room<L>(extents: &Extents, a: Addr, size: u32, steps: &mut Steps<L>) -> bool
    requires busy { IsBusy (tiling extents.now.segs.items) a.0 }
    requires most { size ≤ 16777264 }
    ensures fits { IsTrue result ↔ (span size ≤ room_of (tiling extents.now.segs.items) a.0) }
    ensures least_steps { steps.old + 1 ≤ steps.new }
    ensures most_steps { steps.new ≤ steps.old + 2 }
{
    span_of(size) <= room(extents, a, steps)
}

// Moves the border behind a block so that it has another size. What is new in it isn't said.
fn move_border<L>(extents: &mut Extents, a: Addr, size: u32, steps: &mut Steps<L>)
    requires { CanResizeThere (tiling extents.old.segs.items) a.0 size }
    ensures moved { IsBorderMoved extents.old.segs.items extents.new.segs.items a.0 size }
    ensures gaps { GapBehindChanges (tiling extents.old.segs.items) (tiling extents.new.segs.items)
        a.0 size }
    ensures counter { steps.new ≡ steps.old + 1 }
{
    let own = extents.span_at(a, steps);
    let wanted = span_of(size);
    if wanted == own {
        extents.set_size(a, size);
    } else if wanted < own {
        let rest = extents.shrink(a, size);
        absorb_next(extents, rest);
    } else {
        extents.stretch(a, size);
    }
}

// Gives the block at an address another size where it is. What is new in it is zero.
pub(crate) fn resize_there<L>(extents: &mut Extents, a: Addr, size: u32, steps: &mut Steps<L>)
    requires { CanResizeThere (tiling extents.old.segs.items) a.0 size }
    ensures layout { layout_by extents.new.segs.items
        ≡ resize_there (layout_by extents.old.segs.items) (place_of a.0) size }
    ensures merged { IsMerged (tiling extents.new.segs.items) }
    ensures named { IsNamed (tiling extents.new.segs.items) a.0 }
    ensures gaps { GapBehindChanges (tiling extents.old.segs.items) (tiling extents.new.segs.items)
        a.0 size }
    ensures counter { steps.new ≡ steps.old + 1 }
{
    let old = extents.size_at(a);
    move_border(extents, a, size, steps);
    if old < size {
        extents.fill(a, old, size - old, 0);
    }
}
