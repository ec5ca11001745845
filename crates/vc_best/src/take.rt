ghost use Rattle.std.specs.Prelude.{◌+◌, ◌≤◌};
ghost use Rattle.vc_extent.specs.Tiling.{IsBusy, extent_of, tiling};
ghost use Rattle.vc_gaps.specs.Cost.{GapsCost};
ghost use Rattle.vc_best.specs.Blocks.{layout_by};
ghost use Rattle.vc_best.specs.Standing.{AreKept, AreWhole, IsMovedInto};

use crate::tree::free_block;
use vc_base::{Addr, Steps};
use vc_extent::Extents;

// Moves the bytes of a block, up to a number of them, into the front of another, which has room for them, and frees it.
pub(crate) fn take_over<L>(
    extents: &mut Extents,
    root: &mut Addr,
    a: Addr,
    to: Addr,
    size: u32,
    steps: &mut Steps<L>,
)
    requires busy { IsBusy (tiling extents.old.segs.items) a.0 }
    requires to { IsBusy (tiling extents.old.segs.items) to.0 }
    requires room { size ≤ (extent_of (tiling extents.old.segs.items) to.0).size }
    requires whole { AreWhole extents.old.segs.items root.old.0 }
    ensures moved { IsMovedInto (layout_by extents.old.segs.items) (layout_by extents.new.segs.items)
        a.0 to.0 size }
    ensures kept { AreKept extents.new.segs.items root.new.0 }
    ensures least_steps { steps.old + 1 ≤ steps.new }
    ensures cost { GapsCost (tiling extents.old.segs.items) (tiling extents.new.segs.items)
        root.old.0 root.new.0 steps.old steps.new 32 1 1 }
{
    let own = extents.size_at(a);
    let len = if own < size { own } else { size };
    extents.copy(a, to, len);
    free_block(extents, root, a, steps);
}
