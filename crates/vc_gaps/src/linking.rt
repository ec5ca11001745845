ghost use Rattle.std.specs.Prelude.{◌≡◌, ◌≢◌, ℕ, ◌+◌, ◌≤◌, List, length};
ghost use Rattle.vc_extent.specs.Tiling.{tiling};
ghost use Rattle.vc_gaps.specs.ButLinks.{StaysButLinks};
ghost use Rattle.vc_gaps.specs.Cost.{GapsCost};
ghost use Rattle.vc_gaps.specs.GapTree.{CanLinkGap, GapLinked, GapUnlinked, HasGapTree, IsInGaps};

use crate::{BySpan, Gaps};
use vc_base::{Addr, Steps};
use vc_extent::Extents;
use vc_splay::{link_after_equals, unlink};

/// Puts a free extent that isn't in the tree in, and answers the new root. It takes a step for its own span, and one for
/// each gap that it reads: at most as many as there are in the tree. Where few are read none is splayed.
pub fn link_gap<L>(extents: &mut Extents, root: Addr, a: Addr, steps: &mut Steps<L>) -> Addr
    requires { CanLinkGap (tiling extents.old.segs.items) root.0 a.0 }
    ensures linked { GapLinked (tiling extents.old.segs.items) (tiling extents.new.segs.items)
        root.0 a.0 result.0 }
    ensures rises { steps.old + 1 ≤ steps.new }
    ensures least_steps { root.0 ≢ 0 → steps.old + 2 ≤ steps.new }
    ensures most_steps { (xs : List ℕ) → HasGapTree (tiling extents.old.segs.items) root.0 xs
        → steps.new ≤ steps.old + 1 + length xs }
    ensures cost { GapsCost (tiling extents.old.segs.items) (tiling extents.new.segs.items)
        root.0 result.0 steps.old steps.new 8 1 1 }
    ensures rest { StaysButLinks extents.old.segs.items extents.new.segs.items }
{
    Addr(link_in(&mut Gaps { extents }, root.0, a.0, steps))
}

// The same, where the free extents are lent as nodes.
#[inline(always)]
fn link_in<'a, L>(gaps: &mut Gaps<'a>, root: u32, a: u32, steps: &mut Steps<L>) -> u32
    requires { CanLinkGap (tiling gaps.old.extents.now.segs.items) root a }
    ensures linked { GapLinked (tiling gaps.old.extents.now.segs.items)
        (tiling gaps.new.extents.now.segs.items) root a result }
    ensures rises { steps.old + 1 ≤ steps.new }
    ensures least_steps { root ≢ 0 → steps.old + 2 ≤ steps.new }
    ensures most_steps { (xs : List ℕ)
        → HasGapTree (tiling gaps.old.extents.now.segs.items) root xs
        → steps.new ≤ steps.old + 1 + length xs }
    ensures cost { GapsCost (tiling gaps.old.extents.now.segs.items)
        (tiling gaps.new.extents.now.segs.items) root result steps.old steps.new 8 1 1 }
    ensures same { gaps.new.extents.ghost_name ≡ gaps.old.extents.ghost_name }
    ensures rest { StaysButLinks gaps.old.extents.now.segs.items
        gaps.new.extents.now.segs.items }
{
    let span = gaps.extents.span_at(Addr(a), steps);
    link_after_equals(gaps, root, a, &BySpan { span, at: a }, true, steps)
}

/// Takes a free extent out of the tree that it is in, and answers the new root, `NONE` where no free extent is left in
/// it. What its links are then isn't said.
pub fn unlink_gap(extents: &mut Extents, root: Addr, a: Addr) -> Addr
    requires { IsInGaps (tiling extents.old.segs.items) root.0 a.0 }
    ensures unlinked { GapUnlinked (tiling extents.old.segs.items)
        (tiling extents.new.segs.items) root.0 a.0 result.0 }
    ensures cost { GapsCost (tiling extents.old.segs.items) (tiling extents.new.segs.items)
        root.0 result.0 0 0 12 0 0 }
    ensures rest { StaysButLinks extents.old.segs.items extents.new.segs.items }
{
    Addr(unlink_in(&mut Gaps { extents }, root.0, a.0))
}

// The same, where the free extents are lent as nodes.
#[inline(always)]
fn unlink_in<'a>(gaps: &mut Gaps<'a>, root: u32, a: u32) -> u32
    requires { IsInGaps (tiling gaps.old.extents.now.segs.items) root a }
    ensures unlinked { GapUnlinked (tiling gaps.old.extents.now.segs.items)
        (tiling gaps.new.extents.now.segs.items) root a result }
    ensures cost { GapsCost (tiling gaps.old.extents.now.segs.items)
        (tiling gaps.new.extents.now.segs.items) root result 0 0 12 0 0 }
    ensures same { gaps.new.extents.ghost_name ≡ gaps.old.extents.ghost_name }
    ensures rest { StaysButLinks gaps.old.extents.now.segs.items
        gaps.new.extents.now.segs.items }
{
    unlink(gaps, root, a)
}
