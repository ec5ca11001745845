ghost use Rattle.std.specs.Prelude.{◌≡◌, ◌≢◌, ℕ, ◌+◌, ◌*◌, ◌<◌, ◌≤◌, List, find, length, option_map, true};
ghost use Rattle.vc_base.specs.Prelude.{contains, some_address};
ghost use Rattle.vc_extent.specs.Tiling.{extent_of, tiling};
ghost use Rattle.vc_gaps.specs.ButLinks.{StaysButLinks};
ghost use Rattle.vc_gaps.specs.Cost.{FitSteps, GapsCost};
ghost use Rattle.vc_gaps.specs.Fits.{from_on, holds_at};
ghost use Rattle.vc_gaps.specs.GapStore.{is_free};
ghost use Rattle.vc_gaps.specs.GapTree.{GapFitted, HasGapTree, IsAmongGaps, IsGapTree};

use crate::{BySpan, Gaps};
use vc_base::{Addr, Steps};
use vc_extent::Extents;
use vc_seg::rounded_up;
use vc_splay::{find_least_at, next};

/// The new root, and the least gap of the tree, by span and then by address, that holds a block of that span at that
/// alignment; none where none does. The span is in bytes, at most 16,777,280, and the alignment from 1 to 4,096. At an
/// alignment of 32 each gap that isn't below the span holds the block. It takes one step for each gap whose span it reads:
/// at most as many as there are in the tree at an alignment of 32, and twice as many at others.
pub fn fit<L>(
    extents: &mut Extents,
    root: Addr,
    span: u32,
    align: u32,
    steps: &mut Steps<L>,
) -> (Addr, Option<Addr>)
    requires tree { IsGapTree (tiling extents.old.segs.items) root.0 }
    requires span { span ≤ 16777280 }
    requires least { 1 ≤ align }
    requires most { align ≤ 4096 }
    ensures fitted { GapFitted (tiling extents.old.segs.items) (tiling extents.new.segs.items)
        root.0 span align result.0.0 (option_map (λ a. a.0) result.1) }
    ensures rises { steps.old ≤ steps.new }
    ensures least_steps { root.0 ≢ 0 → steps.old + 1 ≤ steps.new }
    ensures most_steps { (xs : List ℕ) → HasGapTree (tiling extents.old.segs.items) root.0 xs
        → steps.new ≤ steps.old + 2 * length xs }
    ensures most_steps_by_32 { (xs : List ℕ)
        → HasGapTree (tiling extents.old.segs.items) root.0 xs
        → align ≡ 32 → steps.new ≤ steps.old + length xs }
    ensures cost { align ≡ 32 → GapsCost (tiling extents.old.segs.items) (tiling extents.new.segs.items)
        root.0 result.0.0 steps.old steps.new 12 0 0 }
    ensures rest { StaysButLinks extents.old.segs.items extents.new.segs.items }
{
    let (top, found) = fit_in(&mut Gaps { extents }, root.0, span, align, steps);
    (Addr(top), some_gap(found))
}

// An address, or none where it is 0.
#[inline(always)]
fn some_gap(a: u32) -> Option<Addr>
    ensures { option_map (λ r. r.0) result ≡ some_address a }
{
    if a == 0 { None } else { Some(Addr(a)) }
}

// The same, where the free extents are lent as nodes.
#[inline(always)]
fn fit_in<'a, L>(
    gaps: &mut Gaps<'a>,
    root: u32,
    span: u32,
    align: u32,
    steps: &mut Steps<L>,
) -> (u32, u32)
    requires tree { IsGapTree (tiling gaps.old.extents.now.segs.items) root }
    requires span { span ≤ 16777280 }
    requires least { 1 ≤ align }
    requires most { align ≤ 4096 }
    ensures fitted { GapFitted (tiling gaps.old.extents.now.segs.items)
        (tiling gaps.new.extents.now.segs.items)
        root span align result.0 (some_address result.1) }
    ensures steps { FitSteps (tiling gaps.old.extents.now.segs.items) root align steps.old steps.new }
    ensures cost { align ≡ 32 → GapsCost (tiling gaps.old.extents.now.segs.items)
        (tiling gaps.new.extents.now.segs.items) root result.0 steps.old steps.new 12 0 0 }
    ensures same { gaps.new.extents.ghost_name ≡ gaps.old.extents.ghost_name }
    ensures rest { StaysButLinks gaps.old.extents.now.segs.items
        gaps.new.extents.now.segs.items }
{
    let (top, first) = find_least_at(gaps, root, &BySpan { span, at: 0 }, true, steps);
    if align == 32 {
        return (top, first);
    }
    (top, first_that_holds(gaps, first, span, align, steps))
}

// The first gap of a tree, from one on, that holds such a block, or 0, in one step for each that it looks at.
#[inline(always)]
fn first_that_holds<'a, L>(
    gaps: &Gaps<'a>,
    first: u32,
    span: u32,
    align: u32,
    steps: &mut Steps<L>,
) -> u32
    requires within { first ≢ 0 → IsAmongGaps (tiling gaps.now.extents.now.segs.items) first }
    requires span { span ≤ 16777280 }
    requires least { 1 ≤ align }
    requires most { align ≤ 4096 }
    ensures found { (root : ℕ) (xs : List ℕ)
        → HasGapTree (tiling gaps.now.extents.now.segs.items) root xs
        → (first ≢ 0 → contains xs first ≡ true)
        → some_address result
        ≡ find (holds_at (tiling gaps.now.extents.now.segs.items) span align) (from_on first xs) }
    ensures least_steps { steps.old ≤ steps.new }
    ensures most_steps { (root : ℕ) (xs : List ℕ)
        → HasGapTree (tiling gaps.now.extents.now.segs.items) root xs
        → (first ≢ 0 → contains xs first ≡ true)
        → steps.new ≤ steps.old + length xs }
{
    let mut at = first;
    while at != 0 {
        if holds(gaps, at, span, align, steps) {
            return at;
        }
        at = next(gaps, at);
    }
    0
}

// Whether a gap holds such a block, in one step.
#[inline(always)]
fn holds<'a, L>(gaps: &Gaps<'a>, at: u32, span: u32, align: u32, steps: &mut Steps<L>) -> bool
    requires free { is_free (tiling gaps.now.extents.now.segs.items) at ≡ true }
    requires span { span ≤ 16777280 }
    requires least { 1 ≤ align }
    requires most { align ≤ 4096 }
    ensures value { result ≡ holds_at (tiling gaps.now.extents.now.segs.items) span align at }
    ensures small { (extent_of (tiling gaps.now.extents.now.segs.items) at).span < 4294967296 }
    ensures step { steps.new ≡ steps.old + 1 }
{
    let bytes = gaps.extents.span_at(Addr(at), steps);
    let off = Addr(at).off();
    rounded_up(off, align) - off + span <= bytes
}
