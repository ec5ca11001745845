ghost use Rattle.std.specs.Prelude.{◌≡◌, ◌≢◌, ◌+◌, ◌≤◌, ◌%◌, IfOk, IfErr, IsErrOf, Some, None, Err, OnErr, OnOk, false, map};
ghost use Rattle.vc_base.specs.Prelude.{best_need, HasOut, IsSegmentSize, TooMany, ask, span};
ghost use Rattle.vc_model.specs.Best.{place_in};
ghost use Rattle.vc_model.specs.Discipline.{Served};
ghost use Rattle.vc_model.specs.Segments.{growing};
ghost use Rattle.vc_seg.specs.Answer.{Asks};
ghost use Rattle.vc_seg.specs.Segment.{pair_of};
ghost use Rattle.vc_seg.specs.Lend.{IsAsked, IsNoGrant};
ghost use Rattle.vc_extent.specs.Tiling.{tiling};
ghost use Rattle.vc_gaps.specs.Cost.{GapsCost};
ghost use Rattle.vc_best.specs.Blocks.{layout_by};
ghost use Rattle.vc_best.specs.Standing.{AreAllowed, AreWhole, IsLentFree, IsMoreFree, IsPutByAsking};

use crate::tree::{put_at_end, put_in_out};
use std::alloc::Global;
use vc_base::{Addr, Steps};
use vc_extent::Extents;
use vc_seg::{
    LendFault, RegionFault, SegDisc, growing_of, lend_segment, round_of, rounded_up, span_of,
};

// A segment has at most so many bytes.
const SIZE_LIMIT: u32 = 33_554_432;

// The bytes that are asked for where a block has no place: they hold it wherever they begin.
fn need_of(disc: &Box<dyn SegDisc>, size: u32, align: u32) -> u32
    requires { AreAllowed size align }
    ensures value { result ≡ best_need (state disc.now).terms size align }
    ensures legal { IsSegmentSize result }
    ensures multiple { result % (state disc.now).terms.round ≡ 0 }
    ensures fits { span size + align ≤ result }
{
    rounded_up(span_of(size) + align, round_of(disc))
}

// Asks for a segment of that many bytes under the least number that no segment has, and puts it behind the others as one
// free extent. It answers the number.
fn lend_next(
    extents: &mut Extents,
    disc: &mut Box<dyn SegDisc>,
    alloc: Global,
    bytes: u32,
) -> Result<u32, RegionFault>
    requires new { growing (state disc.old).terms (map pair_of extents.old.segs.items) ≡ None }
    requires bytes { IsSegmentSize bytes }
    requires multiple { bytes % (state disc.old).terms.round ≡ 0 }

    ensures lent { IfOk result
        (λ n. IsLentFree (state disc.old).terms extents.old.segs.items extents.new.segs.items n bytes) }
    ensures fault { IfErr result (IsNoGrant (state disc.old).terms bytes (map pair_of extents.old.segs.items)) }
    ensures no_memory { IsErrOf result RegionFault.OutOfMemory
        → ask (state disc.old).terms bytes (map pair_of extents.old.segs.items) false ≢ TooMany }
    ensures same { OnErr result (extents.new ≡ extents.old) }
    ensures disc { IsAsked result (state disc.old) (state disc.new) bytes }
{
    let Some(number) = extents.lowest_unused() else {
        return Err(RegionFault::TooManySegments);
    };
    match lend_segment(disc, alloc, number, bytes) {
        Ok(segment) => {
            extents.add(segment);
            Ok(number)
        }
        Err(fault) => Err(fault),
    }
}

// A block of zeros, which has no place, in a segment that the discipline lends for it.
fn put_in_new<L>(
    extents: &mut Extents,
    root: &mut Addr,
    disc: &mut Box<dyn SegDisc>,
    alloc: Global,
    size: u32,
    align: u32,
    tag: u32,
    steps: &mut Steps<L>,
) -> Result<Addr, RegionFault>
    requires allowed { AreAllowed size align }
    requires whole { AreWhole extents.old.segs.items root.old.0 }
    requires lent { HasOut (state disc.old) (layout_by extents.old.segs.items).segments }
    requires new { growing (state disc.old).terms (map pair_of extents.old.segs.items) ≡ None }
    requires none { place_in (layout_by extents.old.segs.items) size align ≡ None }
    ensures put { IsPutByAsking (state disc.old).terms result (layout_by extents.old.segs.items)
        (layout_by extents.new.segs.items) tag size align }
    ensures disc { Asks result (state disc.old) (state disc.new)
        (layout_by extents.old.segs.items).segments (layout_by extents.new.segs.items).segments
        (best_need (state disc.old).terms size align) }
    ensures whole { AreWhole extents.new.segs.items root.new.0 }
    ensures rises { steps.old ≤ steps.new }
    ensures least_steps { IfOk result (λ _. steps.old + 1 ≤ steps.new) }
    ensures cost { GapsCost (tiling extents.old.segs.items) (tiling extents.new.segs.items)
        root.old.0 root.new.0 steps.old steps.new 16 3 2 }
{
    let bytes = need_of(disc, size, align);
    match lend_next(extents, disc, alloc, bytes) {
        Ok(number) => {
            let a = Addr::new(number, 32);
            Ok(put_in_out(extents, root, a, size, align, tag, steps))
        }
        Err(fault) => Err(fault),
    }
}

// Asks for so many bytes more of the segment of that number and size, which was lent latest, and makes them a free extent
// behind its others. It answers the address of that. Where the segment would have more than a segment can, the discipline
// isn't asked.
fn widen_last(
    extents: &mut Extents,
    disc: &mut Box<dyn SegDisc>,
    alloc: Global,
    number: u32,
    had: u32,
    more: u32,
) -> Result<Addr, RegionFault>
    requires last { growing (state disc.old).terms (map pair_of extents.old.segs.items)
        ≡ Some (number, had) }
    requires lent { HasOut (state disc.old) (map pair_of extents.old.segs.items) }
    requires bytes { IsSegmentSize more }
    requires multiple { more % (state disc.old).terms.round ≡ 0 }

    ensures more { IfOk result (λ a. IsMoreFree (state disc.old).terms
        extents.old.segs.items extents.new.segs.items number had more a.0) }
    ensures served { OnOk result (Served (state disc.old) (state disc.new)
        (map pair_of extents.old.segs.items) (map pair_of extents.new.segs.items) more) }
    ensures fault { IfErr result (IsNoGrant (state disc.old).terms more (map pair_of extents.old.segs.items)) }
    ensures no_memory { IsErrOf result RegionFault.OutOfMemory
        → ask (state disc.old).terms more (map pair_of extents.old.segs.items) false ≢ TooMany }
    ensures same { OnErr result (extents.new ≡ extents.old) }
    ensures disc { IfErr result (λ e. IsAsked (Err e) (state disc.old) (state disc.new) more) }
{
    if had + more > SIZE_LIMIT {
        return Err(RegionFault::TooManySegments);
    }
    match extents.widen(alloc, number, disc, more) {
        Ok(end) => Ok(end),
        Err(LendFault::Refused) => Err(RegionFault::NoSegment),
        Err(LendFault::OutOfMemory) => Err(RegionFault::OutOfMemory),
    }
}

// A block of zeros, which has no place, in the segment of that number and size, which the discipline makes longer for it.
fn put_in_longer<L>(
    extents: &mut Extents,
    root: &mut Addr,
    disc: &mut Box<dyn SegDisc>,
    alloc: Global,
    last: (u32, u32),
    size: u32,
    align: u32,
    tag: u32,
    steps: &mut Steps<L>,
) -> Result<Addr, RegionFault>
    requires allowed { AreAllowed size align }
    requires whole { AreWhole extents.old.segs.items root.old.0 }
    requires lent { HasOut (state disc.old) (layout_by extents.old.segs.items).segments }
    requires grows { growing (state disc.old).terms (map pair_of extents.old.segs.items) ≡ Some last }
    requires none { place_in (layout_by extents.old.segs.items) size align ≡ None }
    ensures put { IsPutByAsking (state disc.old).terms result (layout_by extents.old.segs.items)
        (layout_by extents.new.segs.items) tag size align }
    ensures disc { Asks result (state disc.old) (state disc.new)
        (layout_by extents.old.segs.items).segments (layout_by extents.new.segs.items).segments
        (best_need (state disc.old).terms size align) }
    ensures whole { AreWhole extents.new.segs.items root.new.0 }
    ensures rises { steps.old ≤ steps.new }
    ensures least_steps { IfOk result (λ _. steps.old + 1 ≤ steps.new) }
    ensures cost { GapsCost (tiling extents.old.segs.items) (tiling extents.new.segs.items)
        root.old.0 root.new.0 steps.old steps.new 28 3 2 }
{
    let bytes = need_of(disc, size, align);
    match widen_last(extents, disc, alloc, last.0, last.1, bytes) {
        Ok(end) => Ok(put_at_end(extents, root, end, size, align, tag, steps)),
        Err(fault) => Err(fault),
    }
}

// A block of zeros, which has no place, in bytes that the discipline is asked for: of the segment lent latest where it makes
// that longer, and else of a new one.
pub(crate) fn put_by_asking<L>(
    extents: &mut Extents,
    root: &mut Addr,
    disc: &mut Box<dyn SegDisc>,
    alloc: Global,
    size: u32,
    align: u32,
    tag: u32,
    steps: &mut Steps<L>,
) -> Result<Addr, RegionFault>
    requires allowed { AreAllowed size align }
    requires whole { AreWhole extents.old.segs.items root.old.0 }
    requires lent { HasOut (state disc.old) (layout_by extents.old.segs.items).segments }
    requires none { place_in (layout_by extents.old.segs.items) size align ≡ None }
    ensures put { IsPutByAsking (state disc.old).terms result (layout_by extents.old.segs.items)
        (layout_by extents.new.segs.items) tag size align }
    ensures disc { Asks result (state disc.old) (state disc.new)
        (layout_by extents.old.segs.items).segments (layout_by extents.new.segs.items).segments
        (best_need (state disc.old).terms size align) }
    ensures whole { AreWhole extents.new.segs.items root.new.0 }
    ensures rises { steps.old ≤ steps.new }
    ensures least_steps { IfOk result (λ _. steps.old + 1 ≤ steps.new) }
    ensures cost { GapsCost (tiling extents.old.segs.items) (tiling extents.new.segs.items)
        root.old.0 root.new.0 steps.old steps.new 28 3 2 }
{
    match growing_of(&extents.segs, disc) {
        Some(last) => put_in_longer(extents, root, disc, alloc, last, size, align, tag, steps),
        None => put_in_new(extents, root, disc, alloc, size, align, tag, steps),
    }
}
