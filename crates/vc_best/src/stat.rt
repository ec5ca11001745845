ghost use Rattle.std.specs.Prelude.{◌≡◌, [], ◌∷◌, map};
ghost use Rattle.vc_seg.specs.Segment.{pair_of};
ghost use Rattle.vc_seg.specs.Stat.{layout_stat};
ghost use Rattle.vc_extent.specs.Tiling.{IsNamed, IsThere, extent_of, extents_of, tiling};
ghost use Rattle.vc_seg.specs.Tally.{HasRoom, tally_of};
ghost use Rattle.vc_best.specs.Blocks.{layout_by};
ghost use Rattle.vc_best.specs.Counts.{HaveRoom, all_extents, counts_with, counts_of_none};
ghost use Rattle.vc_best.specs.Free.{IsMerged};

use vc_base::{Addr, Steps};
use vc_extent::Extents;
use vc_seg::{Segment, Stat, Tally};

// The blocks and the gaps of a region, counted.
#[derive(Clone, Copy)]
struct Counts {
    blocks: Tally,
    gaps: Tally,
}

// With one more extent.
fn count_extent<L>(extents: &Extents, counts: Counts, a: Addr, steps: &mut Steps<L>) -> Counts
    requires named { IsNamed (tiling extents.now.segs.items) a.0 }
    requires room { HaveRoom counts (extent_of (tiling extents.now.segs.items) a.0 ∷ []) }
    ensures { result ≡ counts_with counts (extent_of (tiling extents.now.segs.items) a.0 ∷ []) }
{
    let size = extents.size_at(a);
    if size == 0 {
        Counts {
            blocks: counts.blocks,
            gaps: counts.gaps.with(extents.span_at(a, steps)),
        }
    } else {
        Counts {
            blocks: counts.blocks.with(size),
            gaps: counts.gaps,
        }
    }
}

// With the extents of a segment.
fn count_segment<L>(extents: &Extents, counts: Counts, seg: u32, steps: &mut Steps<L>) -> Counts
    requires there { IsThere seg extents.now.segs.items }
    requires room { HaveRoom counts (extents_of seg (tiling extents.now.segs.items)) }
    ensures { result ≡ counts_with counts (extents_of seg (tiling extents.now.segs.items)) }
{
    let mut counts = counts;
    let mut next = Some(extents.first(seg));
    while let Some(a) = next {
        counts = count_extent(extents, counts, a, steps);
        next = extents.after(a);
    }
    counts
}

// All extents, counted.
fn count_all<L>(extents: &Extents, steps: &mut Steps<L>) -> Counts
    requires room { HaveRoom counts_of_none (all_extents (tiling extents.now.segs.items)) }
    ensures { result ≡ counts_with counts_of_none (all_extents (tiling extents.now.segs.items)) }
{
    let mut counts = Counts {
        blocks: Tally::new(),
        gaps: Tally::new(),
    };
    for segment in &extents.segs {
        counts = count_segment(extents, counts, segment.number(), steps);
    }
    counts
}

// The sizes of these segments.
fn tally_segments(segs: &[Segment]) -> Tally
    requires { HasRoom (tally_of []) (map (λ s. s.1) (map pair_of segs.now)) }
    ensures { result ≡ tally_of (map (λ s. s.1) (map pair_of segs.now)) }
{
    let mut tally = Tally::new();
    for segment in segs {
        tally = tally.with(segment.size());
    }
    tally
}

// The numbers of blocks, gaps and segments, and their sizes in bytes.
pub(crate) fn stat<L>(extents: &Extents, steps: &mut Steps<L>) -> Stat
    requires { IsMerged (tiling extents.now.segs.items) }
    ensures { result ≡ layout_stat (layout_by extents.now.segs.items) }
{
    let counts = count_all(extents, steps);
    let segments = tally_segments(&extents.segs);
    Stat {
        busy: counts.blocks.count,
        free: counts.gaps.count,
        sbusy: counts.blocks.bytes,
        sfree: counts.gaps.bytes,
        mbusy: counts.blocks.most,
        mfree: counts.gaps.most,
        segs: segments.count as u32,
        extent: segments.bytes,
    }
}
