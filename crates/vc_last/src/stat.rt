ghost use Rattle.std.specs.Prelude.{◌≡◌, ◌≤◌, ℕ, ◌+◌, ◌-◌, [], map};
ghost use Rattle.vc_model.specs.Gap.{bytes_of};
ghost use Rattle.vc_model.specs.Layout.{footprints};
ghost use Rattle.vc_seg.specs.Tally.{HasRoom, tallied_all, tally_of};
ghost use Rattle.vc_seg.specs.Segment.{pair_of};
ghost use Rattle.vc_seg.specs.Stat.{layout_stat};
ghost use Rattle.vc_last.specs.Chain.{IsLast, blocks_from};
ghost use Rattle.vc_last.specs.Head.{HasHeadAt, block_of};
ghost use Rattle.vc_last.specs.Read.{layout_by};
ghost use Rattle.vc_last.specs.Gaps.{gap_end_below, gaps_left, gaps_left_in, run_sizes, sizes_above};

use crate::head::{before_at, size_at};
use vc_base::Addr;
use vc_seg::{Segment, Stat, Tally, span_of, tally_segments};

// The sizes of the blocks from the latest back.
fn tally_blocks(segs: &[Segment], latest: Addr) -> Tally
    requires kept { IsLast segs.now latest.0 }
    requires room { HasRoom (tally_of []) (map (λ b. b.size) (blocks_from segs.now latest.0)) }
    ensures { result ≡ tally_of (map (λ b. b.size) (blocks_from segs.now latest.0)) }
{
    let mut tally = Tally::new();
    let mut at = latest;
    while at.0 != 0 {
        tally = tally.with(size_at(segs, at));
        at = before_at(segs, at);
    }
    tally
}

// The tally so far with the run from one offset to another, where it has a byte.
fn with_run(tally: Tally, from: u32, to: u32) -> Tally
    requires { HasRoom tally (run_sizes from to) }
    ensures { result ≡ tallied_all tally (run_sizes from to) }
{
    if from < to {
        tally.with(to - from)
    } else {
        tally
    }
}

// The tally so far with the gap that a block leaves below an offset of the segment of that number, where it is there, and
// where the gap before the block ends.
fn with_gap(tally: Tally, segs: &[Segment], a: Addr, number: u32, to: u32) -> (Tally, u32)
    requires block { HasHeadAt segs.now a.0 }
    requires room { HasRoom tally (sizes_above number to (block_of segs.now a.0)) }
    ensures tally { result.0 ≡ tallied_all tally (sizes_above number to (block_of segs.now a.0)) }
    ensures to { result.1 ≡ gap_end_below number to (block_of segs.now a.0) }
{
    if a.seg() != number {
        return (tally, to);
    }
    let from = a.off() - 16;
    (with_run(tally, from + span_of(size_at(segs, a)), to), from)
}

// The tally so far with the gaps that the blocks leave in the segment of that number and that many bytes, from its end
// back.
fn tally_gaps_in(tally: Tally, segs: &[Segment], latest: Addr, number: u32, bytes: u32) -> Tally
    requires kept { IsLast segs.now latest.0 }
    requires least { 64 ≤ bytes }
    requires most { bytes ≤ 33554432 }
    requires room { HasRoom tally
        (map bytes_of (gaps_left_in (footprints (blocks_from segs.now latest.0)) (number, bytes))) }
    ensures { result ≡ tallied_all tally
        (map bytes_of (gaps_left_in (footprints (blocks_from segs.now latest.0)) (number, bytes))) }
{
    let mut tally = tally;
    let mut to = bytes - 16;
    let mut at = latest;
    while at.0 != 0 {
        let (more, end) = with_gap(tally, segs, at, number, to);
        tally = more;
        to = end;
        at = before_at(segs, at);
    }
    with_run(tally, 16, to)
}

// The gaps that the blocks leave in the segments.
fn tally_gaps(segs: &[Segment], latest: Addr) -> Tally
    requires kept { IsLast segs.now latest.0 }
    requires room { HasRoom (tally_of []) (map bytes_of
        (gaps_left (map pair_of segs.now) (footprints (blocks_from segs.now latest.0)))) }
    ensures { result ≡ tally_of (map bytes_of
        (gaps_left (map pair_of segs.now) (footprints (blocks_from segs.now latest.0)))) }
{
    let mut tally = Tally::new();
    for segment in segs {
        tally = tally_gaps_in(tally, segs, latest, segment.number(), segment.size());
    }
    tally
}

// The numbers of blocks, gaps and segments, and their sizes in bytes.
pub(crate) fn stat_of(segs: &[Segment], latest: Addr) -> Stat
    requires { IsLast segs.now latest.0 }
    ensures { result ≡ layout_stat (layout_by segs.now latest.0) }
{
    let blocks = tally_blocks(segs, latest);
    let gaps = tally_gaps(segs, latest);
    let segments = tally_segments(segs);
    Stat {
        busy: blocks.count,
        free: gaps.count,
        sbusy: blocks.bytes,
        sfree: gaps.bytes,
        mbusy: blocks.most,
        mfree: gaps.most,
        segs: segs.len() as u32,
        extent: segments.bytes,
    }
}
