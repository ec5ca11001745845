ghost use Rattle.std.specs.Prelude.{◌≡◌, ◌⊎◌, ◌+◌, ◌≤◌, IfOk, IfErr, IsErrOf, [], length, max};
ghost use Rattle.vc_base.specs.Prelude.{place_of, best_need, without_block_at, cleared_layout, compact_count, compacted_layout, HasOut, TookBack, empty_layout, IsAlign, HasBlock, next_segment, segment_at};
ghost use Rattle.vc_model.specs.Best.{best_alloc};
ghost use Rattle.vc_model.specs.Sound.{HasWholeBlocks, IsSound};
ghost use Rattle.vc_extent.specs.Tiling.{tiling};
ghost use Rattle.vc_best.specs.Ask.{AsksForSegment};
ghost use Rattle.vc_gaps.specs.GapTree.{HasGaps};
ghost use Rattle.vc_best.specs.Blocks.{layout_by};
ghost use Rattle.vc_best.specs.Free.{IsMerged};
ghost use Rattle.vc_seg.specs.Answer.{Answers, Asks};
ghost use Rattle.vc_seg.specs.OneBlock.{IsBlockAt, IsBlockFreed, IsBlockPut, IsGuardedSize, IsNextBlock};
ghost use Rattle.vc_seg.specs.Stat.{layout_stat};

use crate::compact::{clear, close, compact};
use crate::lend::put_by_asking;
use crate::stat::stat;
use crate::tree::{free_block, put_in_gap};
use crate::walk::{block_at, next_block};
use std::alloc::Global;
use vc_base::{Addr, OutOfMemory, Steps};
use vc_extent::Extents;
use vc_gaps::fit;
use vc_seg::{RegionFault, SegDisc, Stat, next_segment, segment_at, span_of};

// Marks the steps of calls that nobody counts.
struct Uncounted;

/// A region by exact best fit over the segments of a discipline, after Vmalloc's `Vmbest`. Sizes and offsets are in
/// bytes.
#[derive(Drop)]
pub struct Best {
    /// Its segments, tiled by extents. A busy one has a block.
    pub extents: Extents,
    /// The root of the tree of its gaps, whose links lie in them. `NONE` where there are none.
    pub root: Addr,
    /// The number of its blocks. 1,023 segments have at most 2^35 bytes, and a block takes 32 at least, so it is below 2^30.
    pub busy: u32,
    /// The discipline that lends its segments.
    pub disc: Box<dyn SegDisc>,
    /// Where the memory of its segments and lists comes from.
    pub alloc: Global,
    /// No two blocks overlap, each lies in the usable part of a segment, and segments have numbers of their own.
    pub ghost sound: { ∥ IsSound (layout_by extents.segs.items) ∥₁ },
    /// Each block has as many bytes as its size, at most 16,777,264, its address is a u32, and no segment has more than
    /// 33,554,432 bytes.
    pub ghost whole: { ∥ HasWholeBlocks (layout_by extents.segs.items) ∥₁ },
    /// No two free extents stand beside each other, so that they are the region's gaps.
    pub ghost merged: { ∥ IsMerged (tiling extents.segs.items) ∥₁ },
    /// The tree names each free extent once, by span and then by address, and nothing else.
    pub ghost gaps: { ∥ HasGaps (tiling extents.segs.items) root.0 [] ∥₁ },
    /// All its blocks are counted.
    pub ghost counted: { busy ≡ length (layout_by extents.segs.items).blocks },
}

impl Best {
    ghost use Rattle.vc_best.specs.Cost.{CallCosts, StepsForGaps, TreeCosts, least_of_alloc};
    ghost use Rattle.vc_best.specs.Parts.{blocks_in, layout_of, segments_in};

    /// A region with no segment. It takes none before the first block, but memory for the places of 1,023. Where that is
    /// wanting it answers the discipline.
    pub fn open(
        alloc: Global,
        disc: Box<dyn SegDisc>,
    ) -> Result<Best, (OutOfMemory, Box<dyn SegDisc>)>
        ensures ok { IfOk result
            (λ b. (layout_of b ≡ empty_layout) × (state b.disc ≡ state disc)) }
        ensures err { IfErr result (λ e. state e.1 ≡ state disc) }
    {
        match Extents::new(alloc) {
            Ok(extents) => Ok(Best {
                extents,
                root: Addr::NONE,
                busy: 0,
                disc,
                alloc,
            }),
            Err(fault) => Err((fault, disc)),
        }
    }

    /// A block of zeros: 1 to 16,777,264 bytes at an offset that the alignment divides, a power of two from 32 to 4,096.
    /// Where no gap holds it, the discipline is asked for bytes that hold it wherever it begins: for more of the segment lent
    /// latest where it makes segments longer and there is one, else for a new segment. `TooManySegments` comes exactly where
    /// no gap holds it and that segment would have more than 33,554,432 bytes with them, or a new one would be asked for and
    /// there are 1,023. `OutOfMemory` comes only where the discipline is asked.
    pub fn alloc<L>(
        &mut self,
        size: u32,
        align: u32,
        tag: u32,
        steps: &mut Steps<L>,
    ) -> Result<Addr, RegionFault>
        requires size { IsGuardedSize size }
        requires align { IsAlign align }
        requires lent { HasOut (state self.old.disc) (segments_in self.old) }

        ensures answer { Answers
            (best_alloc (state self.old.disc).terms (layout_of self.old) tag size align)
            result (layout_of self.old) (layout_of self.new) }
        ensures disc { Asks result (state self.old.disc) (state self.new.disc)
            (segments_in self.old) (segments_in self.new)
            (best_need (state self.old.disc).terms size align) }
        ensures no_memory { IsErrOf result RegionFault.OutOfMemory
            → AsksForSegment (state self.old.disc).terms (layout_of self.old) size align }

        // The block stands there, at an address of its own, and the others stay.
        ensures put { IfOk result
            (λ a. IsBlockPut tag size a.0 (blocks_in self.old) (blocks_in self.new)) }

        // What it costs at least, and at most at an alignment of 32: as one call, and by how many gaps the tree has before it.
        ensures least_steps { steps.old + least_of_alloc (layout_of self.old) result ≤ steps.new }
        ensures call { align ≡ 32 → CallCosts self.old self.new 1 steps.old steps.new }
        ensures cost { align ≡ 32 → TreeCosts self.old self.new steps.old steps.new 40 3 2 }
    {
        let extents = &mut self.extents;
        let root = &mut self.root;
        let (top, least) = fit(extents, *root, span_of(size), align, steps);
        *root = top;
        match least {
            Some(a) => {
                let to = put_in_gap(extents, root, a, size, align, tag, steps);
                self.busy += 1;
                Ok(to)
            }
            None => {
                let disc = &mut self.disc;
                match put_by_asking(extents, root, disc, self.alloc, size, align, tag, steps) {
                    Ok(to) => {
                        self.busy += 1;
                        Ok(to)
                    }
                    Err(fault) => Err(fault),
                }
            }
        }
    }

    /// Frees the block at that address.
    pub fn free<L>(&mut self, a: Addr, steps: &mut Steps<L>)
        requires block { HasBlock (blocks_in self.old) a.0 }
        ensures layout { layout_of self.new
            ≡ without_block_at (layout_of self.old) (place_of a.0) }
        ensures disc { state self.new.disc ≡ state self.old.disc }

        // It is the one block at that address that goes.
        ensures freed { IsBlockFreed a.0 (blocks_in self.old) (blocks_in self.new) }
        ensures least_steps { steps.old + 1 ≤ steps.new }
        ensures call { CallCosts self.old self.new 1 steps.old steps.new }
    {
        free_block(&mut self.extents, &mut self.root, a, steps);
        self.busy -= 1;
    }

    /// Frees all its blocks, and keeps its segments.
    pub fn clear<L>(&mut self, steps: &mut Steps<L>)
        ensures layout { layout_of self.new ≡ cleared_layout (layout_of self.old) }
        ensures disc { state self.new.disc ≡ state self.old.disc }
        ensures least_steps { StepsForGaps self.new steps.old steps.new }
        ensures call { CallCosts self.old self.new (max 1 (length (segments_in self.old)))
            steps.old steps.new }
    {
        clear(&mut self.extents, &mut self.root, steps);
        self.busy = 0;
    }

    /// Gives back each segment without a block, in ascending order of number, and answers how many those were.
    pub fn compact<L>(&mut self, steps: &mut Steps<L>) -> u32
        requires { HasOut (state self.old.disc) (segments_in self.old) }
        ensures layout { layout_of self.new ≡ compacted_layout (layout_of self.old) }
        ensures count { result ≡ compact_count (layout_of self.old) }
        ensures disc { TookBack (state self.old.disc) (state self.new.disc)
            (segments_in self.old) (segments_in self.new) }
        ensures call { CallCosts self.old self.new (max 1 (length (segments_in self.old)))
            steps.old steps.new }
    {
        compact(&mut self.extents, &mut self.root, &mut self.disc, steps)
    }

    /// The block whose bytes hold the byte at an offset of a segment, and the offset in the block. None where no block
    /// does.
    pub fn block_at(&self, seg: u32, off: u32) -> Option<(Addr, u32)>
        ensures { IsBlockAt result (seg, off) (blocks_in self.now) }
    {
        block_at(&self.extents, seg, off)
    }

    /// The size of the segment of that number, where it has a byte at that offset, else None.
    pub fn segment_at(&self, seg: u32, off: u32) -> Option<u32>
        ensures { result ≡ segment_at (seg, off) (segments_in self.now) }
    {
        segment_at(&self.extents.segs, seg, off)
    }

    /// The segment with the least number above one, as number and size. A walk begins with 0, and ends with None.
    pub fn next_segment(&self, after: u32) -> Option<(u32, u32)>
        ensures { result ≡ next_segment after (segments_in self.now) }
    {
        next_segment(&self.extents.segs, after)
    }

    /// The block behind one in order of addresses. A walk begins with `Addr::NONE`, and ends with None.
    pub fn next_block(&self, after: Addr) -> Option<Addr>
        requires { (after.0 ≡ 0) ⊎ HasBlock (blocks_in self.now) after.0 }
        ensures { IsNextBlock result after.0 (blocks_in self.now) }
    {
        next_block(&self.extents, after)
    }

    /// Its numbers of blocks, gaps and segments, and their sizes in bytes.
    pub fn stat(&self) -> Stat
        ensures { result ≡ layout_stat (layout_of self.now) }
    {
        let mut steps: Steps<Uncounted> = Steps::new(self.alloc);
        stat(&self.extents, &mut steps)
    }

    /// Gives all its segments back, in ascending order of number, and answers with the discipline and how many there
    /// were.
    pub fn close(self) -> (Box<dyn SegDisc>, u32)
        requires { HasOut (state self.disc) (segments_in self) }
        ensures disc { TookBack (state self.disc) (state result.0) (segments_in self) [] }
        ensures count { result.1 ≡ length (segments_in self) }
    {
        let Best {
            extents,
            root: _,
            busy: _,
            mut disc,
            alloc: _,
        } = self;
        let count = close(extents, &mut disc);
        (disc, count)
    }
}
