ghost use Rattle.std.specs.Prelude.{◌≡◌, ◌≤◌, [], IfErr, IfOk, IsErrOf, OnOk, length, vec_capacity};
ghost use Rattle.vc_base.specs.Prelude.{place_of, cleared_layout, compact_count, compacted_layout, HasOut, TookBack, empty_layout, HasBlock};
ghost use Rattle.vc_model.specs.Last.{last_alloc, last_free, last_need, last_resize};
ghost use Rattle.vc_model.specs.Sound.{IsSound};
ghost use Rattle.vc_last.specs.Chain.{IsLast};
ghost use Rattle.vc_last.specs.Read.{layout_by};
ghost use Rattle.vc_seg.specs.Answer.{Answers, Asks, Frees};
ghost use Rattle.vc_seg.specs.OneBlock.{IsBlockFreed, IsBlockKept, IsBlockPut, IsSize};
ghost use Rattle.vc_seg.specs.Stat.{layout_stat};

use crate::compact::compact_in;
use crate::free::free_in;
use crate::put::alloc_in;
use crate::resize::resize_in;
use crate::stat::stat_of;
use std::alloc::Global;
use vc_base::{Addr, OutOfMemory};
use vc_seg::{RegionFault, SegDisc, Segment, Stat, give_back_all};

/// A region of blocks one behind another over the segments of a discipline, after Vmalloc's `Vmlast`. The latest block
/// is the one of the live ones that was allocated latest, and only that is freed or resized. Sizes and offsets are in
/// bytes.
#[derive(Drop)]
pub struct Last {
    /// Its segments in order of lending. `open` takes the room of 1,023.
    pub segs: Vec<Segment>,
    /// The address of its latest block, `Addr::NONE` where it has none. The 16 bytes before a block say its size, its tag
    /// and the address of the one that was allocated before it, so the blocks are found from here back.
    pub latest: Addr,
    /// The discipline that lends its segments.
    pub disc: Box<dyn SegDisc>,
    /// Where the memory of its segments and of their list comes from.
    pub alloc: Global,
    /// The heads lead from the latest block to the first, each block lies lower than those allocated after it, and
    /// segments have numbers of their own.
    pub ghost kept: { ∥ IsLast segs.items latest.0 ∥₁ },
    /// Each segment that can be asked for has room.
    pub ghost reserved: { 1023 ≤ vec_capacity segs },
    /// No two blocks overlap, each lies in the usable part of a segment, and segments have numbers of their own.
    pub ghost sound: { ∥ IsSound (layout_by segs.items latest.0) ∥₁ },
}

impl Last {
    ghost use Rattle.vc_last.specs.Ask.{LacksPlace, MovesToNew};
    ghost use Rattle.vc_last.specs.Parts.{blocks_in, layout_of, segments_in};

    /// A region with no segment. It takes the memory of 1,023 slots, and no segment before the first block.
    pub fn open(
        alloc: Global,
        disc: Box<dyn SegDisc>,
    ) -> Result<Last, (OutOfMemory, Box<dyn SegDisc>)>
        ensures ok { IfOk result
            (λ l. (layout_of l ≡ empty_layout) × (state l.disc ≡ state disc)) }
        ensures err { IfErr result (λ e. state e.1 ≡ state disc) }
    {
        let Ok(segs) = Vec::with_capacity(alloc, 1023) else {
            return Err((OutOfMemory, disc));
        };
        Ok(Last {
            segs,
            latest: Addr::NONE,
            disc,
            alloc,
        })
    }

    /// A block of zeros, of 1 to 16,777,216 bytes: behind the last block of the newest segment, or at its offset 32 where
    /// it has none. Where it doesn't fit there, bytes are asked for, and then the same rule holds: a discipline that grows
    /// makes the newest segment longer, where there is one, and else a segment is lent, which is then the newest.
    /// `TooManySegments` comes where there are 1,023 segments, or where the newest would be longer than 33,554,432 bytes,
    /// `NoSegment` where the discipline refuses, and `OutOfMemory` only where bytes are asked for.
    pub fn alloc(&mut self, size: u32, tag: u32) -> Result<Addr, RegionFault>
        requires lent { HasOut (state self.old.disc) (segments_in self.old) }
        requires size { IsSize size }

        ensures answer { Answers
            (last_alloc (state self.old.disc).terms (layout_of self.old) tag size)
            result (layout_of self.old) (layout_of self.new) }
        ensures disc { Asks result (state self.old.disc) (state self.new.disc)
            (segments_in self.old) (segments_in self.new)
            (last_need (state self.old.disc).terms size) }
        ensures no_memory { IsErrOf result RegionFault.OutOfMemory
            → LacksPlace (state self.old.disc).terms (layout_of self.old) size }
        ensures put { IfOk result
            (λ a. IsBlockPut tag size a.0 (blocks_in self.old) (blocks_in self.new)) }
    {
        alloc_in(
            &mut self.segs,
            &mut self.latest,
            &mut self.disc,
            self.alloc,
            size,
            tag,
        )
    }

    /// Gives the block at that address another size, from 1 to 16,777,216 bytes, and answers its address. `NotLast` comes
    /// where it isn't the latest. It stays where it is if its new footprint lies in the usable part, and else moves if
    /// it may, and is the latest still. The first bytes of both sizes are kept, and the others are zero. `Fixed` comes
    /// where it can't stay and may not move; the other faults are those of `alloc`, and come only where it moves.
    pub fn resize(&mut self, a: Addr, size: u32, may_move: bool) -> Result<Addr, RegionFault>
        requires block { HasBlock (blocks_in self.old) a.0 }
        requires lent { HasOut (state self.old.disc) (segments_in self.old) }
        requires size { IsSize size }

        ensures answer { Answers
            (last_resize (state self.old.disc).terms (layout_of self.old)
            (place_of a.0) size may_move)
            result (layout_of self.old) (layout_of self.new) }
        ensures disc { Asks result (state self.old.disc) (state self.new.disc)
            (segments_in self.old) (segments_in self.new)
            (last_need (state self.old.disc).terms size) }
        ensures no_memory { IsErrOf result RegionFault.OutOfMemory
            → MovesToNew (state self.old.disc).terms (layout_of self.old)
            (place_of a.0) size may_move }
        ensures kept { IfOk result
            (λ to. IsBlockKept a.0 to.0 (blocks_in self.old) (blocks_in self.new)) }
    {
        resize_in(
            &mut self.segs,
            &mut self.latest,
            &mut self.disc,
            self.alloc,
            a,
            size,
            may_move,
        )
    }

    /// Frees the block at that address. `NotLast` comes where it isn't the latest. The one that was allocated before it
    /// is then the latest.
    pub fn free(&mut self, a: Addr) -> Result<(), RegionFault>
        requires block { HasBlock (blocks_in self.old) a.0 }
        ensures answer { Frees (last_free (layout_of self.old) (place_of a.0)) result
            (layout_of self.old) (layout_of self.new) }
        ensures disc { state self.new.disc ≡ state self.old.disc }
        ensures memory { ¬ IsErrOf result RegionFault.OutOfMemory }
        ensures freed { OnOk result
            (IsBlockFreed a.0 (blocks_in self.old) (blocks_in self.new)) }
    {
        free_in(&self.segs, &mut self.latest, a)
    }

    /// Frees all its blocks, and keeps its segments.
    pub fn clear(&mut self)
        ensures layout { layout_of self.new ≡ cleared_layout (layout_of self.old) }
        ensures disc { state self.new.disc ≡ state self.old.disc }
    {
        self.latest = Addr::NONE;
    }

    /// Gives back each segment without a block, in ascending order of number, and answers how many those were. The newest
    /// segment is then the one of the rest that was lent latest.
    pub fn compact(&mut self) -> u32
        requires { HasOut (state self.old.disc) (segments_in self.old) }
        ensures layout { layout_of self.new ≡ compacted_layout (layout_of self.old) }
        ensures count { result ≡ compact_count (layout_of self.old) }
        ensures disc { TookBack (state self.old.disc) (state self.new.disc)
            (segments_in self.old) (segments_in self.new) }
    {
        compact_in(&mut self.segs, self.latest, &mut self.disc)
    }

    /// Its numbers of blocks, gaps and segments, and their sizes in bytes. What a moved block left is a gap.
    pub fn stat(&self) -> Stat
        ensures { result ≡ layout_stat (layout_of self.now) }
    {
        stat_of(&self.segs, self.latest)
    }

    /// Gives all its segments back, in ascending order of number, and answers with the discipline and how many there
    /// were.
    pub fn close(self) -> (Box<dyn SegDisc>, u32)
        requires { HasOut (state self.disc) (segments_in self) }
        ensures disc { TookBack (state self.disc) (state result.0) (segments_in self) [] }
        ensures count { result.1 ≡ length (segments_in self) }
    {
        let Last {
            mut segs,
            latest: _,
            mut disc,
            alloc: _,
        } = self;
        let count = give_back_all(&mut segs, &mut disc);
        (disc, count)
    }
}
