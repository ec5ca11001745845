ghost use Rattle.std.specs.Prelude.{◌≡◌, [], None, IfErr, IfOk, IsErrOf, OnErr, OnOk, length};
ghost use Rattle.vc_base.specs.Prelude.{place_of, compact_count, HasOut, TookBack, HasBlock, next_segment, segment_at};
ghost use Rattle.vc_model.specs.Outcome.{Done};
ghost use Rattle.vc_model.specs.Pool.{IsPoolSound, empty_pool, pool_alloc, pool_clear, pool_compact, pool_free, pool_need, pool_resize};
ghost use Rattle.vc_pool.specs.Ask.{LacksCell};
ghost use Rattle.vc_pool.specs.Read.{pool_by};
ghost use Rattle.vc_pool.specs.Stat.{pool_stat};
ghost use Rattle.vc_pool.specs.Cells.Kept.{IsPool};
ghost use Rattle.vc_pool.specs.Cells.Place.{cells_in};
ghost use Rattle.vc_seg.specs.Answer.{Answers, Asks, IsRefusal};
ghost use Rattle.vc_seg.specs.OneBlock.{IsBlockAt, IsBlockFreed, IsBlockKept, IsBlockPut, IsNextBlock, IsSize};

use crate::cells::{PoolSegment, clear_all, put_back, resize_at};
use crate::compact::compact_in;
use crate::count::stat_of;
use crate::put::alloc_in;
use crate::walks::{block_in, next_in};
use std::alloc::Global;
use vc_base::{Addr, OutOfMemory};
use vc_seg::{RegionFault, SegDisc, Stat, give_back_all, next_segment, segment_at};

/// A region of cells of one size over the segments of a discipline, after Vmalloc's `Vmpool`. The first block that is
/// granted sets the element size, which stays until `close`. Sizes and offsets are in bytes.
#[derive(Drop)]
pub struct Pool {
    /// Its segments with their cells, in order of lending.
    pub segs: Vec<PoolSegment>,
    /// The element size, 0 while none is set.
    pub element: u32,
    /// The address of the cell freed last, `Addr::NONE` where none is free. The first 8 bytes of a freed cell name the one
    /// that was freed before it.
    pub freed: Addr,
    /// The discipline that lends its segments.
    pub disc: Box<dyn SegDisc>,
    /// Where the memory of its segments, of their list and of the tables of their cells comes from.
    pub alloc: Global,
    /// Segments have numbers of their own and a pair for each cell, those with a carved cell stand first and are full but
    /// the last, and the freed cells are carved ones without a block, each of them once.
    pub ghost kept: { ∥ IsPool element (cells_in segs.items) freed.0 ∥₁ },
    /// No two blocks overlap, each lies in a segment, at a place of its own, and segments have numbers of their own.
    pub ghost sound: { ∥ IsPoolSound (pool_by segs.items element freed.0) ∥₁ },
}

impl Pool {
    ghost use Rattle.vc_pool.specs.Parts.{blocks_in, pool_of, segments_in};

    /// A region with no segment and no element size. It takes no segment before the first block.
    pub fn open(
        alloc: Global,
        disc: Box<dyn SegDisc>,
    ) -> Result<Pool, (OutOfMemory, Box<dyn SegDisc>)>
        ensures ok { IfOk result (λ p. (pool_of p ≡ empty_pool) × (state p.disc ≡ state disc)) }
        ensures err { IfErr result (λ e. state e.1 ≡ state disc) }
    {
        Ok(Pool {
            segs: Vec::new(alloc),
            element: 0,
            freed: Addr::NONE,
            disc,
            alloc,
        })
    }

    /// A block of zeros: 1 to 16,777,216 bytes, in the cell freed last, else in the lowest uncarved cell of the first
    /// segment that has one. Where there is none, the discipline is asked for more: for a segment, or for bytes behind those
    /// of the one lent latest, where it makes segments longer. `TooManySegments` comes exactly where the region has 1,023
    /// segments, or where that one would have more than 33,554,432 bytes, and `NoSegment` and `OutOfMemory` come only else.
    /// `PoolSize` comes only where the size is above the element size.
    pub fn alloc(&mut self, size: u32, tag: u32) -> Result<Addr, RegionFault>
        requires lent { HasOut (state self.old.disc) (segments_in self.old) }
        requires size { IsSize size }
        ensures answer { Answers
            (pool_alloc (state self.old.disc).terms (pool_of self.old) tag size)
            result (pool_of self.old) (pool_of self.new) }
        ensures disc { Asks result (state self.old.disc) (state self.new.disc)
            (segments_in self.old) (segments_in self.new)
            (pool_need (state self.old.disc).terms (pool_of self.old) size) }
        ensures no_memory { IsErrOf result RegionFault.OutOfMemory
            → LacksCell (state self.old.disc).terms (pool_of self.old) size }
        ensures put { IfOk result
            (λ a. IsBlockPut tag size a.0 (blocks_in self.old) (blocks_in self.new)) }
    {
        alloc_in(
            &mut self.segs,
            &mut self.element,
            &mut self.freed,
            &mut self.disc,
            self.alloc,
            size,
            tag,
        )
    }

    /// Gives the block at that address another size, from 1 to 16,777,216 bytes, where it is. The first bytes of both
    /// sizes are kept, and the others are zero. `PoolSize` comes only where the size is above the element size.
    pub fn resize(&mut self, a: Addr, size: u32) -> Result<(), RegionFault>
        requires block { HasBlock (blocks_in self.old) a.0 }
        requires size { IsSize size }
        ensures ok { OnOk result (pool_resize (pool_of self.old) (place_of a.0) size
            ≡ Done (record { at = place_of a.0; region = pool_of self.new; granted = None })) }
        ensures err { IfErr result
            (IsRefusal (λ _. pool_resize (pool_of self.old) (place_of a.0) size)) }
        ensures same { OnErr result (pool_of self.new ≡ pool_of self.old) }
        ensures disc { state self.new.disc ≡ state self.old.disc }
        ensures memory { ¬ IsErrOf result RegionFault.OutOfMemory }
        ensures kept { OnOk result
            (IsBlockKept a.0 a.0 (blocks_in self.old) (blocks_in self.new)) }
    {
        if size > self.element {
            return Err(RegionFault::PoolSize);
        }
        resize_at(&mut self.segs, self.element, a, size);
        Ok(())
    }

    /// Frees the block at that address. Its cell is the one freed last.
    pub fn free(&mut self, a: Addr)
        requires { HasBlock (blocks_in self.old) a.0 }
        ensures pool { pool_of self.new ≡ pool_free (pool_of self.old) (place_of a.0) }
        ensures disc { state self.new.disc ≡ state self.old.disc }
        ensures freed { IsBlockFreed a.0 (blocks_in self.old) (blocks_in self.new) }
    {
        put_back(&mut self.segs, &mut self.freed, self.element, a);
    }

    /// Frees all its blocks, and keeps its segments and the element size. Every cell is uncarved.
    pub fn clear(&mut self)
        ensures pool { pool_of self.new ≡ pool_clear (pool_of self.old) }
        ensures disc { state self.new.disc ≡ state self.old.disc }
    {
        clear_all(&mut self.segs);
        self.freed = Addr::NONE;
    }

    /// Gives back each segment without a block, in ascending order of number, and answers how many those were. The cells
    /// of those segments are freed no more, and the order of the others stays.
    pub fn compact(&mut self) -> u32
        requires { HasOut (state self.old.disc) (segments_in self.old) }
        ensures pool { pool_of self.new ≡ pool_compact (pool_of self.old) }
        ensures count { result ≡ compact_count (pool_of self.old).layout }
        ensures disc { TookBack (state self.old.disc) (state self.new.disc)
            (segments_in self.old) (segments_in self.new) }
    {
        compact_in(
            &mut self.segs,
            &mut self.freed,
            self.element,
            &mut self.disc,
        )
    }

    /// Its numbers of blocks, cells and segments, and their sizes in bytes: `free` counts the cells that no block is in,
    /// and `mfree` is the cell, or 0 with no such cell.
    pub fn stat(&self) -> Stat
        ensures { result ≡ pool_stat (pool_of self.now) }
    {
        stat_of(&self.segs, self.element)
    }

    /// Gives all its segments back, in ascending order of number, and answers with the discipline and how many there
    /// were.
    pub fn close(self) -> (Box<dyn SegDisc>, u32)
        requires { HasOut (state self.disc) (segments_in self) }
        ensures disc { TookBack (state self.disc) (state result.0) (segments_in self) [] }
        ensures count { result.1 ≡ length (segments_in self) }
    {
        let Pool {
            mut segs,
            element: _,
            freed: _,
            mut disc,
            alloc: _,
        } = self;
        let count = give_back_all(&mut segs, &mut disc);
        (disc, count)
    }

    /// The block whose bytes hold the byte at an offset of a segment, and the offset in the block. None where no block
    /// does.
    pub fn block_at(&self, seg: u32, off: u32) -> Option<(Addr, u32)>
        ensures { IsBlockAt result (seg, off) (blocks_in self.now) }
    {
        block_in(&self.segs, self.element, seg, off)
    }

    /// The size of the segment of that number, where it has a byte at that offset, else None.
    pub fn segment_at(&self, seg: u32, off: u32) -> Option<u32>
        ensures { result ≡ segment_at (seg, off) (segments_in self.now) }
    {
        segment_at(&self.segs, seg, off)
    }

    /// The segment with the least number above one, as number and size. A walk begins with 0, and ends with None.
    pub fn next_segment(&self, after: u32) -> Option<(u32, u32)>
        ensures { result ≡ next_segment after (segments_in self.now) }
    {
        next_segment(&self.segs, after)
    }

    /// The block behind one in order of addresses. A walk begins with `Addr::NONE`, and ends with None.
    pub fn next_block(&self, after: Addr) -> Option<Addr>
        ensures { IsNextBlock result after.0 (blocks_in self.now) }
    {
        next_in(&self.segs, self.element, after)
    }
}
