ghost use Rattle.std.specs.Prelude.{◌≡◌, IfOk, IsErrOf};
ghost use Rattle.vc_base.specs.Prelude.{place_of, HasOut, HasBlock};
ghost use Rattle.vc_model.specs.Pool.{pool_resize};
ghost use Rattle.vc_region.specs.Region.{RegionAsksToMove, region_need, region_resize};
ghost use Rattle.vc_seg.specs.Answer.{Answers};
ghost use Rattle.vc_seg.specs.OneBlock.{IsBlockKept, IsSize};
ghost use Rattle.vc_pool.specs.Parts.{pool_of};
ghost use Rattle.vc_seg.specs.Boxed.{disc_in_box};
ghost use Rattle.vc_region.specs.Parts.{AsksOfDisc, blocks_in, disc_in, region_of, segments_in};

use crate::region::{Region, Uncounted};
use vc_base::{Addr, Steps};
use vc_pool::Pool;
use vc_seg::{BoxedDisc, RegionFault, SegDisc};

// A block of a pool gets another size where it is.
fn resize_in_pool(pool: &mut Pool, a: Addr, size: u32) -> Result<Addr, RegionFault>
    requires block { HasBlock (pool_of pool.old).layout.blocks a.0 }
    requires size { IsSize size }
    ensures answer { Answers (λ _. pool_resize (pool_of pool.old) (place_of a.0) size) result
        (pool_of pool.old) (pool_of pool.new) }
    ensures disc { disc_in_box state pool.new.disc ≡ disc_in_box state pool.old.disc }
    ensures memory { ¬ IsErrOf result RegionFault.OutOfMemory }
    ensures address { IfOk result (λ to. to ≡ a) }
    ensures kept { IfOk result
        (λ _. IsBlockKept a.0 a.0 (pool_of pool.old).layout.blocks (pool_of pool.new).layout.blocks) }
{
    match pool.resize(a, size) {
        Ok(()) => Ok(a),
        Err(why) => Err(why),
    }
}

impl Region {
    /// Gives a block another size, from 1 to 16,777,216 bytes, and answers its address. It stays where it is if it can,
    /// and else moves if it may. The first bytes of both sizes are kept, and the others are zero. In a pool `PoolSize`
    /// comes where the size is above the element size, and nothing else. In a last region `NotLast` comes where the block
    /// isn't the one allocated latest. `Fixed` comes where it can't stay and may not move; the other faults are those of
    /// `alloc`, and come only where it moves, `OutOfMemory` only where a segment is asked for by that.
    pub fn resize(&mut self, a: Addr, size: u32, may_move: bool) -> Result<Addr, RegionFault>
        requires block { HasBlock (blocks_in self.old) a.0 }
        requires size { IsSize size }
        requires lent { HasOut (disc_in state self.old) (segments_in self.old) }

        ensures answer { Answers
            (region_resize (disc_in state self.old).terms
            (region_of self.old) (place_of a.0) size may_move)
            result (region_of self.old) (region_of self.new) }
        ensures disc { AsksOfDisc state result self.old self.new size 32 }
        ensures no_memory { IsErrOf result RegionFault.OutOfMemory
            → RegionAsksToMove (disc_in state self.old).terms
            (region_of self.old) a.0 size may_move }

        // The block keeps its tag, and the others stay.
        ensures kept { IfOk result
            (λ to. IsBlockKept a.0 to.0 (blocks_in self.old) (blocks_in self.new)) }
    {
        match self {
            Region::Best(best) => {
                let mut steps = Steps::<Uncounted>::new(best.alloc);
                best.resize(a, size, may_move, &mut steps)
            }
            Region::Pool(pool) => resize_in_pool(pool, a, size),
            Region::Last(last) => last.resize(a, size, may_move),
            Region::Debug(debug) => debug.resize(a, size, may_move),
            Region::Profile(profile) => profile.resize(a, size, may_move),
        }
    }
}
