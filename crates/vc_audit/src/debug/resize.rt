ghost use Rattle.std.specs.Prelude.{IfOk, IsErrOf};
ghost use Rattle.vc_base.specs.Prelude.{place_of, HasOut, HasBlock};
ghost use Rattle.vc_seg.specs.Answer.{Answers, Asks};
ghost use Rattle.vc_seg.specs.OneBlock.{IsBlockKept, IsSize};
ghost use Rattle.vc_audit.specs.Debug.{DebugAsksToMove, debug_need, debug_resize};
ghost use Rattle.vc_audit.specs.DebugParts.{blocks_in, debug_of, disc_in, segments_in};

use crate::debug::Debug;
use crate::debug::guard::{guarded_addr, user_addr, write_zeros};
use crate::plain::Uncounted;
use vc_base::{Addr, Steps};
use vc_seg::{BoxedDisc, RegionFault, SegDisc};

impl Debug {
    /// Gives a block another size, from 1 to 16,777,216 bytes, and answers its address. It stays where it is if it can,
    /// and else moves if it may. The first bytes of both sizes are kept, and the others are zero. The front guard stays
    /// as it is, the back guard is written anew, and a mark goes along. `Fixed` comes where it can't stay and may not
    /// move; the other faults are those of `alloc`, and come only where it moves.
    pub fn resize(&mut self, a: Addr, size: u32, may_move: bool) -> Result<Addr, RegionFault>
        requires block { HasBlock (blocks_in self.old) a.0 }
        requires size { IsSize size }
        requires lent { HasOut (disc_in state self.old) (segments_in self.old) }

        ensures answer { Answers
            (debug_resize (disc_in state self.old).terms
            (debug_of self.old) (place_of a.0) size may_move)
            result (debug_of self.old) (debug_of self.new) }
        ensures disc { Asks result (disc_in state self.old) (disc_in state self.new)
            (segments_in self.old) (segments_in self.new)
            (debug_need (disc_in state self.old).terms size) }
        ensures no_memory { IsErrOf result RegionFault.OutOfMemory
            → DebugAsksToMove (disc_in state self.old).terms
            (debug_of self.old) a.0 size may_move }

        // The block keeps its tag, and the others stay.
        ensures kept { IfOk result
            (λ to. IsBlockKept a.0 to.0 (blocks_in self.old) (blocks_in self.new)) }
    {
        let kept = self.size(a).min(size);
        let mut steps = Steps::<Uncounted>::new(self.best.alloc);
        match self
            .best
            .resize(guarded_addr(a), size + 48, may_move, &mut steps)
        {
            Ok(at) => {
                write_zeros(&mut self.best, at, kept, size);
                let to = user_addr(at);
                self.marks.moved(a, to);
                Ok(to)
            }
            Err(fault) => {
                self.marks.get(a);
                Err(fault)
            }
        }
    }
}
