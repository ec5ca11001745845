ghost use Rattle.std.specs.Prelude.{IfOk, IsErrOf};
ghost use Rattle.vc_base.specs.Prelude.{HasOut};
ghost use Rattle.vc_seg.specs.Answer.{Answers, Asks};
ghost use Rattle.vc_seg.specs.OneBlock.{IsBlockPut, IsSize};
ghost use Rattle.vc_audit.specs.Debug.{DebugAsks, debug_alloc, debug_need};
ghost use Rattle.vc_audit.specs.DebugParts.{blocks_in, debug_of, disc_in, segments_in};

use crate::debug::Debug;
use crate::debug::guard::{user_addr, write_guards};
use crate::plain::Uncounted;
use vc_base::{Addr, Steps};
use vc_seg::{BoxedDisc, RegionFault, SegDisc};

impl Debug {
    /// A block of zeros between whole guards: 1 to 16,777,216 bytes of the user, at an offset that 32 divides. Where no
    /// gap holds it with its guards, a segment is asked for. The faults are those of a best region.
    pub fn alloc(&mut self, size: u32, tag: u32) -> Result<Addr, RegionFault>
        requires size { IsSize size }
        requires lent { HasOut (disc_in state self.old) (segments_in self.old) }

        ensures answer { Answers
            (debug_alloc (disc_in state self.old).terms (debug_of self.old) tag size)
            result (debug_of self.old) (debug_of self.new) }
        ensures disc { Asks result (disc_in state self.old) (disc_in state self.new)
            (segments_in self.old) (segments_in self.new)
            (debug_need (disc_in state self.old).terms size) }
        ensures no_memory { IsErrOf result RegionFault.OutOfMemory
            → DebugAsks (disc_in state self.old).terms (debug_of self.old) size }

        // The block stands there, at an address of its own, and the others stay.
        ensures put { IfOk result
            (λ a. IsBlockPut tag size a.0 (blocks_in self.old) (blocks_in self.new)) }
    {
        let mut steps = Steps::<Uncounted>::new(self.best.alloc);
        let at = self.best.alloc(size + 48, 32, tag, &mut steps)?;
        write_guards(&mut self.best, at, size);
        Ok(user_addr(at))
    }
}
