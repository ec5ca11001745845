ghost use Rattle.std.specs.Prelude.{◌≡◌, ◌+◌, ◌≤◌, Some, IfOk, IsErrOf};
ghost use Rattle.vc_base.specs.Prelude.{place_of, best_need, HasOut, HasBlock};
ghost use Rattle.vc_model.specs.Resize.{best_resize};
ghost use Rattle.vc_best.specs.Ask.{AsksToMove};
ghost use Rattle.vc_seg.specs.Answer.{Answers, Asks};
ghost use Rattle.vc_seg.specs.OneBlock.{IsBlockKept, IsGuardedSize};

use crate::best::Best;
use crate::stay::has_room;
use crate::take::take_over;
use crate::tree::resize_block;
use vc_base::{Addr, Steps};
use vc_seg::RegionFault;

impl Best {
    ghost use Rattle.vc_best.specs.Cost.{CallCosts, least_of_resize};
    ghost use Rattle.vc_best.specs.Parts.{blocks_in, layout_of, segments_in, size_in};

    /// Gives a block another size, from 1 to 16,777,264 bytes, and answers its address. It stays where it is if it can,
    /// and else moves if it may. The first bytes of both sizes are kept, and the others are zero. `Fixed` comes where it
    /// can't stay and may not move; the other faults are those of `alloc`, and come only where it moves.
    pub fn resize<L>(
        &mut self,
        a: Addr,
        size: u32,
        may_move: bool,
        steps: &mut Steps<L>,
    ) -> Result<Addr, RegionFault>
        requires block { HasBlock (blocks_in self.old) a.0 }
        requires size { IsGuardedSize size }
        requires lent { HasOut (state self.old.disc) (segments_in self.old) }

        ensures answer { Answers
            (best_resize (state self.old.disc).terms (layout_of self.old)
            (place_of a.0) size may_move)
            result (layout_of self.old) (layout_of self.new) }
        ensures disc { Asks result (state self.old.disc) (state self.new.disc)
            (segments_in self.old) (segments_in self.new)
            (best_need (state self.old.disc).terms size 32) }
        ensures no_memory { IsErrOf result RegionFault.OutOfMemory
            → AsksToMove (state self.old.disc).terms (layout_of self.old) a.0 size may_move }

        // The block has that size and keeps its tag, and the others stay.
        ensures sized { IfOk result (λ to. size_in self.new to.0 ≡ Some size) }
        ensures kept { IfOk result
            (λ to. IsBlockKept a.0 to.0 (blocks_in self.old) (blocks_in self.new)) }
        ensures least_steps { steps.old + least_of_resize (layout_of self.old) a.0 result ≤ steps.new }
        ensures call { CallCosts self.old self.new 1 steps.old steps.new }
    {
        if has_room(&self.extents, a, size, steps) {
            resize_block(&mut self.extents, &mut self.root, a, size, steps);
            return Ok(a);
        }
        if !may_move {
            return Err(RegionFault::Fixed);
        }
        let tag = self.extents.tag_at(a);
        match self.alloc(size, 32, tag, steps) {
            Ok(to) => {
                take_over(&mut self.extents, &mut self.root, a, to, size, steps);
                self.busy -= 1;
                Ok(to)
            }
            Err(fault) => Err(fault),
        }
    }
}
