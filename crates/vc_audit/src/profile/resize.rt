ghost use Rattle.std.specs.Prelude.{IfOk, IsErrOf};
ghost use Rattle.vc_base.specs.Prelude.{place_of, best_need, HasOut, HasBlock};
ghost use Rattle.vc_seg.specs.Answer.{Answers, Asks};
ghost use Rattle.vc_seg.specs.OneBlock.{IsBlockKept, IsSize};
ghost use Rattle.vc_best.specs.Ask.{AsksToMove};
ghost use Rattle.vc_audit.specs.Profile.{profile_resize};
ghost use Rattle.vc_audit.specs.ProfileParts.{blocks_in, disc_in, layout_in, profile_of, segments_in};

use crate::plain::Uncounted;
use crate::profile::Profile;
use crate::profile::rows::{row_at, set_row};
use vc_base::{Addr, Steps};
use vc_seg::{BoxedDisc, RegionFault, SegDisc};

impl Profile {
    /// Gives a block another size, from 1 to 16,777,216 bytes, and answers its address. It stays where it is if it can,
    /// and else moves if it may. The first bytes of both sizes are kept, and the others are zero. It keeps its site.
    /// `Fixed` comes where it can't stay and may not move; the other faults are those of a best region, and come only
    /// where it moves.
    pub fn resize(&mut self, a: Addr, size: u32, may_move: bool) -> Result<Addr, RegionFault>
        requires block { HasBlock (blocks_in self.old) a.0 }
        requires size { IsSize size }
        requires lent { HasOut (disc_in state self.old) (segments_in self.old) }

        ensures answer { Answers
            (profile_resize (disc_in state self.old).terms
            (profile_of self.old) (place_of a.0) size may_move)
            result (profile_of self.old) (profile_of self.new) }
        ensures disc { Asks result (disc_in state self.old) (disc_in state self.new)
            (segments_in self.old) (segments_in self.new)
            (best_need (disc_in state self.old).terms size 32) }
        ensures no_memory { IsErrOf result RegionFault.OutOfMemory
            → AsksToMove (disc_in state self.old).terms (layout_in self.old) a.0 size may_move }

        // The block keeps its tag, and the others stay.
        ensures kept { IfOk result
            (λ to. IsBlockKept a.0 to.0 (blocks_in self.old) (blocks_in self.new)) }
    {
        let before = self.best.size(a);
        let index = match self.sites.get(a) {
            Some(number) => number as usize,
            None => unreachable!(),
        };
        let row = row_at(&self.rows, index);
        let mut steps = Steps::<Uncounted>::new(self.best.alloc);
        match self.best.resize(a, size, may_move, &mut steps) {
            Ok(to) => {
                let after = self.best.size(to);
                self.sites.moved(a, to);
                let bytes = row.bytes - before as u64 + after as u64;
                set_row(&mut self.rows, index, row.with(row.blocks, bytes));
                Ok(to)
            }
            Err(fault) => Err(fault),
        }
    }
}
