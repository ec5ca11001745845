ghost use Rattle.std.specs.Prelude.{◌≡◌};
ghost use Rattle.vc_base.specs.Prelude.{place_of, HasOut, TookBack, HasBlock};
ghost use Rattle.vc_audit.specs.Debug.{debug_clear, debug_compact, debug_compact_count, debug_free};
ghost use Rattle.vc_seg.specs.OneBlock.{IsBlockFreed};
ghost use Rattle.vc_audit.specs.DebugParts.{blocks_in, debug_of, disc_in, segments_in};

use crate::debug::Debug;
use crate::debug::guard::guarded_addr;
use crate::plain::{Uncounted, clear_best};
use vc_base::{Addr, Steps};
use vc_seg::{BoxedDisc, SegDisc};

/// The calls that make room. They can't fail, and take no memory.
impl Debug {
    /// Frees the block at that address, and ends its mark.
    pub fn free(&mut self, a: Addr)
        requires { HasBlock (blocks_in self.old) a.0 }
        ensures debug { debug_of self.new ≡ debug_free (debug_of self.old) (place_of a.0) }
        ensures disc { disc_in state self.new ≡ disc_in state self.old }

        // It is the one block at that address that goes.
        ensures freed { IsBlockFreed a.0 (blocks_in self.old) (blocks_in self.new) }
    {
        let mut steps = Steps::<Uncounted>::new(self.best.alloc);
        self.best.free(guarded_addr(a), &mut steps);
        self.marks.take(a);
    }

    /// Frees all its blocks, ends all marks, and keeps its segments.
    pub fn clear(&mut self)
        ensures debug { debug_of self.new ≡ debug_clear (debug_of self.old) }
        ensures disc { disc_in state self.new ≡ disc_in state self.old }
    {
        clear_best(&mut self.best);
        self.marks.clear();
    }

    /// Gives back each segment without a block, in ascending order of number, and answers how many those were.
    pub fn compact(&mut self) -> u32
        requires { HasOut (disc_in state self.old) (segments_in self.old) }
        ensures debug { debug_of self.new ≡ debug_compact (debug_of self.old) }
        ensures count { result ≡ debug_compact_count (debug_of self.old) }
        ensures disc { TookBack (disc_in state self.old) (disc_in state self.new)
            (segments_in self.old) (segments_in self.new) }
    {
        let mut steps = Steps::<Uncounted>::new(self.best.alloc);
        self.best.compact(&mut steps)
    }
}
