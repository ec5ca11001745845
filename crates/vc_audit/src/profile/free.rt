ghost use Rattle.std.specs.Prelude.{◌≡◌};
ghost use Rattle.vc_base.specs.Prelude.{place_of, compact_count, HasOut, TookBack, HasBlock};
ghost use Rattle.vc_audit.specs.Profile.{profile_clear, profile_compact, profile_free};
ghost use Rattle.vc_seg.specs.OneBlock.{IsBlockFreed};
ghost use Rattle.vc_audit.specs.ProfileParts.{blocks_in, disc_in, layout_in, profile_of, segments_in};

use crate::plain::{Uncounted, clear_best};
use crate::profile::Profile;
use crate::profile::rows::{clear_rows, row_at, set_row};
use vc_base::{Addr, Steps};
use vc_seg::{BoxedDisc, SegDisc};

/// The calls that make room. None takes memory.
impl Profile {
    /// Frees the block at that address. Its site keeps its row.
    pub fn free(&mut self, a: Addr)
        requires block { HasBlock (blocks_in self.old) a.0 }
        ensures profile { profile_of self.new
            ≡ profile_free (profile_of self.old) (place_of a.0) }
        ensures disc { disc_in state self.new ≡ disc_in state self.old }

        // It is the one block at that address that goes.
        ensures freed { IsBlockFreed a.0 (blocks_in self.old) (blocks_in self.new) }
    {
        let size = self.best.size(a);
        let index = match self.sites.take(a) {
            Some(number) => number as usize,
            None => unreachable!(),
        };
        let row = row_at(&self.rows, index);
        let mut steps = Steps::<Uncounted>::new(self.best.alloc);
        self.best.free(a, &mut steps);
        let bytes = row.bytes - size as u64;
        set_row(&mut self.rows, index, row.with(row.blocks - 1, bytes));
    }

    /// Frees all its blocks, and keeps its segments and the rows of its sites.
    pub fn clear(&mut self)
        ensures profile { profile_of self.new ≡ profile_clear (profile_of self.old) }
        ensures disc { disc_in state self.new ≡ disc_in state self.old }
    {
        clear_best(&mut self.best);
        self.sites.clear();
        clear_rows(&mut self.rows);
    }

    /// Gives back each segment without a block, in ascending order of number, and answers how many those were.
    pub fn compact(&mut self) -> u32
        requires { HasOut (disc_in state self.old) (segments_in self.old) }
        ensures profile { profile_of self.new ≡ profile_compact (profile_of self.old) }
        ensures count { result ≡ compact_count (layout_in self.old) }
        ensures disc { TookBack (disc_in state self.old) (disc_in state self.new)
            (segments_in self.old) (segments_in self.new) }
    {
        let mut steps = Steps::<Uncounted>::new(self.best.alloc);
        self.best.compact(&mut steps)
    }
}
