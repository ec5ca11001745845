ghost use Rattle.std.specs.Prelude.{◌≡◌, ◌≤◌, drop, length, map};
ghost use Rattle.vc_seg.specs.Tally.{tally_of};
ghost use Rattle.vc_pool.specs.Parts.{segments_in};

use crate::pool::Pool;
use crate::walks::tally_behind;
use vc_seg::Tally;

impl Pool {
    /// How many segments it has, at most 1,023.
    pub fn segment_count(&self) -> usize
        ensures { result ≡ length (segments_in self.now) }
    {
        self.segs.len()
    }

    /// How many segments it has behind the first ones, in order of lending, with the sum of their sizes and the greatest, in
    /// bytes: none where it has no more than these.
    pub fn tally_behind(&self, first: usize) -> Tally
        ensures value { result ≡ tally_of (map (λ s. s.1) (drop first (segments_in self.now))) }
        ensures few { result.count ≤ 1023 }
    {
        tally_behind(&self.segs, first)
    }
}
