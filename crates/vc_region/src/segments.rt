ghost use Rattle.std.specs.Prelude.{◌≡◌, ◌≤◌, [], drop, length, map};
ghost use Rattle.vc_seg.specs.Tally.{HasRoom, tally_of};
ghost use Rattle.vc_seg.specs.Segment.{AreSegments, pair_of};
ghost use Rattle.vc_region.specs.Parts.{segments_in};

use crate::region::Region;
use vc_seg::{Segment, Tally};

// How many these are, and their sizes.
fn tally(segments: &[Segment]) -> Tally
    requires { HasRoom (tally_of []) (map (λ s. s.1) (map pair_of segments.now)) }
    ensures { result ≡ tally_of (map (λ s. s.1) (map pair_of segments.now)) }
{
    let mut tally = Tally::new();
    for segment in segments {
        tally = tally.with(segment.size());
    }
    tally
}

// Those behind the first ones, in order of lending: none where there are no more than these.
fn tally_behind(segments: &[Segment], first: usize) -> Tally
    requires { AreSegments segments.now }
    ensures value { result ≡ tally_of (map (λ s. s.1) (drop first (map pair_of segments.now))) }
    ensures few { result.count ≤ 1023 }
{
    tally(&segments[first.min(segments.len())..])
}

/// How many segments it was lent. These calls can't fail, and take no memory.
impl Region {
    /// How many segments it has.
    pub fn segment_count(&self) -> usize
        ensures { result ≡ length (segments_in self.now) }
    {
        match self {
            Region::Best(best) => best.extents.segs.len(),
            Region::Pool(pool) => pool.segment_count(),
            Region::Last(last) => last.segs.len(),
            Region::Debug(debug) => debug.best.extents.segs.len(),
            Region::Profile(profile) => profile.best.extents.segs.len(),
        }
    }

    /// How many segments it has behind the first ones, in order of lending, with the sum of their sizes and the greatest, in
    /// bytes: none where it has no more than these.
    pub fn tally_behind(&self, first: usize) -> Tally
        ensures value { result ≡ tally_of (map (λ s. s.1) (drop first (segments_in self.now))) }
        ensures few { result.count ≤ 1023 }
    {
        match self {
            Region::Best(best) => tally_behind(&best.extents.segs, first),
            Region::Pool(pool) => pool.tally_behind(first),
            Region::Last(last) => tally_behind(&last.segs, first),
            Region::Debug(debug) => tally_behind(&debug.best.extents.segs, first),
            Region::Profile(profile) => tally_behind(&profile.best.extents.segs, first),
        }
    }
}
