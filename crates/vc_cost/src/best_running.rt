ghost use Rattle.std.specs.Prelude.{◌≡◌, [], All, IfErr, IfOk};
ghost use Rattle.vc_best.specs.Parts.{segments_in};
ghost use Rattle.vc_cost.specs.BestCalls.{HasSize};
ghost use Rattle.vc_cost.specs.BestCosts.{IsRunMade, IsRunStopped};

use crate::BestCalls;
use crate::best_making::make_best;
use std::alloc::Global;
use vc_base::Steps;
use vc_best::Best;
use vc_seg::{RegionFault, SegDisc};

/// Makes the calls in order on a best region without a segment, with blocks of an alignment of 32 bytes and a tag of 0,
/// until one is refused, and answers the greatest number of gaps after any of them, 0 with no call. Memory for the list of
/// live blocks comes first. Where none was refused, all of them together read at most 240 extent heads for each binary digit
/// of that greatest number, and 260, for each call; one that names no block counts as none, and `Clear` and `Compact` as one
/// for each segment then, and as one at least. Where one is refused the answer is its place in the list, from 0, and the
/// fault: `TooManySegments` exactly where it needs a segment and may be granted none, `NoSegment` only where it needs one and the
/// discipline refused, or `OutOfMemory`, which at place 0 may come before the first call. Condition: sizes are from 1 to
/// 16,777,216 bytes.
pub fn run_best<L>(
    alloc: Global,
    best: &mut Best,
    calls: &BestCalls,
    steps: &mut Steps<L>,
) -> Result<u64, (u64, RegionFault)>
    requires empty { segments_in best.old ≡ [] }
    requires sizes { All HasSize calls.now }

    ensures made { IfOk result (λ greatest. IsRunMade state calls.now best.old best.new steps.old
        steps.new greatest) }
    ensures stopped { IfErr result (λ e. IsRunStopped state calls.now best.old best.new e.0 e.1) }
{
    let mut live = Vec::new(alloc);
    if live.reserve(calls.as_slice().len()).is_err() {
        return Err((0, RegionFault::OutOfMemory));
    }
    let mut greatest = 0u64;
    let mut made = 0u64;
    for call in calls.as_slice() {
        if let Err(fault) = make_best(best, &mut live, call, steps) {
            return Err((made, fault));
        }
        greatest = greatest.max(u64::from(best.stat().free));
        made += 1;
    }
    Ok(greatest)
}
