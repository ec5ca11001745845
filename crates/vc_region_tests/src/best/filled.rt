ghost use Rattle.vc_region_tests.specs.Lent.{IsLent};

use crate::best::calls::{Counted, free, opened, resize, take, with_gaps};
use std::process::Abort;
use std::test::Fail;
use vc_base::Steps;
use vc_best::Best;
use vc_seg::{BoxedDisc, HeapDisc, SegDisc};

// Fills gaps, resizes in place and frees.
fn fill(rt: &impl Abort, best: &mut Best, steps: &mut Steps<Counted>)
    requires { IsLent state best.old }
{
    take(rt, best, steps, 112, (1, 64));
    resize(rt, best, steps, (1, 192), 272);
    resize(rt, best, steps, (1, 192), 16);
    take(rt, best, steps, 200, (1, 224));
    take(rt, best, steps, 600, (1, 1088));
    free(rt, best, steps, (1, 192));
    resize(rt, best, steps, (1, 64), 144);
    free(rt, best, steps, (1, 64));
    take(rt, best, steps, 144, (1, 64));
    free(rt, best, steps, (1, 480));
}

// A region in which nothing else is done. `bench/allocations.sh` counts the allocations of this test and of the next
// one.
#[test]
fn gaps_alone(rt: HostRuntime) -> Result<(), Fail> {
    let disc = Box::new(rt.alloc(), HeapDisc::new(4096))?;
    let mut steps: Steps<Counted> = Steps::new(rt.alloc());
    match opened(&rt, rt.alloc(), disc) {
        Some(mut best) => with_gaps(&rt, &mut best, &mut steps),
        None => assert!(rt; false),
    }
    Ok(())
}

#[test]
fn gaps_filled(rt: HostRuntime) -> Result<(), Fail> {
    let disc = Box::new(rt.alloc(), HeapDisc::new(4096))?;
    let mut steps: Steps<Counted> = Steps::new(rt.alloc());
    match opened(&rt, rt.alloc(), disc) {
        Some(mut best) => {
            with_gaps(&rt, &mut best, &mut steps);
            fill(&rt, &mut best, &mut steps);
        }
        None => assert!(rt; false),
    }
    Ok(())
}
