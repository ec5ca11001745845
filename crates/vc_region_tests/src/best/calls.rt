ghost use Rattle.std.specs.Prelude.{IfSome};
ghost use Rattle.vc_base.specs.Prelude.{HasOut};
ghost use Rattle.vc_best.specs.Parts.{segments_in};
ghost use Rattle.vc_region_tests.specs.Lent.{IsLent};
ghost use Rattle.vc_seg.specs.OneBlock.{IsGuardedSize};

use std::alloc::Global;
use std::process::Abort;
use vc_base::Steps;
use vc_best::Best;
use vc_seg::{BoxedDisc, SegDisc};

/// Marks the steps of these calls.
pub struct Counted;

// A region over a discipline, with ample memory.
pub fn opened(rt: &impl Abort, alloc: Global, disc: Box<dyn SegDisc>) -> Option<Best>
    ensures { IfSome result (λ b. HasOut (state b.disc) (segments_in b)) }
{
    match Best::open(alloc, disc) {
        Ok(best) => Some(best),
        Err(_) => {
            assert!(rt; false);
            None
        }
    }
}

// A block of that size, in bytes, which must begin at that offset of the segment of that number.
pub fn take(rt: &impl Abort, best: &mut Best, steps: &mut Steps<Counted>, size: u32, at: (u32, u32))
    requires size { IsGuardedSize size }
    requires lent { IsLent state best.old }
    ensures { IsLent state best.new }
{
    match best.alloc(size, 32, 0, steps) {
        Ok(a) => assert_eq!(rt; (a.seg(), a.off()), at),
        Err(_) => assert!(rt; false),
    }
}

// Frees the block that must begin at that offset of the segment of that number.
pub fn free(rt: &impl Abort, best: &mut Best, steps: &mut Steps<Counted>, at: (u32, u32))
    requires { IsLent state best.old }
    ensures { IsLent state best.new }
{
    match best.block_at(at.0, at.1) {
        Some((a, first)) => {
            assert_eq!(rt; first, 0);
            best.free(a, steps);
        }
        None => assert!(rt; false),
    }
}

// Resizes the block that must begin at that offset of the segment of that number, where it is.
pub fn resize(
    rt: &impl Abort,
    best: &mut Best,
    steps: &mut Steps<Counted>,
    at: (u32, u32),
    size: u32,
)
    requires size { IsGuardedSize size }
    requires lent { IsLent state best.old }
    ensures { IsLent state best.new }
{
    match best.block_at(at.0, at.1) {
        Some((a, first)) => {
            assert_eq!(rt; first, 0);
            match best.resize(a, size, false, steps) {
                Ok(to) => assert_eq!(rt; (to.seg(), to.off()), at),
                Err(_) => assert!(rt; false),
            }
        }
        None => assert!(rt; false),
    }
}

// Seven blocks, of which the second, the fourth and the sixth go. Behind the four that stay there are gaps of 128, 256,
// 544 and 3,008 bytes.
pub fn with_gaps(rt: &impl Abort, best: &mut Best, steps: &mut Steps<Counted>)
    requires { IsLent state best.old }
    ensures { IsLent state best.new }
{
    take(rt, best, steps, 16, (1, 32));
    take(rt, best, steps, 100, (1, 64));
    take(rt, best, steps, 16, (1, 192));
    take(rt, best, steps, 240, (1, 224));
    take(rt, best, steps, 16, (1, 480));
    take(rt, best, steps, 500, (1, 512));
    take(rt, best, steps, 16, (1, 1056));
    free(rt, best, steps, (1, 64));
    free(rt, best, steps, (1, 224));
    free(rt, best, steps, (1, 512));
}
