ghost use Rattle.vc_region_tests.specs.Lent.{IsLent};

use crate::best::calls::{Counted, free, opened};
use std::process::Abort;
use std::test::Fail;
use vc_base::{Addr, OutOfMemory, Steps};
use vc_best::Best;
use vc_seg::{BoxedDisc, HeapDisc, SegDisc, Stat};

// So many blocks of 16 bytes, whose addresses are put behind those before.
fn take_all(
    rt: &impl Abort,
    best: &mut Best,
    steps: &mut Steps<Counted>,
    count: u32,
    blocks: &mut Vec<Addr>,
) -> Result<(), OutOfMemory>
    requires { IsLent state best.old }
    ensures { IsLent state best.new }
{
    for _ in 0..count {
        match best.alloc(16, 32, 0, steps) {
            Ok(a) => blocks.push(a)?,
            Err(_) => assert!(rt; false),
        }
    }
    Ok(())
}

// Frees each second block, in mixed order: the one with number 2 × ((j × 333,333) mod 500,000) for each j from 0 on.
fn free_half(rt: &impl Abort, best: &mut Best, steps: &mut Steps<Counted>, blocks: &Vec<Addr>)
    requires { IsLent state best.old }
    ensures { IsLent state best.new }
{
    for j in 0..500_000u64 {
        let number = 2 * (j * 333_333 % 500_000);
        match blocks.get(number as usize) {
            Some(a) => free(rt, best, steps, (a.seg(), a.off())),
            None => assert!(rt; false),
        }
    }
}

// A million blocks of 16 bytes in 489 segments; half of them go in mixed order, and as many come. Were each gap looked
// at for each block, this would take hours.
#[test]
fn a_million_blocks(rt: HostRuntime) -> Result<(), Fail> {
    let disc = Box::new(rt.alloc(), HeapDisc::new(65_536))?;
    let mut steps: Steps<Counted> = Steps::new(rt.alloc());
    let mut blocks = Vec::new(rt.alloc());
    match opened(&rt, rt.alloc(), disc) {
        Some(mut best) => {
            take_all(&rt, &mut best, &mut steps, 1_000_000, &mut blocks)?;
            free_half(&rt, &mut best, &mut steps, &blocks);
            take_all(&rt, &mut best, &mut steps, 500_000, &mut blocks)?;
            assert_eq!(rt;
                best.stat(),
                Stat {
                    busy: 1_000_000,
                    free: 1,
                    sbusy: 16_000_000,
                    sfree: 31_456,
                    mbusy: 16,
                    mfree: 31_456,
                    segs: 489,
                    extent: 32_047_104,
                }
            );
        }
        None => assert!(rt; false),
    }
    Ok(())
}
