ghost use Rattle.std.specs.Prelude.{All, IfOk};
ghost use Rattle.vc_cost.specs.BestCalls.{HasSize};

use crate::{BestCall, BestCalls, bound, run_best};
use std::alloc::Global;
use std::process::Abort;
use std::test::Fail;
use vc_base::{OutOfMemory, Steps};
use vc_best::Best;
use vc_seg::{BudgetDisc, HeapDisc, RegionFault, SegDisc, Stat};

// Marks the heads that these calls read.
struct Heads;

// One block of 100 bytes in a segment of 4,096, of which a block has 32 bytes less, and its own bytes and 16 in units of 32.
const ONE: Stat = Stat {
    busy: 1,
    free: 1,
    sbusy: 100,
    sfree: 3936,
    mbusy: 100,
    mfree: 3936,
    segs: 1,
    extent: 4096,
};

// The calls on an empty region over a discipline must end so, and leave these numbers.
fn ends(
    rt: &impl Abort,
    alloc: Global,
    disc: Box<dyn SegDisc>,
    calls: &BestCalls,
    end: Result<u64, (u64, RegionFault)>,
    left: Stat,
)
    requires { All HasSize calls.now }
{
    let mut steps: Steps<Heads> = Steps::new(alloc);
    match Best::open(alloc, disc) {
        Ok(mut best) => {
            assert_eq!(rt; run_best(alloc, &mut best, calls, &mut steps), end);
            assert_eq!(rt; best.stat(), left);
        }
        Err(_) => assert!(rt; false),
    }
}

// Puts a call behind the others.
fn add(calls: &mut BestCalls, call: BestCall) -> Result<(), OutOfMemory>
    requires size { HasSize call }
    requires sizes { All HasSize calls.old }
    ensures { All HasSize calls.new }
{
    calls.add(call)
}

// A hundred blocks of one unit of 32 bytes side by side; each second one goes; ten grow over the unit behind them; one
// moves to the gap at the end; two calls name no block.
fn blocks(alloc: Global) -> Result<BestCalls, Fail>
    ensures { IfOk result (λ c. All HasSize c) }
{
    let mut calls = BestCalls::new(alloc);
    for _ in 0..100 {
        add(&mut calls, BestCall::Alloc(16))?;
    }
    for n in 0..50 {
        add(&mut calls, BestCall::Free(n))?;
    }
    for n in 0..10 {
        add(&mut calls, BestCall::Resize(n, 48))?;
    }
    add(&mut calls, BestCall::Resize(10, 200))?;
    add(&mut calls, BestCall::Free(50))?;
    add(&mut calls, BestCall::Resize(1000, 8))?;
    Ok(calls)
}

#[test]
fn blocks_that_come_grow_move_and_go(rt: HostRuntime) -> Result<(), Fail> {
    let calls = blocks(rt.alloc())?;
    let disc = Box::new(rt.alloc(), HeapDisc::new(4096))?;
    let left = Stat {
        busy: 50,
        free: 41,
        sbusy: 1304,
        sfree: 1952,
        mbusy: 200,
        mfree: 640,
        segs: 1,
        extent: 4096,
    };
    ends(&rt, rt.alloc(), disc, &calls, Ok(51), left);
    assert_eq!(rt; bound(161, 51, 240, 260), Some(273_700));
    Ok(())
}

#[test]
fn one_block(rt: HostRuntime) -> Result<(), Fail> {
    let mut calls = BestCalls::new(rt.alloc());
    add(&mut calls, BestCall::Alloc(100))?;
    let disc = Box::new(rt.alloc(), HeapDisc::new(4096))?;
    ends(&rt, rt.alloc(), disc, &calls, Ok(1), ONE);
    Ok(())
}

// Two segments with a block each; both are given back when they are clear, and one comes anew.
#[test]
fn segments_that_go(rt: HostRuntime) -> Result<(), Fail> {
    let mut calls = BestCalls::new(rt.alloc());
    add(&mut calls, BestCall::Alloc(4000))?;
    add(&mut calls, BestCall::Alloc(4000))?;
    add(&mut calls, BestCall::Free(0))?;
    add(&mut calls, BestCall::Clear)?;
    add(&mut calls, BestCall::Compact)?;
    add(&mut calls, BestCall::Alloc(100))?;
    let disc = Box::new(rt.alloc(), HeapDisc::new(4096))?;
    ends(&rt, rt.alloc(), disc, &calls, Ok(2), ONE);
    Ok(())
}

// The call at place 2 needs a second segment, which is above the budget; the one behind it isn't made.
#[test]
fn a_refused_call_ends_it(rt: HostRuntime) -> Result<(), Fail> {
    let mut calls = BestCalls::new(rt.alloc());
    add(&mut calls, BestCall::Alloc(100))?;
    add(&mut calls, BestCall::Free(7))?;
    add(&mut calls, BestCall::Alloc(4000))?;
    add(&mut calls, BestCall::Free(0))?;
    let disc = Box::new(rt.alloc(), BudgetDisc::new(4096, 4096))?;
    ends(
        &rt,
        rt.alloc(),
        disc,
        &calls,
        Err((2, RegionFault::NoSegment)),
        ONE,
    );
    Ok(())
}

#[test]
fn no_calls(rt: HostRuntime) -> Result<(), Fail> {
    let calls = BestCalls::new(rt.alloc());
    let disc = Box::new(rt.alloc(), HeapDisc::new(4096))?;
    let none = Stat {
        busy: 0,
        free: 0,
        sbusy: 0,
        sfree: 0,
        mbusy: 0,
        mfree: 0,
        segs: 0,
        extent: 0,
    };
    ends(&rt, rt.alloc(), disc, &calls, Ok(0), none);
    Ok(())
}
