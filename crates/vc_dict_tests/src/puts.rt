ghost use Rattle.vc_objects.specs.Promises.{CanAsk};

use crate::{WatchedKind, no_calls};
use std::alloc::Global;
use std::cell::Cell;
use std::process::Abort;
use std::test::Fail;
use vc_base::{DictMethod, Steps};
use vc_best::Best;
use vc_dict::Dict;
use vc_dtdisc::{BuiltIn, DictDisc, Shape};
use vc_objects::{Fate, open, put};
use vc_seg::{BoxedDisc, HeapDisc, SegDisc};

// Marks the compares of these calls.
pub(crate) struct Compares;

// The six digits of a number.
pub(crate) fn digits(number: u64) -> [u8; 6] {
    let mut rest = number;
    let mut text = [b'0'; 6];
    for place in 0..6 {
        text[5 - place] = b'0' + (rest % 10) as u8;
        rest /= 10;
    }
    text
}

// Puts the object of a number, and once more: it is there then, at the root, as one compare tells. Answers how many
// compares the first put made.
fn put_twice<D: DictDisc>(
    rt: &impl Abort,
    best: &mut Best,
    dict: &mut Dict,
    kind: &D,
    number: u64,
    compares: &Cell<u32>,
    steps: &mut Steps<Compares>,
) -> u32
    requires { CanAsk state (D.rules kind.now) best.old dict.old }
    ensures { CanAsk state (D.rules kind.now) best.new dict.new }
{
    compares.set(0);
    let first = put(best, dict, kind, &digits(number), steps);
    let made = compares.get();
    assert!(rt; matches!(first, Some(Ok(Fate::Stored))));
    compares.set(0);
    let again = put(best, dict, kind, &digits(number), steps);
    assert!(rt; again.is_none());
    assert!(rt; compares.get() == 1);
    made
}

// Puts the objects of so many numbers, each this step behind the one before, from the front again behind the last. Answers
// how many compares it took that each came in.
fn put_in_steps<D: DictDisc>(
    rt: &impl Abort,
    best: &mut Best,
    dict: &mut Dict,
    kind: &D,
    order: (u32, u32),
    compares: &Cell<u32>,
    steps: &mut Steps<Compares>,
) -> u32
    requires { CanAsk state (D.rules kind.now) best.old dict.old }
    ensures { CanAsk state (D.rules kind.now) best.new dict.new }
{
    let (count, step) = order;
    let mut made: u32 = 0;
    for i in 0..count {
        let number = i as u64 * step as u64 % count as u64;
        made = made.wrapping_add(put_twice(rt, best, dict, kind, number, compares, steps));
    }
    made
}

// So into a new ordered set.
fn compares_of(rt: &impl Abort, alloc: Global, order: (u32, u32)) -> Result<u32, Fail> {
    let calls = no_calls(alloc)?;
    let kind = WatchedKind::new(BuiltIn::new(Shape::Whole), b'1', &calls)?;
    let disc = Box::new(alloc, HeapDisc::new(4096))?;
    let mut steps: Steps<Compares> = Steps::new(alloc);
    match Best::open(alloc, disc) {
        Ok(mut best) => match open(&mut best, DictMethod::DtOset, 0, &kind) {
            Ok(mut dict) => Ok(put_in_steps(
                rt,
                &mut best,
                &mut dict,
                &kind,
                order,
                &calls.compares,
                &mut steps,
            )),
            Err(_) => Err(Fail::new("want of memory")),
        },
        Err(_) => Err(Fail::new("want of memory")),
    }
}

// In ascending order each object comes in by one compare, with the one before, which is at the root: a second way down
// would make it two. In mixed order 1,000 objects take at most twice the ten doublings of their number each.
#[test]
fn one_way_down(rt: HostRuntime) -> Result<(), Fail> {
    let ascending = compares_of(&rt, rt.alloc(), (1_000, 1))?;
    assert!(rt; ascending == 999, "{ascending}");
    let mixed = compares_of(&rt, rt.alloc(), (1_000, 389))?;
    assert!(rt; mixed <= 20 * 1_000, "{mixed}");
    Ok(())
}
