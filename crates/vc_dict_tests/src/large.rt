ghost use Rattle.vc_best.specs.Cells.{cells_in};
ghost use Rattle.vc_objects.specs.Parts.{IsWhole};
ghost use Rattle.vc_objects.specs.Promises.{CanAsk};

use crate::puts::{Compares, digits};
use std::alloc::AllocError;
use std::process::Abort;
use std::test::Fail;
use vc_base::{Addr, DictMethod, Steps};
use vc_best::Best;
use vc_dict::Dict;
use vc_dtdisc::{BuiltIn, DictDisc, Shape};
use vc_objects::{Fate, find, open, put};
use vc_seg::{BoxedDisc, HeapDisc, SegDisc};

// Looks for the object of a number, whose holder must be this one.
fn seek<D: DictDisc>(
    rt: &impl Abort,
    best: &mut Best,
    dict: &mut Dict,
    kind: &D,
    number: u64,
    holder: Option<&Addr>,
    steps: &mut Steps<Compares>,
)
    requires { IsWhole (D.rules kind.now) dict.old (cells_in best.old) }
    ensures { IsWhole (D.rules kind.now) dict.new (cells_in best.new) }
{
    let found = find(best, dict, kind, &digits(number), steps);
    match holder {
        Some(at) => assert!(rt; found == Some(*at)),
        None => assert!(rt; false),
    }
}

// Puts the objects of so many numbers in, in ascending order, and their holders behind those before.
fn put_all<D: DictDisc>(
    rt: &impl Abort,
    best: &mut Best,
    dict: &mut Dict,
    kind: &D,
    count: u64,
    holders: &mut Vec<Addr>,
    steps: &mut Steps<Compares>,
) -> Result<(), AllocError>
    requires { CanAsk state (D.rules kind.now) best.old dict.old }
    ensures { CanAsk state (D.rules kind.now) best.new dict.new }
{
    for number in 0..count {
        let fate = put(best, dict, kind, &digits(number), steps);
        assert!(rt; matches!(fate, Some(Ok(Fate::Stored))));
        holders.push(dict.current)?;
    }
    Ok(())
}

// Looks for each of 300,000 objects in mixed order: for that of the number (j × 77,777) mod 300,000 for each j from 0 on.
fn seek_all<D: DictDisc>(
    rt: &impl Abort,
    best: &mut Best,
    dict: &mut Dict,
    kind: &D,
    holders: &Vec<Addr>,
    steps: &mut Steps<Compares>,
)
    requires { IsWhole (D.rules kind.now) dict.old (cells_in best.old) }
{
    for j in 0..300_000u64 {
        let number = j * 77_777 % 300_000;
        let holder = holders.get(number as usize);
        seek(rt, best, dict, kind, number, holder, steps);
    }
}

// An ordered bag of 300,000 objects in ascending order, each of which is found. Were the holders one long path, this
// would take hours.
#[test]
fn three_hundred_thousand_objects(rt: HostRuntime) -> Result<(), Fail> {
    let kind = BuiltIn::new(Shape::Whole);
    let disc = Box::new(rt.alloc(), HeapDisc::new(65_536))?;
    let mut steps: Steps<Compares> = Steps::new(rt.alloc());
    let mut holders = Vec::new(rt.alloc());
    match Best::open(rt.alloc(), disc) {
        Ok(mut best) => match open(&mut best, DictMethod::DtObag, 0, &kind) {
            Ok(mut dict) => {
                put_all(
                    &rt,
                    &mut best,
                    &mut dict,
                    &kind,
                    300_000,
                    &mut holders,
                    &mut steps,
                )?;
                seek_all(&rt, &mut best, &mut dict, &kind, &holders, &mut steps);
            }
            Err(_) => assert!(rt; false),
        },
        Err(_) => assert!(rt; false),
    }
    Ok(())
}
