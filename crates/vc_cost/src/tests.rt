ghost use Rattle.std.specs.Prelude.{◌≡◌, ℕ, ◌+◌, ◌≤◌, ◌<◌, ◌^◌, All, IfOk, length};
ghost use Rattle.vc_base.specs.Holders.{AreDistinct};
ghost use Rattle.vc_cost.specs.Calls.{linked};

mod best;
mod many;

use crate::{Key, OrdCall, OrdCalls, bound, run_ord};
use many::ManyCells;
use std::alloc::{AllocError, Global};
use std::test::Fail;
use vc_base::{Addr, Steps};
use vc_dtdisc::{BuiltIn, Shape};
use vc_dtord::DtOrd;

// Marks the compares of these calls.
struct Compares;

// A holder of a number, of four bytes, the highest first.
fn holder(number: u32) -> [u8; 36]
    ensures { length result ≡ 36 }
{
    let mut bytes = [0u8; 36];
    bytes[32..36].copy_from_slice(&number.to_be_bytes());
    bytes
}

// Holders of so many objects in ascending order: the numbers from 0 on.
fn holders(alloc: Global, count: u32) -> Result<ManyCells, AllocError>
    ensures { IfOk result (λ s. (length s.held.items ≡ count + 1)
        × All (λ bytes. length bytes ≡ 36) s.held.items) }
{
    let mut held = Vec::new(alloc);
    held.push([0u8; 36])?;
    for number in 0..count {
        held.push(holder(number))?;
    }
    Ok(ManyCells { held })
}

// A link of each of them in order, and then a find of each.
fn calls(alloc: Global, count: u32) -> Result<OrdCalls, Fail>
    requires { count + 1 < 2 ^ 32 }
    ensures { IfOk result (λ c. AreDistinct (linked c) × All (λ a. (1 ≤ a) × (a ≤ count)) (linked c)) }
{
    let mut calls = OrdCalls::new(alloc);
    for number in 0..count {
        calls.add(OrdCall::Link(Addr(number + 1)))?;
    }
    for number in 0..count {
        let key = Key::new(Vec::from_slice(alloc, &number.to_be_bytes())?);
        calls.add(OrdCall::Find(key))?;
    }
    Ok(calls)
}

// Were the holders one long path, this would take hours.
#[test]
fn a_hundred_thousand_links_and_finds(rt: HostRuntime) -> Result<(), Fail> {
    let mut cells = holders(rt.alloc(), 100_000)?;
    let calls = calls(rt.alloc(), 100_000)?;
    let kind = BuiltIn::new(Shape::Whole);
    let mut ord = DtOrd::new();
    let mut steps: Steps<Compares> = Steps::new(rt.alloc());
    let counts = run_ord(&mut cells, &kind, &mut ord, &calls, &mut steps);
    assert_eq!(rt; counts, (100_000, 100_000));
    Ok(())
}

#[test]
fn bounds(rt: HostRuntime) {
    assert_eq!(rt; bound(200_000, 100_000, 30, 30), Some(108_000_000));
    assert_eq!(rt; bound(1, 0, 30, 30), Some(30));
    assert_eq!(rt; bound(u64::MAX, 1, 1, 0), Some(u64::MAX));
    assert_eq!(rt; bound(u64::MAX, 1, 1, 1), None);
    assert_eq!(rt; bound(0, 1, u64::MAX, u64::MAX), Some(0));
}
