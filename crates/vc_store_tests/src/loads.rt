ghost use Rattle.std.specs.Prelude.{IfOk};
ghost use Rattle.vc_store.specs.Stores.Stores.{IsOpen, disc_of};
ghost use Rattle.vc_checked.specs.Checked.{rules_by};

use crate::scarce::ScarceDisc;
use std::alloc::Global;
use std::process::Abort;
use std::test::Fail;
use vc_dtdisc::{BuiltIn, Shape};
use vc_image::LoadFault;
use vc_seg::{BoxedDisc, HeapDisc, SegDisc, Stat};
use vc_store::{Store, StoreLoadFault};

// Three kinds of whole keys.
fn kinds(alloc: Global) -> Result<Vec<BuiltIn>, Fail> {
    let mut kinds = Vec::new(alloc);
    for _ in 0..3 {
        kinds.push(BuiltIn::new(Shape::Whole))?;
    }
    Ok(kinds)
}

// The store of an image.
pub(crate) fn loaded(alloc: Global, image: &[u8]) -> Result<Store<BuiltIn>, Fail>
    ensures { IfOk result (λ s. IsOpen rules_by s (disc_of s state)) }
{
    let disc = Box::new(alloc, HeapDisc::new(32))?;
    match Store::load(alloc, image, kinds(alloc)?, disc) {
        Ok(store) => Ok(store),
        Err(_) => Err(Fail::new("not loaded")),
    }
}

// Why no store is loaded from an image over a discipline, and the bytes that this can lend then.
fn fault_over(
    alloc: Global,
    image: &[u8],
    disc: Box<dyn SegDisc>,
) -> Result<Option<(StoreLoadFault, Option<u64>)>, Fail> {
    match Store::load(alloc, image, kinds(alloc)?, disc) {
        Ok(_) => Ok(None),
        Err((fault, _, disc)) => Ok(Some((fault, disc.room()))),
    }
}

// Each lend finds no memory, or the last one no room: what was lent before it goes back.
pub(crate) fn fails(rt: &impl Abort, alloc: Global, image: &[u8], stat: Stat) -> Result<(), Fail> {
    let fault = StoreLoadFault::NotLoaded(LoadFault::OutOfMemory);
    for lend in 1..=stat.segs {
        let disc = Box::new(alloc, ScarceDisc::new(stat.extent, lend))?;
        let told = fault_over(alloc, image, disc)?;
        assert!(rt; told == Some((fault, Some(stat.extent))), "{lend}");
    }
    let bytes = stat.extent.saturating_sub(1);
    let disc = Box::new(alloc, ScarceDisc::new(bytes, 0))?;
    let fault = StoreLoadFault::NotLoaded(LoadFault::NoSegment(stat.segs));
    assert!(rt; fault_over(alloc, image, disc)? == Some((fault, Some(bytes))));
    Ok(())
}
