use crate::images::{T, THREE, W, X, Y, made};
use std::alloc::Global;
use std::process::Abort;
use std::test::Fail;
use vc_base::{Addr, DictMethod, MemSink};
use vc_dtdisc::{BuiltIn, Shape};
use vc_image::{LoadFault, Loaded, SaveFault, load, save};
use vc_seg::{FuseDisc, SegDisc};

// What is loaded over a discipline, or the discipline as it comes back where it refused the first segment.
fn loaded(
    alloc: Global,
    image: &[u8],
    disc: Box<dyn SegDisc>,
) -> Result<Result<Loaded, Box<dyn SegDisc>>, Fail> {
    let mut kinds = Vec::new(alloc);
    kinds.push(BuiltIn::new(Shape::Whole))?;
    match load(alloc, image, &kinds, disc) {
        Ok(loaded) => Ok(Ok(loaded)),
        Err((LoadFault::NoSegment(1), disc)) => Ok(Err(disc)),
        Err(_) => Err(Fail::new("another fault")),
    }
}

// What is loaded over a discipline whose first lend is refused, and the next one served.
fn loaded_late(alloc: Global, image: &[u8]) -> Result<Loaded, Fail> {
    let fuse = FuseDisc::new(32, vec![in alloc; 1]?);
    let Err(disc) = loaded(alloc, image, Box::new(alloc, fuse)?)? else {
        return Err(Fail::new("not refused"));
    };
    match loaded(alloc, image, disc)? {
        Ok(loaded) => Ok(loaded),
        Err(_) => Err(Fail::new("refused again")),
    }
}

// What comes of saving to a sink that takes pieces of at most 100 bytes and fails at the write of that number, 0 for none: seven
// writes take the image.
fn saved(
    alloc: Global,
    loaded: &Loaded,
    fails: u64,
) -> Result<(Result<u64, SaveFault>, MemSink), Fail> {
    let dicts = loaded.dicts.as_slice();
    if loaded.region.as_best().is_none() || dicts.len() > 256 {
        return Err(Fail::new("no best region"));
    }
    let kinds: Vec<BuiltIn> = Vec::new(alloc);
    let mut out = MemSink::new(alloc, 5000, 100, vec![in alloc; fails]?)?;
    let saved = save(alloc, &loaded.region, dicts, &kinds, &mut out);
    Ok((saved, out))
}

// The dictionaries are those of the image.
fn shows(rt: &impl Abort, loaded: &Loaded) {
    match loaded.dicts.as_slice() {
        [list, bag, set] => {
            assert!(rt; list.method == DictMethod::DtList && list.kind == 1 && list.count == 2);
            assert!(rt; list.current == Addr(Y) && list.heads().first == Addr(X));
            assert!(rt; bag.method == DictMethod::DtBag && bag.count == 1);
            assert!(rt; bag.current == Addr::NONE && bag.table() == Addr(T) && bag.slots() == 16);
            assert!(rt; set.method == DictMethod::DtOset && set.count == 1);
            assert!(rt; set.current == Addr(W) && set.heads().root == Addr(W));
        }
        _ => assert!(rt; false),
    }
    let stat = loaded.region.stat();
    assert!(rt; stat.busy == 5 && stat.free == 0 && stat.segs == 1);
    assert!(rt; loaded.region.block_at(1, 32) == Some((Addr(X), 0)));
}

#[test]
fn saves(rt: HostRuntime) -> Result<(), Fail> {
    let alloc = rt.alloc();
    let image = made(alloc, THREE)?;
    let loaded = loaded_late(alloc, image.as_slice())?;
    shows(&rt, &loaded);
    // Where no write fails, or only one behind the last, all of it is there, and else a front of it.
    for fails in [0u64, 8] {
        let (saved, out) = saved(alloc, &loaded, fails)?;
        assert!(rt; saved == Ok(584));
        assert!(rt; out.bytes() == image.as_slice());
    }
    for fails in [1u64, 2, 7] {
        let (saved, out) = saved(alloc, &loaded, fails)?;
        assert!(rt; saved == Err(SaveFault::WriteFailed));
        assert!(rt; image.as_slice().starts_with(out.bytes()));
    }
    Ok(())
}
