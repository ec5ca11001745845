use crate::{CompareStatus, compare};
use std::alloc::{AllocError, Global};
use std::process::Abort;
use std::test::Fail;
use vc_base::{MemSink, MemSource};
use vc_seg::{ReliefDisc, SegDisc, Shelf};

// The last region needs a segment in line 1, and another one in line 4.
const TRACE: &[u8] = b"alloc t a 3000\nalloc t b 1000\nfree t a\nalloc t c 3000\n";

const REPORT: &[u8] =
    b"live 4000\nbest peak 4096 waste 96\nlast peak 8192 waste 96\npool peak 12288 waste 8288\n";

// Armed disciplines, of which that of the last region has room for one segment, and makes an exception for so many bytes more.
fn shelf_of(rt: &impl Abort, alloc: Global, relief: u64) -> Result<Shelf, AllocError> {
    assert!(rt; relief <= 4096);
    let mut shelf = Shelf::new(alloc);
    for place in 1..23 {
        let room = if place == 2 { 4096 } else { 65_536 };
        let mut disc = ReliefDisc::new(4096, room, relief);
        disc.arm(true);
        assert!(rt; shelf.len() < u32::MAX);
        assert!(rt; shelf.put(Box::new(alloc, disc)?).is_ok());
    }
    Ok(shelf)
}

// How many refusals the disciplines count, each at its place again.
fn faults_of(rt: &impl Abort, shelf: &Shelf) -> u64 {
    let mut faults = 0u64;
    for slot in &shelf.slots {
        match slot {
            Some(disc) => faults = faults.saturating_add(disc.faults()),
            None => assert!(rt; false),
        }
    }
    faults
}

fn sink(alloc: Global) -> Result<MemSink, AllocError> {
    match MemSink::new(alloc, 200, 4096, Vec::new(alloc)) {
        Ok(sink) => Ok(sink),
        Err(_) => Err(AllocError),
    }
}

// Runs the trace, and looks at what comes out.
fn run(
    rt: &impl Abort,
    alloc: Global,
    relief: u64,
    status: CompareStatus,
    told: (&[u8], &[u8], u64),
) -> Result<(), AllocError> {
    let words = Vec::new(alloc);
    let mut shelf = shelf_of(rt, alloc, relief)?;
    let mut source = MemSource::new(TRACE.to_vec(alloc)?, 4096, Vec::new(alloc));
    let mut out = sink(alloc)?;
    let mut err = sink(alloc)?;
    let ends = compare(
        alloc,
        words.as_slice(),
        &mut shelf,
        &mut source,
        &mut out,
        &mut err,
    );
    assert!(rt; ends == status);
    assert!(rt; out.bytes() == told.0);
    assert!(rt; err.bytes() == told.1);
    assert!(rt; faults_of(rt, &shelf) == told.2);
    Ok(())
}

// A refused segment ends the trace at its line; an exception that is enough lets it go on.
#[test]
fn refused(rt: HostRuntime) -> Result<(), Fail> {
    let alloc = rt.alloc();
    let line = b"vmcompare: line 4: no segment\n";
    run(&rt, alloc, 0, CompareStatus::NoSegment, (b"", line, 2))?;
    run(&rt, alloc, 4096, CompareStatus::Ok, (REPORT, b"", 1))?;
    Ok(())
}
