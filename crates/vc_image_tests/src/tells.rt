use crate::images::{Image, NONE, THREE, TWO, made};
use std::alloc::Global;
use std::process::Abort;
use std::test::Fail;
use vc_base::MemSink;
use vc_dtdisc::{BuiltIn, Shape};
use vc_image::LoadFault;
use vc_image_check::Part;
use vc_image_run::{ImageFault, ImageStatus, OpenFault, check, show, tell};
use vc_seg::{FuseDisc, HeapDisc, SbrkDisc, SegDisc};

// A sink that takes pieces of at most 16 bytes and fails at the write of that number, from 1 on; 0 is none.
fn sink(alloc: Global, fails: u64) -> Result<MemSink, Fail> {
    Ok(MemSink::new(alloc, 500, 16, vec![in alloc; fails]?)?)
}

// The status, and what comes out and is told, of an image that is judged, or shown over a discipline where there is one.
fn ends(
    rt: &impl Abort,
    alloc: Global,
    image: Image,
    disc: Option<Box<dyn SegDisc>>,
    fails: u64,
    status: ImageStatus,
    text: &[u8],
    fault: &[u8],
) -> Result<(), Fail> {
    let bytes = made(alloc, image)?;
    let mut kinds = Vec::new(alloc);
    kinds.push(BuiltIn::new(Shape::Whole))?;
    let mut out = sink(alloc, fails)?;
    let mut err = sink(alloc, 0)?;
    let ended = match disc {
        Some(disc) => show(alloc, &kinds, bytes.as_slice(), disc, &mut out, &mut err),
        None => check(alloc, &kinds, bytes.as_slice(), &mut out, &mut err),
    };
    assert!(rt; ended == status);
    assert_eq!(rt; out.bytes(), text);
    assert_eq!(rt; err.bytes(), fault);
    Ok(())
}

#[test]
fn broken(rt: HostRuntime) -> Result<(), Fail> {
    let alloc = rt.alloc();
    let fault = b"vmimage: write failed\n";
    ends(&rt, alloc, NONE, None, 1, ImageStatus::Write, b"", fault)?;
    // The third write fails.
    let disc = Box::new(alloc, HeapDisc::new(32))?;
    let text = b"busy 5 free 0 sbusy 260 sfree 0 ";
    ends(
        &rt,
        alloc,
        THREE,
        Some(disc),
        3,
        ImageStatus::Write,
        text,
        fault,
    )
}

#[test]
fn not_lent(rt: HostRuntime) -> Result<(), Fail> {
    let alloc = rt.alloc();
    let many = b"vmimage: too many segments\n";
    let disc = Box::new(alloc, SbrkDisc::new(32, 1000))?;
    ends(
        &rt,
        alloc,
        TWO,
        Some(disc),
        0,
        ImageStatus::NotLent,
        b"",
        many,
    )?;
    let refused = b"vmimage: segment 2: no segment\n";
    let disc = Box::new(alloc, FuseDisc::new(32, vec![in alloc; 2]?))?;
    ends(
        &rt,
        alloc,
        TWO,
        Some(disc),
        0,
        ImageStatus::NotLent,
        b"",
        refused,
    )
}

#[test]
fn faults(rt: HostRuntime) -> Result<(), Fail> {
    let alloc = rt.alloc();
    for (fault, line, number) in [
        (
            ImageFault::Memory,
            b"vmimage: out of memory\n".as_slice(),
            5u8,
        ),
        (
            ImageFault::Load(LoadFault::OutOfMemory),
            b"vmimage: out of memory\n",
            5,
        ),
        (
            ImageFault::Load(LoadFault::Bad(Part::Dictionary(u32::MAX))),
            b"vmimage: unsound: dictionary 4294967295\n",
            1,
        ),
        (
            ImageFault::Open(OpenFault::NoDiscipline),
            b"vmimage: no discipline\n",
            6,
        ),
    ] {
        let mut err = sink(alloc, 0)?;
        assert_eq!(rt; tell(&mut err, fault).number(), number);
        assert_eq!(rt; err.bytes(), line);
    }
    Ok(())
}
