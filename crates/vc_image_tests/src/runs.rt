ghost use Rattle.std.specs.Prelude.{◌≤◌};

use std::alloc::Global;
use std::process::Abort;
use std::test::Fail;
use vc_base::{MemSink, MemSource, Sink, Source};
use vc_dtdisc::{BuiltIn, Shape};
use vc_image_run::{ImageStatus, make, remake};
use vc_seg::{FuseDisc, HeapDisc, Shelf};

// A script, the place of the shelf over whose discipline an image is opened, 9 for no image, at which read and at which write of
// a reply one fails, from 1 on, 0 for none, and what comes of it.
struct Row {
    script: &'static [u8],
    place: u32,
    read: u64,
    write: u64,
    replies: &'static [u8],
    fault: &'static [u8],
    status: ImageStatus,
}

const ROWS: &[Row] = &[
    Row {
        script: b"open r best 1\nclose r\n",
        place: 9,
        read: 3,
        write: 0,
        replies: b"r open\n",
        fault: b"vmimage: read failed\n",
        status: ImageStatus::Read,
    },
    Row {
        script: b"open r best 1\n",
        place: 9,
        read: 0,
        write: 2,
        replies: b"r ope",
        fault: b"vmimage: write failed\n",
        status: ImageStatus::Write,
    },
    Row {
        script: b"count d1\n",
        place: 0,
        read: 0,
        write: 0,
        replies: b"",
        fault: b"vmimage: no discipline\n",
        status: ImageStatus::NotLent,
    },
    Row {
        script: b"count d1\n",
        place: 3,
        read: 0,
        write: 0,
        replies: b"",
        fault: b"vmimage: no discipline\n",
        status: ImageStatus::NotLent,
    },
];

// The prover takes a call of another crate that has no condition as one that may make a discipline, but where its caller has
// one; so this stands between.
fn ran<S: Source, O: Sink, E: Sink>(
    alloc: Global,
    place: u32,
    shelf: &mut Shelf,
    kinds: &mut Vec<BuiltIn>,
    source: &mut S,
    out: &mut O,
    err: &mut E,
) -> Result<MemSink, ImageStatus>
    requires { 0 ≤ 0 }
{
    if place == 9 {
        return make(alloc, shelf, kinds, source, out, err);
    }
    let image = b"VCIMAGE1\0\0\0\0\0\0\0\0\0\0\0\0";
    remake(alloc, image, place, shelf, kinds, source, out, err)
}

fn ends(rt: &impl Abort, alloc: Global, row: &Row) -> Result<(), Fail> {
    let mut kinds = Vec::new(alloc);
    kinds.push(BuiltIn::new(Shape::Whole))?;
    let mut shelf = Shelf::new(alloc);
    assert!(rt; shelf.len() < 2);
    assert!(rt; shelf.put(Box::new(alloc, HeapDisc::new(4096))?).is_ok());
    assert!(rt; shelf.len() < 2);
    let fuse = FuseDisc::new(64, vec![in alloc; 2]?);
    assert!(rt; shelf.put(Box::new(alloc, fuse)?).is_ok());
    let script = row.script.to_vec(alloc)?;
    let mut source = MemSource::new(script, 7, vec![in alloc; row.read]?);
    let mut out = MemSink::new(alloc, 400, 5, vec![in alloc; row.write]?)?;
    let mut err = MemSink::new(alloc, 400, 400, Vec::new(alloc))?;
    let made = ran(
        alloc,
        row.place,
        &mut shelf,
        &mut kinds,
        &mut source,
        &mut out,
        &mut err,
    );
    assert_eq!(rt; out.bytes(), row.replies);
    assert_eq!(rt; err.bytes(), row.fault);
    // Each discipline is back.
    assert!(rt; shelf.take(1).is_some() && shelf.take(2).is_some());
    match made {
        Ok(_) => assert!(rt; false),
        Err(status) => assert!(rt; status == row.status),
    }
    Ok(())
}

#[test]
fn failures(rt: HostRuntime) -> Result<(), Fail> {
    for row in ROWS {
        ends(&rt, rt.alloc(), row)?;
    }
    Ok(())
}
