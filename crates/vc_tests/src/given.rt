use crate::noted::{Answers, NotedDisc, NotedKind, NotedSink, NotedSource, Notes};
use std::alloc::{AllocError, Global};
use std::cell::{Cell, RefCell};
use std::process::Abort;
use std::rc::Rc;
use vc_base::{MemSink, MemSource};
use vc_dtdisc::{BuiltIn, Shape};
use vc_script::Tool;
use vc_seg::{SegDisc, Shelf};
use vc_session::{Status, dtrun, replay};

// What a tool is given: words with a blank between each two, and a script, which comes in pieces. The read of one number
// fails, counted from 1, so does one write of replies and one of the line of what is wrong, and there is room for so many
// bytes of replies. Each of four disciplines has that budget, and grows or doesn't.
#[derive(Clone, Copy)]
pub(crate) struct Given<'a> {
    pub tool: Tool,
    pub words: &'a str,
    pub script: &'a [u8],
    pub piece: usize,
    pub read: u64,
    pub write: u64,
    pub err_write: u64,
    pub room: usize,
    pub budget: u64,
    pub grows: bool,
    pub answers: Answers,
}

// A script for dtrun where nothing fails.
pub(crate) fn ample(script: &[u8]) -> Given {
    Given {
        tool: Tool::Dtrun,
        words: "",
        script,
        piece: 4096,
        read: 0,
        write: 0,
        err_write: 0,
        room: 1_000_000,
        budget: 1 << 40,
        grows: false,
        answers: Answers {
            refused: &[],
            without_memory: 0,
            exceptions: 0,
        },
    }
}

// How it ends: what was written, what was noted, and how many compares were made.
#[derive(Drop)]
pub(crate) struct Ended {
    pub status: Status,
    pub out: Vec<u8>,
    pub err: Vec<u8>,
    pub notes: Vec<u8>,
    pub compares: u32,
}

// Puts a discipline behind the others.
fn put(rt: &impl Abort, shelf: &mut Shelf, disc: Box<dyn SegDisc>) -> Result<(), AllocError> {
    assert!(rt; shelf.len() < u32::MAX);
    match shelf.put(disc) {
        Ok(_) => Ok(()),
        Err(_) => Err(AllocError),
    }
}

// The four disciplines.
fn shelf_of(
    rt: &impl Abort,
    alloc: Global,
    given: Given,
    notes: &Notes,
) -> Result<Shelf, AllocError> {
    let mut shelf = Shelf::new(alloc);
    for place in 1..5 {
        let disc = NotedDisc::new(
            alloc,
            given.budget,
            given.grows,
            place,
            given.answers,
            notes,
        )?;
        put(rt, &mut shelf, Box::new(alloc, disc)?)?;
    }
    Ok(shelf)
}

// Kinds 1 and 2, whose keys are an object's first byte, kind 3, which makes objects of two bytes, and kind 4, whose keys
// are whole objects.
fn kinds_of(
    alloc: Global,
    notes: &Notes,
    compares: &Rc<Cell<u32>>,
) -> Result<Vec<NotedKind>, AllocError> {
    let mut kinds = Vec::new(alloc);
    for (number, shape) in [
        (1, Shape::Field { off: 0, size: 1 }),
        (2, Shape::Field { off: 0, size: 1 }),
        (3, Shape::Clip { n: 2 }),
        (4, Shape::Whole),
    ] {
        kinds.push(NotedKind {
            inner: BuiltIn::new(shape),
            number,
            compares: compares.clone()?,
            notes: notes.clone()?,
        })?;
    }
    Ok(kinds)
}

fn words_of(alloc: Global, line: &str) -> Result<Vec<String>, AllocError> {
    let mut words = Vec::new(alloc);
    for word in line.split(' ') {
        if !word.is_empty() {
            words.push(String::from_str(alloc, word)?)?;
        }
    }
    Ok(words)
}

// The numbers of the calls that fail.
fn failing(alloc: Global, number: u64) -> Result<Vec<u64>, AllocError> {
    let mut fails = Vec::new(alloc);
    fails.push(number)?;
    Ok(fails)
}

fn sink(
    rt: &impl Abort,
    alloc: Global,
    room: usize,
    given: Given,
    fails: u64,
    letter: &'static [u8],
    notes: &Notes,
) -> Result<NotedSink, AllocError> {
    assert!(rt; 1 <= given.piece);
    match MemSink::new(alloc, room, given.piece, failing(alloc, fails)?) {
        Ok(inner) => Ok(NotedSink {
            inner,
            letter,
            notes: notes.clone()?,
        }),
        Err(_) => Err(AllocError),
    }
}

// What was noted.
fn text_of(alloc: Global, notes: &Notes) -> Result<Vec<u8>, AllocError> {
    match notes.try_borrow() {
        Ok(text) => text.as_slice().to_vec(alloc),
        Err(_) => Ok(Vec::new(alloc)),
    }
}

// Runs the tool.
pub(crate) fn run(rt: &impl Abort, alloc: Global, given: Given) -> Result<Ended, AllocError> {
    let notes = Rc::new(alloc, RefCell::new(Vec::new(alloc)))?;
    let compares = Rc::new(alloc, Cell::new(0))?;
    let mut shelf = shelf_of(rt, alloc, given, &notes)?;
    let mut kinds = kinds_of(alloc, &notes, &compares)?;
    let words = words_of(alloc, given.words)?;
    assert!(rt; 1 <= given.piece);
    let mut source = NotedSource {
        inner: MemSource::new(
            given.script.to_vec(alloc)?,
            given.piece,
            failing(alloc, given.read)?,
        ),
        notes: notes.clone()?,
    };
    let mut out = sink(rt, alloc, given.room, given, given.write, b"W", &notes)?;
    let mut err = sink(rt, alloc, 100, given, given.err_write, b"E", &notes)?;
    let words = words.as_slice();
    let status = match given.tool {
        Tool::Vmreplay => replay(alloc, words, &mut shelf, &mut source, &mut out, &mut err),
        Tool::Dtrun => dtrun(
            alloc,
            words,
            &mut shelf,
            &mut kinds,
            &mut source,
            &mut out,
            &mut err,
        ),
    };
    Ok(Ended {
        status,
        out: out.inner.bytes().to_vec(alloc)?,
        err: err.inner.bytes().to_vec(alloc)?,
        notes: text_of(alloc, &notes)?,
        compares: compares.get(),
    })
}

// Runs the tool, and looks at what comes of it.
pub(crate) fn is_run(
    rt: &impl Abort,
    alloc: Global,
    given: Given,
    status: Status,
    written: [&[u8]; 3],
) -> Result<(), AllocError> {
    let ended = run(rt, alloc, given)?;
    let [out, err, notes] = written;
    let script = given.script;
    assert_eq!(rt; ended.status, status, "{script:?}");
    assert_eq!(rt; ended.out.as_slice(), out, "{script:?}");
    assert_eq!(rt; ended.err.as_slice(), err, "{script:?}");
    assert_eq!(rt; ended.notes.as_slice(), notes, "{script:?}");
    Ok(())
}
