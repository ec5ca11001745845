use crate::given::{Ended, Given, ample, run};
use crate::noted::Answers;
use std::alloc::{AllocError, Global};
use std::process::Abort;
use std::test::Fail;
use vc_session::Status;

// What is run, and all that is written.
struct Row {
    words: &'static str,
    budget: u64,
    exceptions: u64,
    script: &'static [u8],
    out: &'static [u8],
}

const ROWS: &[Row] = &[
    Row {
        words: "",
        budget: 4096,
        exceptions: 0,
        script: b"open r best 1\nalloc r a 100\nclose r\n",
        out: b"r open\na 1:32\nr closed 1\n",
    },
    Row {
        words: "--quiet",
        budget: 4096,
        exceptions: 0,
        script: b"open r best 1\nalloc r a 4000\nalloc r b 4000\nalloc r c 4000\n",
        out: b"3 refused: no segment\n4 refused: no segment\nlines 4\ndone 2\nrefused 2\nlent 1 4096\npeak 4000\n",
    },
    Row {
        words: "--quiet --stat",
        budget: 4096,
        exceptions: 0,
        script: b"open r best 1\nalloc r a 100\nalloc r b 4000\n",
        out: b"3 refused: no segment\nlines 3\ndone 2\nrefused 1\nlent 1 4096\npeak 100\nstat r busy 1 free 1 sbusy 100 sfree 3936 mbusy 100 mfree 3936 segs 1 extent 4096\n",
    },
    // Of the two objects that are inserted, k348 and k171, the second has the key of the first, `k`, and isn't put.
    Row {
        words: "--gen 4 --seed 42",
        budget: 4096,
        exceptions: 0,
        script: b"",
        out: b"lines 8\ndone 8\nrefused 0\nlent 1 4096\npeak 36\n",
    },
    // Behind an exception.
    Row {
        words: "",
        budget: 8192,
        exceptions: 1,
        script: b"vc 2\nopen r best 1\nalloc r a 4000\nalloc r b 4000\nalloc r c 4000\n",
        out: b"2 r open\n3 a 1:32\n4 b 2:32\n5 refused: no segment\n",
    },
];

// It comes in pieces, and is written in such.
fn given(row: &Row, piece: usize) -> Given<'static> {
    Given {
        words: row.words,
        piece,
        room: row.out.len(),
        budget: row.budget,
        answers: Answers {
            refused: if row.exceptions == 0 { &[] } else { &[2] },
            without_memory: 0,
            exceptions: row.exceptions,
        },
        ..ample(row.script)
    }
}

fn count(ended: &Ended, letter: u8) -> u64 {
    let mut count: u64 = 0;
    for note in ended.notes.iter() {
        if *note == letter {
            count = count.wrapping_add(1);
        }
    }
    count
}

// A read that fails is the last call on a stream but one of the line of that, or of many where it is written in pieces, and
// what is written is a front of all.
fn each_read(
    rt: &impl Abort,
    alloc: Global,
    given: Given,
    out: &[u8],
    reads: u64,
) -> Result<(), AllocError> {
    for read in 1..reads.wrapping_add(1) {
        let ended = run(rt, alloc, Given { read, ..given })?;
        assert!(rt; ended.status == Status::Read);
        assert!(rt; out.starts_with(ended.out.as_slice()));
        assert!(rt; ended.err.as_slice() == b"dtrun: read failed\n".as_slice());
        assert!(rt; count(&ended, b'R') == read);
    }
    Ok(())
}

// With less room than that of all, just that much is written of it.
fn each_room(rt: &impl Abort, alloc: Global, given: Given, out: &[u8]) -> Result<(), AllocError> {
    for room in 0..out.len() {
        let ended = run(rt, alloc, Given { room, ..given })?;
        assert!(rt; ended.status == Status::Write);
        assert!(rt; ended.out.len() == room);
        assert!(rt; out.starts_with(ended.out.as_slice()));
        assert!(rt; ended.err.as_slice() == b"dtrun: write failed\n".as_slice());
    }
    Ok(())
}

// No call fails, and there is room for no byte more; and then each one fails in turn.
fn each_place(rt: &impl Abort, alloc: Global, row: &Row, piece: usize) -> Result<(), AllocError> {
    let given = given(row, piece);
    let ended = run(rt, alloc, given)?;
    assert!(rt; ended.status == Status::Ok);
    assert_eq!(rt; ended.out.as_slice(), row.out);
    assert!(rt; ended.err.is_empty());
    each_read(rt, alloc, given, row.out, count(&ended, b'R'))?;
    each_room(rt, alloc, given, row.out)
}

#[test]
fn places(rt: HostRuntime) -> Result<(), Fail> {
    for row in ROWS {
        for piece in [1, 7, 4096] {
            each_place(&rt, rt.alloc(), row, piece)?;
        }
    }
    Ok(())
}
