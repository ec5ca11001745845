use crate::given::{ample, run};
use std::alloc::{AllocError, Global};
use std::process::Abort;
use std::test::Fail;
use vc_session::Status;

// What kinds note while a script is run, without what else is noted, which isn't theirs.
struct Row {
    script: &'static [u8],
    notes: &'static [u8],
}

const ROWS: &[Row] = &[
    // At the end a stack, an ordered set of the other kind and a queue are shut in order of opening, each told as it is
    // walked.
    Row {
        script: b"open r best 1\nopen s best 2\ndict p stack s 1\ndict q oset r 2\ndict t queue s 1\n\
insert t a5\ninsert p a1\ninsert p b2\ninsert q c3\ninsert q b4\ninsert t b7\ninsert p a6\n",
        notes: b"+1a5 +1a1 +1b2 +2c3 +2b4 +1b7 +1a6 -1a6 -1b2 -1a1 -2b4 -2c3 -1a5 -1b7 ",
    },
    // A bag becomes a set, which drops 3, 4 and 5.
    Row {
        script: b"open r best 1\ndict d bag r 1\ninsert d a1\ninsert d b2\ninsert d a3\ninsert d b4\ninsert d a5\nmethod d set\nempty d\n",
        notes: b"+1a1 +1b2 +1a3 +1b4 +1a5 -1a3 -1b4 -1a5 -1a1 -1b2 ",
    },
    // A queue becomes an ordered set, which drops 4 and 3 by their keys, and is shut with 2 and 1.
    Row {
        script: b"open r best 1\ndict e queue r 2\ninsert e b1\ninsert e a2\ninsert e b3\ninsert e a4\nmethod e oset\nshut e\n",
        notes: b"+2b1 +2a2 +2b3 +2a4 -2a4 -2b3 -2a2 -2b1 ",
    },
    // A set deletes 7, takes 8 out untold, and has 9 at the end.
    Row {
        script: b"open r best 1\ndict d set r 1\ninsert d c7\ninsert d a8\ndelete d c\ndetach d a\ninsert d b9\n",
        notes: b"+1c7 +1a8 -1c7 +1b9 -1b9 ",
    },
    // Of every command that puts an object, takes one out or looks for one: `insert` and `append` make one, `attach`
    // makes none, and the kind is told of the bytes that are there.
    Row {
        script: b"open r best 1\ndict l list r 3\ninsert l a1x\nappend l b2x\nattach l c3x\n\
search l a1x\nmatch l b2\nfirst l\nlast l\nnext l a1x\nprev l b2x\nwalk l\ncount l\n\
method l oset\ndelete l b2y\ndetach l c3y\ndelete l z\ndelete l\ndetach l z\nempty l\n\
attach l d4x\ninsert l e5x\nshut l\n",
        notes: b"+3a1x +3b2x -3b2 -3a1 +3e5x -3d4x -3e5 ",
    },
];

// Of commands on a list whose object has a byte too many, and of two whose method or dictionary isn't right.
const REFUSED: &[&[u8]] = &[
    b"open r best 1\ndict l list r 1\ndict q queue r 1\nappend q a\ninsert m a\ninsert l ",
    b"append l ",
    b"attach l ",
    b"delete l ",
    b"detach l ",
    b"search l ",
    b"match l ",
    b"next l ",
    b"prev l ",
];

fn is_told(rt: &impl Abort, alloc: Global, script: &[u8], notes: &[u8]) -> Result<(), AllocError> {
    let ended = run(rt, alloc, ample(script))?;
    assert!(rt; ended.status == Status::Ok);
    let mut told = Vec::new(alloc);
    let mut is_own = false;
    for byte in ended.notes.iter() {
        is_own = is_own || *byte == b'+' || *byte == b'-';
        if is_own {
            told.push(*byte)?;
        }
        is_own = is_own && *byte != b' ';
    }
    assert_eq!(rt; told.as_slice(), notes, "{script:?}");
    Ok(())
}

#[test]
fn told(rt: HostRuntime) -> Result<(), Fail> {
    let alloc = rt.alloc();
    for row in ROWS {
        is_told(&rt, alloc, row.script, row.notes)?;
    }
    let long = Vec::from_elem(alloc, b'x', 1025)?;
    let mut script = Vec::new(alloc);
    for command in REFUSED {
        script.extend_from_slice(*command)?;
        script.extend_from_slice(long.as_slice())?;
        script.push(b'\n')?;
    }
    is_told(&rt, alloc, script.as_slice(), b"")?;
    Ok(())
}
