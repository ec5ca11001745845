use crate::given::{Given, ample, is_run, run};
use std::alloc::{AllocError, Global};
use std::process::Abort;
use std::test::Fail;
use vc_script::Tool;
use vc_session::Status;

// A script of vmreplay, its last line so many times, that comes in pieces, and is written in such; the read, the write of
// replies and that of the line of what is wrong that fail; and how it ends, with the reply to the last line so many times.
struct Row {
    script: &'static [u8],
    line: (&'static [u8], u32),
    piece: usize,
    fails: [u64; 3],
    status: Status,
    out: &'static [u8],
    reply: (&'static [u8], u32),
    err: &'static [u8],
    notes: &'static [u8],
}

const NONE: (&[u8], u32) = (b"", 0);

const ONE: &[u8] = b"open r best 1\nalloc r a 100\n";

const BAD: &[u8] = b"open r best 1\nfrobnicate it\nalloc r a 100\n";

const READ_FAILED: &[u8] = b"vmreplay: read failed\n";

const WRITE_FAILED: &[u8] = b"vmreplay: write failed\n";

const BAD_LINE: &[u8] = b"vmreplay: line 2: unknown command\n";

const ROWS: &[Row] = &[
    // Each line is a piece: its reply is written before the next read, and there is no read behind the end.
    Row {
        script: ONE,
        line: NONE,
        piece: 14,
        fails: [0, 0, 0],
        status: Status::Ok,
        out: b"r open\na 1:32\n",
        reply: NONE,
        err: b"",
        notes: b"RuWRlWR<111u",
    },
    Row {
        script: ONE,
        line: NONE,
        piece: 14,
        fails: [4, 0, 0],
        status: Status::Ok,
        out: b"r open\na 1:32\n",
        reply: NONE,
        err: b"",
        notes: b"RuWRlWR<111u",
    },
    // Nothing is written for a line that asks for nothing.
    Row {
        script: b"# no reply it\nopen r best 1\nalloc r a 100\n",
        line: NONE,
        piece: 14,
        fails: [0, 0, 0],
        status: Status::Ok,
        out: b"r open\na 1:32\n",
        reply: NONE,
        err: b"",
        notes: b"RRuWRlWR<111u",
    },
    Row {
        script: b"# no reply\n\n",
        line: NONE,
        piece: 4,
        fails: [0, 1, 0],
        status: Status::Ok,
        out: b"",
        reply: NONE,
        err: b"",
        notes: b"RRRR",
    },
    // A read that fails isn't made again: every later one would not fail.
    Row {
        script: ONE,
        line: NONE,
        piece: 14,
        fails: [1, 0, 0],
        status: Status::Read,
        out: b"",
        reply: NONE,
        err: READ_FAILED,
        notes: b"REE",
    },
    Row {
        script: ONE,
        line: NONE,
        piece: 14,
        fails: [2, 0, 0],
        status: Status::Read,
        out: b"r open\n",
        reply: NONE,
        err: READ_FAILED,
        notes: b"RuWRuEE",
    },
    Row {
        script: ONE,
        line: NONE,
        piece: 14,
        fails: [3, 0, 0],
        status: Status::Read,
        out: b"r open\na 1:32\n",
        reply: NONE,
        err: READ_FAILED,
        notes: b"RuWRlWR<111uEE",
    },
    // The last line isn't whole.
    Row {
        script: b"open r best 1\nalloc r a",
        line: NONE,
        piece: 4096,
        fails: [2, 0, 0],
        status: Status::Read,
        out: b"r open\n",
        reply: NONE,
        err: READ_FAILED,
        notes: b"RuWRuE",
    },
    // Nor is a write, and nothing is read behind it.
    Row {
        script: ONE,
        line: NONE,
        piece: 14,
        fails: [0, 1, 0],
        status: Status::Write,
        out: b"",
        reply: NONE,
        err: WRITE_FAILED,
        notes: b"RuWuEE",
    },
    Row {
        script: ONE,
        line: NONE,
        piece: 14,
        fails: [0, 2, 0],
        status: Status::Write,
        out: b"r open\n",
        reply: NONE,
        err: WRITE_FAILED,
        notes: b"RuWRlW<111uEE",
    },
    Row {
        script: ONE,
        line: NONE,
        piece: 5,
        fails: [0, 2, 0],
        status: Status::Write,
        out: b"r ope",
        reply: NONE,
        err: WRITE_FAILED,
        notes: b"RRRuWWuEEEEE",
    },
    // What was gathered is written before the line of a bad line, which is one write where it is taken whole.
    Row {
        script: BAD,
        line: NONE,
        piece: 14,
        fails: [0, 0, 0],
        status: Status::Script,
        out: b"r open\n",
        reply: NONE,
        err: BAD_LINE,
        notes: b"RuWRuEEE",
    },
    Row {
        script: BAD,
        line: NONE,
        piece: 4096,
        fails: [0, 0, 2],
        status: Status::Script,
        out: b"r open\n",
        reply: NONE,
        err: BAD_LINE,
        notes: b"RuWuE",
    },
    Row {
        script: BAD,
        line: NONE,
        piece: 4096,
        fails: [0, 1, 0],
        status: Status::Write,
        out: b"",
        reply: NONE,
        err: WRITE_FAILED,
        notes: b"RuWuE",
    },
    Row {
        script: BAD,
        line: NONE,
        piece: 4096,
        fails: [0, 0, 1],
        status: Status::Write,
        out: b"r open\n",
        reply: NONE,
        err: b"",
        notes: b"RuWuE",
    },
    Row {
        script: BAD,
        line: NONE,
        piece: 5,
        fails: [0, 0, 2],
        status: Status::Write,
        out: b"r open\n",
        reply: NONE,
        err: b"vmrep",
        notes: b"RRRuWWRRRuEE",
    },
    // The line of another fault isn't written again.
    Row {
        script: ONE,
        line: NONE,
        piece: 4096,
        fails: [1, 0, 1],
        status: Status::Read,
        out: b"",
        reply: NONE,
        err: b"",
        notes: b"RE",
    },
    Row {
        script: ONE,
        line: NONE,
        piece: 4096,
        fails: [0, 1, 1],
        status: Status::Write,
        out: b"",
        reply: NONE,
        err: b"",
        notes: b"RulW<111uE",
    },
    // The first read gives 454 lines and two bytes, and the second the rest. The replies to each are one write.
    Row {
        script: b"open r best 1\nalloc r a 1\n",
        line: (b"size r a\n", 500),
        piece: 4096,
        fails: [0, 0, 0],
        status: Status::Ok,
        out: b"r open\na 1:32\n",
        reply: (b"a 1\n", 500),
        err: b"",
        notes: b"RulWRWR<111u",
    },
    Row {
        script: b"open r best 1\nalloc r a 1\n",
        line: (b"size r a\n", 500),
        piece: 4096,
        fails: [0, 3, 0],
        status: Status::Ok,
        out: b"r open\na 1:32\n",
        reply: (b"a 1\n", 500),
        err: b"",
        notes: b"RulWRWR<111u",
    },
    Row {
        script: b"open r best 1\nalloc r a 1\n",
        line: (b"size r a\n", 500),
        piece: 4096,
        fails: [0, 1, 0],
        status: Status::Write,
        out: b"",
        reply: NONE,
        err: WRITE_FAILED,
        notes: b"RulW<111uE",
    },
    Row {
        script: b"open r best 1\nalloc r a 1\n",
        line: (b"size r a\n", 500),
        piece: 4096,
        fails: [0, 2, 0],
        status: Status::Write,
        out: b"r open\na 1:32\n",
        reply: (b"a 1\n", 452),
        err: WRITE_FAILED,
        notes: b"RulWRW<111uE",
    },
    // So are 7,200 bytes to what one read gives.
    Row {
        script: b"open r best 1\nalloc r a 1\n",
        line: (b"stat r\n", 100),
        piece: 10000,
        fails: [0, 2, 0],
        status: Status::Ok,
        out: b"r open\na 1:32\n",
        reply: (
            b"busy 1 free 1 sbusy 1 sfree 4032 mbusy 1 mfree 4032 segs 1 extent 4096\n",
            100,
        ),
        err: b"",
        notes: b"RulWR<111u",
    },
    // A line of 4,097 bytes is too long, and a read that fails before no byte shows it.
    Row {
        script: b"",
        line: (b"a", 5000),
        piece: 1024,
        fails: [4, 0, 0],
        status: Status::Read,
        out: b"",
        reply: NONE,
        err: READ_FAILED,
        notes: b"RRRRE",
    },
    Row {
        script: b"",
        line: (b"a", 5000),
        piece: 1024,
        fails: [5, 0, 0],
        status: Status::Read,
        out: b"",
        reply: NONE,
        err: READ_FAILED,
        notes: b"RRRRRE",
    },
    Row {
        script: b"",
        line: (b"a", 5000),
        piece: 1024,
        fails: [6, 0, 0],
        status: Status::Script,
        out: b"",
        reply: NONE,
        err: b"vmreplay: line 1: line too long\n",
        notes: b"RRRRRE",
    },
];

fn repeated(
    alloc: Global,
    text: &[u8],
    (line, times): (&[u8], u32),
) -> Result<Vec<u8>, AllocError> {
    let mut all = text.to_vec(alloc)?;
    for _line in 0..times {
        all.extend_from_slice(line)?;
    }
    Ok(all)
}

fn is_streamed(rt: &impl Abort, alloc: Global, row: &Row) -> Result<(), AllocError> {
    let script = repeated(alloc, row.script, row.line)?;
    let out = repeated(alloc, row.out, row.reply)?;
    let [read, write, err_write] = row.fails;
    let given = Given {
        tool: Tool::Vmreplay,
        piece: row.piece,
        read,
        write,
        err_write,
        ..ample(script.as_slice())
    };
    is_run(
        rt,
        alloc,
        given,
        row.status,
        [out.as_slice(), row.err, row.notes],
    )
}

#[test]
fn streams(rt: HostRuntime) -> Result<(), Fail> {
    for row in ROWS {
        is_streamed(&rt, rt.alloc(), row)?;
    }
    Ok(())
}

// Words behind the program's name are bad, also where that can't be written, which is tried in one write.
#[test]
fn words(rt: HostRuntime) -> Result<(), Fail> {
    for (err_write, status, err) in [
        (2, Status::Usage, b"vmreplay: bad arguments\n".as_slice()),
        (1, Status::Write, b""),
    ] {
        let given = Given {
            tool: Tool::Vmreplay,
            words: "--frob",
            err_write,
            ..ample(ONE)
        };
        is_run(&rt, rt.alloc(), given, status, [b"", err, b"E"])?;
    }
    Ok(())
}

// Generated commands of which each is refused a segment. Of the lines of that two writes are the first to come to 4,096
// bytes, the others are a third one, and what is counted a fourth one.
#[test]
fn generated(rt: HostRuntime) -> Result<(), Fail> {
    let given = Given {
        tool: Tool::Vmreplay,
        words: "--gen 1000 --seed 42",
        budget: 0,
        ..ample(b"")
    };
    let given = Given {
        piece: 20_000,
        ..given
    };
    let all = run(&rt, rt.alloc(), given)?;
    assert!(rt; all.out.len() == 12_122);
    for (write, status, len) in [
        (1, Status::Write, 0),
        (2, Status::Write, 4106),
        (3, Status::Write, 8210),
        (4, Status::Write, 12_075),
        (5, Status::Ok, 12_122),
    ] {
        let ended = run(&rt, rt.alloc(), Given { write, ..given })?;
        assert!(rt; ended.status == status);
        assert!(rt; ended.out.len() == len);
        assert!(rt; all.out.starts_with(ended.out.as_slice()));
    }
    Ok(())
}
