use crate::given::{Given, ample, run};
use crate::noted::Answers;
use std::alloc::{AllocError, Global};
use std::process::Abort;
use vc_script::Tool;
use vc_session::Status;

// Runs a script over disciplines that refuse their second lend. All replies are written, or memory was wanting behind a
// front of those before the last.
fn is_right(
    rt: &impl Abort,
    alloc: Global,
    script: &[u8],
    exceptions: u64,
    out: &[u8],
    front: &[u8],
) -> Result<(), AllocError> {
    let given = Given {
        tool: Tool::Vmreplay,
        answers: Answers {
            refused: &[2],
            without_memory: 0,
            exceptions,
        },
        ..ample(script)
    };
    let ended = run(rt, alloc, given)?;
    let written = ended.out.as_slice();
    match ended.status {
        Status::Ok => assert!(rt; written == out),
        Status::Memory => {
            assert!(rt; ended.err.as_slice() == b"vmreplay: out of memory\n".as_slice());
            assert!(rt; front.starts_with(written));
        }
        _ => assert!(rt; false),
    }
    Ok(())
}

// Each allocation may fail in turn: a lend that finds no memory isn't made again, since the second would be refused.
#[test]
fn lend_once(rt: HostRuntime) {
    let script = b"open r best 1\nalloc r a 100\n";
    let _ = is_right(&rt, rt.alloc(), script, 0, b"r open\na 1:32\n", b"r open\n");
}

// Nor is one behind an exception, which is made for the second block.
#[test]
fn lend_twice(rt: HostRuntime) {
    let script = b"vc 2\nopen r best 1\nalloc r a 100\nalloc r b 4000\n";
    let out = b"2 r open\n3 a 1:32\n4 b 2:32\n";
    let front = b"2 r open\n3 a 1:32\n";
    let _ = is_right(&rt, rt.alloc(), script, 1, out, front);
}
