//! Runs one trace of allocations in a best region, in a last region, and in pools by size class, from standard input, and
//! reports the peak and the waste of each.
#![tactic(auto)]

ghost use Rattle.std.specs.Prelude.{◌≡◌};
ghost use Rattle.std.specs.Process.{exit_status};
ghost use Rattle.vc_compare.specs.Status.{compare_status_number};

use std::process::ExitCode;
use vc_base::{StdSink, StdSource};
use vc_compare::{CompareStatus, compare};
use vc_main::words_of;
use vc_seg::{BoxedDisc, HeapDisc, SegDisc, Shelf};

// What the program ends with: the number of the status.
fn exit(status: CompareStatus) -> ExitCode
    ensures { exit_status result ≡ compare_status_number status }
{
    ExitCode::from(status.number())
}

// The discipline of each place rounds to 4,096 bytes and never refuses a segment. With no memory for them nothing is read or
// written.
fn main(rt: HostRuntime) -> ExitCode {
    let alloc = rt.alloc();
    let Ok(words) = words_of(&rt) else {
        return exit(CompareStatus::Memory);
    };
    let mut shelf = Shelf::new(alloc);
    for _put in 0..22u32 {
        let Ok(disc) = Box::new(alloc, HeapDisc::new(4096)) else {
            return exit(CompareStatus::Memory);
        };
        let Ok(_) = shelf.put(disc) else {
            return exit(CompareStatus::Memory);
        };
    }
    let mut source = StdSource::new(rt.stdin());
    let mut out = StdSink::new(rt.stdout());
    let mut err = StdSink::new(rt.stderr());
    exit(compare(
        alloc,
        words.as_slice(),
        &mut shelf,
        &mut source,
        &mut out,
        &mut err,
    ))
}
