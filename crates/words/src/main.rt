//! Counts the words of its input in an ordered set, and prints each behind its number, in ascending order of bytes. A word
//! is a longest run of bytes above 32, and has at most 1,016. Ends with status 0, or with a line on standard error and
//! status 1 for a longer word, 3 for a failed read, 4 for a failed write, 5 for want of memory.
#![tactic(auto)]

mod count;
mod report;

use report::{Fault, tell_words};
use std::io::{Eprint, Read, Write};
use std::process::ExitCode;
use vc_best::Best;
use vc_seg::{HeapDisc, SegDisc};

// Tells a fault, and answers what the program ends with.
fn end(rt: &impl Eprint, fault: Fault) -> ExitCode {
    let why = match fault {
        Fault::TooLong => "a word has more than 1,016 bytes",
        Fault::Read => "a read failed",
        Fault::Write => "a write failed",
        Fault::Memory => "want of memory",
    };
    let _ = eprintln!(rt; "words: {why}");
    ExitCode::from(fault as u8)
}

fn main(rt: HostRuntime) -> ExitCode {
    let mut text = Vec::new(rt.alloc());
    let Ok(_) = rt.stdin().read_to_end(&mut text) else {
        return end(&rt, Fault::Read);
    };
    let Ok(disc) = Box::new(rt.alloc(), HeapDisc::new(65_536)) else {
        return end(&rt, Fault::Memory);
    };
    let Ok(best) = Best::open(rt.alloc(), disc) else {
        return end(&rt, Fault::Memory);
    };
    let (told, _) = tell_words(rt.alloc(), best, text.as_slice());
    match told {
        Ok(lines) => match rt.stdout().write_all(lines.as_slice()) {
            Ok(()) => ExitCode::SUCCESS,
            Err(_) => end(&rt, Fault::Write),
        },
        Err(fault) => end(&rt, fault),
    }
}
