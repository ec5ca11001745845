//! A bounded table of keys, each a word behind the program's name. For each it tells whether the table has it, and puts it
//! there where it hasn't. A set holds the keys, and a queue beside it tells their age: while the budget of one of them
//! refuses a segment, the oldest key goes. Ends with status 0, or with a line on standard error and status 1 for a key of the
//! wrong size, 2 for a key that finds no room in an empty table, 4 for a failed write, 5 for want of memory.
#![tactic(auto)]

mod ask;
mod table;

use ask::{Fault, ask_keys};
use std::io::{Eprint, Write};
use std::process::ExitCode;
use vc_best::Best;
use vc_main::words_of;
use vc_seg::{BudgetDisc, SegDisc};

// Tells a fault, and answers what the program ends with.
fn end(rt: &impl Eprint, fault: Fault) -> ExitCode {
    let why = match fault {
        Fault::WrongSize => "a key has 1 to 1,024 bytes",
        Fault::NoRoom => "no room for a key",
        Fault::Write => "a write failed",
        Fault::Memory => "want of memory",
    };
    let _ = eprintln!(rt; "cache: {why}");
    ExitCode::from(fault as u8)
}

fn main(rt: HostRuntime) -> ExitCode {
    let Ok(keys) = words_of(&rt) else {
        return end(&rt, Fault::Memory);
    };
    let Ok(first) = Box::new(rt.alloc(), BudgetDisc::new(256, 512)) else {
        return end(&rt, Fault::Memory);
    };
    let Ok(second) = Box::new(rt.alloc(), BudgetDisc::new(256, 512)) else {
        return end(&rt, Fault::Memory);
    };
    let Ok(set) = Best::open(rt.alloc(), first) else {
        return end(&rt, Fault::Memory);
    };
    let Ok(queue) = Best::open(rt.alloc(), second) else {
        return end(&rt, Fault::Memory);
    };
    let (told, _, _) = ask_keys(rt.alloc(), set, queue, keys.as_slice());
    match told {
        Ok(lines) => match rt.stdout().write_all(lines.as_slice()) {
            Ok(()) => ExitCode::SUCCESS,
            Err(_) => end(&rt, Fault::Write),
        },
        Err(fault) => end(&rt, fault),
    }
}
