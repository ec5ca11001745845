//! Keeps the words of its input's first line and those of the rest in two ordered sets of one region, and prints the words of
//! the first from one bound to another, and then, behind an empty line, those that both have. The bounds are the two words
//! behind the program's name. Ends with status 0, or with a line on standard error and status 1 for a word of more than 1,024
//! bytes or other than two bounds, 2 where the two sets can't be asked together, which never is, 3 for a failed read, 4 for a
//! failed write, 5 for want of memory.
#![tactic(auto)]

mod fault;
mod fill;
mod show;

ghost use Rattle.std.specs.Prelude.{◌≡◌, ◌≤◌, [], length, map};
ghost use Rattle.vc_base.specs.Prelude.{HasOut};
ghost use Rattle.vc_best.specs.Parts.{disc_in, segments_in};
ghost use Rattle.vc_algebra.specs.Filling.{CanFillIn};

use fault::Fault;
use fill::put_words;
use show::put_both;
use std::alloc::Global;
use std::io::{Eprint, Read, Write};
use std::process::ExitCode;
use vc_algebra::RegionLayers;
use vc_base::{DictMethod, Steps};
use vc_best::Best;
use vc_dict::{Dicts, Paths};
use vc_dtdisc::{BuiltIn, DictDisc, Shape};
use vc_main::words_of;
use vc_region::Region;
use vc_seg::{BoxedDisc, HeapDisc, SegDisc};

// Marks the compares of these calls.
struct Compares;

// Tells a fault, and answers what the program ends with.
fn end(rt: &impl Eprint, fault: Fault) -> ExitCode {
    let why = match fault {
        Fault::Words => "two bounds, and words of at most 1,024 bytes",
        Fault::Algebra => "two sets that can't be asked together",
        Fault::Read => "a read failed",
        Fault::Write => "a write failed",
        Fault::Memory => "want of memory",
    };
    let _ = eprintln!(rt; "ranges: {why}");
    ExitCode::from(fault as u8)
}

// The length of a text's first line.
fn line_of(text: &[u8]) -> usize
    ensures { result ≤ length text.now }
{
    for i in 0..text.len() {
        if text[i] == b'\n' {
            return i;
        }
    }
    text.len()
}

// The lines of the program, over sets of which there is none yet.
fn shown<D: DictDisc>(
    alloc: Global,
    sets: &mut RegionLayers<D>,
    text: &[u8],
    low: &[u8],
    high: &[u8],
) -> Result<Vec<u8>, Fault>
    requires fill { CanFillIn state (map D.rules sets.old.kinds.items)
        sets.old.region sets.old.dicts }
    requires none { sets.old.dicts ≡ [] }
    requires kind { length sets.old.kinds.items ≡ 1 }
{
    let mut steps: Steps<Compares> = Steps::new(alloc);
    let paths = Paths::new(alloc)?;
    let first = sets.open(DictMethod::DtOset, 1)?;
    let second = sets.open(DictMethod::DtOset, 1)?;
    let (line, rest) = text.split_at(line_of(text));
    put_words(sets, first, line, &mut steps)?;
    put_words(sets, second, rest, &mut steps)?;
    if !sets.has_path(&paths, first) || !sets.has_path(&paths, second) {
        return Err(Fault::Algebra);
    }
    put_both(alloc, &paths, sets, (first, second), low, high, &mut steps)
}

// So over a region of no segment.
fn told(alloc: Global, best: Best, text: &[u8], low: &[u8], high: &[u8]) -> Result<Vec<u8>, Fault>
    requires { HasOut (disc_in state best) (segments_in best) }
{
    let mut kinds = Vec::new(alloc);
    let Ok(()) = kinds.push(BuiltIn::new(Shape::Whole)) else {
        return Err(Fault::Memory);
    };
    let mut sets = RegionLayers {
        region: Region::Best(best),
        dicts: Dicts::new(alloc),
        kinds,
    };
    shown(alloc, &mut sets, text, low, high)
}

fn main(rt: HostRuntime) -> ExitCode {
    let Ok(bounds) = words_of(&rt) else {
        return end(&rt, Fault::Memory);
    };
    let [low, high] = bounds.as_slice() else {
        return end(&rt, Fault::Words);
    };
    let mut text = Vec::new(rt.alloc());
    let Ok(_) = rt.stdin().read_to_end(&mut text) else {
        return end(&rt, Fault::Read);
    };
    let Ok(disc) = Box::new(rt.alloc(), HeapDisc::new(65_536)) else {
        return end(&rt, Fault::Memory);
    };
    let Ok(best) = Best::open(rt.alloc(), disc) else {
        return end(&rt, Fault::Memory);
    };
    let (low, high) = (low.as_bytes(), high.as_bytes());
    match told(rt.alloc(), best, text.as_slice(), low, high) {
        Ok(lines) => match rt.stdout().write_all(lines.as_slice()) {
            Ok(()) => ExitCode::SUCCESS,
            Err(_) => end(&rt, Fault::Write),
        },
        Err(fault) => end(&rt, fault),
    }
}
