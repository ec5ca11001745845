//! Runs a script over regions and the dictionaries in them, from standard input to standard output.
#![tactic(auto)]

ghost use Rattle.std.specs.Prelude.{◌≡◌, map, string_bytes, vec_len};
ghost use Rattle.std.specs.Process.{exit_status};
ghost use Rattle.vc_main.specs.Places.{shapes};
ghost use Rattle.vc_script.specs.declared.tool.Tool.TheVariants.{Dtrun};
ghost use Rattle.vc_session.specs.Promises.{EndsProgram, borrowed};
ghost use Rattle.vc_session.specs.Status.{number};
ghost use Rattle.vc_session.specs.Streams.{streams};
ghost use Rattle.vc_steps.specs.Moment.{moment_at_rest};
ghost use Rattle.vc_words.specs.Words.{words_of};

use std::alloc::Global;
use std::process::ExitCode;
use vc_base::{Sink, Source, StdSink, StdSource};
use vc_dtdisc::{BuiltIn, DictDisc};
use vc_main::{budgeted, growing, heap_at, kinds, relieved, words_of};
use vc_seg::{BoxedDisc, SegDisc, Shelf};
use vc_session::{Status, dtrun};

// What the program ends with: the number of the status.
fn exit(status: Status) -> ExitCode
    ensures { exit_status result ≡ number status }
{
    ExitCode::from(status.number())
}

// Runs the tool over the disciplines of eighteen places, and answers what the program ends with: the number of its status.
fn run<S: Source, O: Sink, E: Sink>(
    alloc: Global,
    words: &[String],
    shelf: &mut Shelf,
    kinds: &mut Vec<BuiltIn>,
    source: &mut S,
    out: &mut O,
    err: &mut E,
) -> ExitCode
    requires places { vec_len shelf.old.slots ≡ 18 }
    requires kinds { map (λ kind. kind.shape) kinds.old.items ≡ shapes }
    ensures { EndsProgram Dtrun (words_of (map string_bytes words.now)) (exit_status result)
        (borrowed shelf.old kinds.old source.old out.old err.old)
        (borrowed shelf.new kinds.new source.new out.new err.new)
        (λ shelf kinds. moment_at_rest state ⟦<BuiltIn as DictDisc>⟧.rules ⟦<BuiltIn as DictDisc>⟧.gone shelf kinds.items)
        (streams S.left S.failures O.written O.failures E.written E.failures) }
{
    exit(dtrun(alloc, words, shelf, kinds, source, out, err))
}

// Disciplines 1 to 12 never refuse a segment, 13 to 16 have a budget, 17 makes a segment longer, and 18 has a budget that
// it raises once. With no memory for them nothing is read or written.
fn main(rt: HostRuntime) -> ExitCode {
    let alloc = rt.alloc();
    let Ok(words) = words_of(&rt) else {
        return exit(Status::Memory);
    };
    let Ok(mut kinds) = kinds(alloc) else {
        return exit(Status::Memory);
    };
    let mut shelf = Shelf::new(alloc);
    for i in 0..12u32 {
        let Ok(disc) = Box::new(alloc, heap_at(i + 1)) else {
            return exit(Status::Memory);
        };
        let Ok(_) = shelf.put(disc) else {
            return exit(Status::Memory);
        };
    }
    for _budgeted in 0..4u32 {
        let Ok(disc) = Box::new(alloc, budgeted()) else {
            return exit(Status::Memory);
        };
        let Ok(_) = shelf.put(disc) else {
            return exit(Status::Memory);
        };
    }
    let Ok(disc) = Box::new(alloc, growing()) else {
        return exit(Status::Memory);
    };
    let Ok(_) = shelf.put(disc) else {
        return exit(Status::Memory);
    };
    let Ok(disc) = Box::new(alloc, relieved()) else {
        return exit(Status::Memory);
    };
    let Ok(_) = shelf.put(disc) else {
        return exit(Status::Memory);
    };
    let mut source = StdSource::new(rt.stdin());
    let mut out = StdSink::new(rt.stdout());
    let mut err = StdSink::new(rt.stderr());
    run(
        alloc,
        words.as_slice(),
        &mut shelf,
        &mut kinds,
        &mut source,
        &mut out,
        &mut err,
    )
}
