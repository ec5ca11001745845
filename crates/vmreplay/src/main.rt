//! Runs a script over regions, from standard input to standard output.
#![tactic(auto)]

ghost use Rattle.std.specs.Prelude.{◌≡◌, [], map, string_bytes, vec_len};
ghost use Rattle.std.specs.Process.{exit_status};
ghost use Rattle.vc_script.specs.declared.tool.Tool.TheVariants.{Vmreplay};
ghost use Rattle.vc_session.specs.Promises.{EndsProgram, borrowed};
ghost use Rattle.vc_session.specs.Status.{number};
ghost use Rattle.vc_session.specs.Streams.{streams};
ghost use Rattle.vc_steps.specs.Moment.{moment_at_rest_by};
ghost use Rattle.vc_words.specs.Words.{words_of};

use std::alloc::Global;
use std::process::ExitCode;
use vc_base::{Sink, Source, StdSink, StdSource};
use vc_main::{budgeted, growing, heap_at, relieved, words_of};
use vc_seg::{BoxedDisc, SegDisc, Shelf};
use vc_session::{Status, replay};

// What the program ends with: the number of the status.
fn exit(status: Status) -> ExitCode
    ensures { exit_status result ≡ number status }
{
    ExitCode::from(status.number())
}

// Runs the tool over the disciplines of eighteen places, and answers what the program ends with: the number of its status.
fn run<S: Source, O: Sink, E: Sink>(
    alloc: Global,
    words: &[String],
    shelf: &mut Shelf,
    source: &mut S,
    out: &mut O,
    err: &mut E,
) -> ExitCode
    requires places { vec_len shelf.old.slots ≡ 18 }
    ensures { EndsProgram Vmreplay (words_of (map string_bytes words.now)) (exit_status result)
        (borrowed shelf.old (tt {0}) source.old out.old err.old)
        (borrowed shelf.new (tt {0}) source.new out.new err.new)
        (λ shelf _. moment_at_rest_by state [] [] shelf)
        (streams S.left S.failures O.written O.failures E.written E.failures) }
{
    exit(replay(alloc, words, shelf, source, out, err))
}

// Disciplines 1 to 12 never refuse a segment, 13 to 16 have a budget, 17 makes a segment longer, and 18 has a budget that
// it raises once. With no memory for them nothing is read or written.
fn main(rt: HostRuntime) -> ExitCode {
    let alloc = rt.alloc();
    let Ok(words) = words_of(&rt) else {
        return exit(Status::Memory);
    };
    let mut shelf = Shelf::new(alloc);
    for i in 0..12u32 {
        let Ok(disc) = Box::new(alloc, heap_at(i + 1)) else {
            return exit(Status::Memory);
        };
        let Ok(_) = shelf.put(disc) else {
            return exit(Status::Memory);
        };
    }
    for _budgeted in 0..4u32 {
        let Ok(disc) = Box::new(alloc, budgeted()) else {
            return exit(Status::Memory);
        };
        let Ok(_) = shelf.put(disc) else {
            return exit(Status::Memory);
        };
    }
    let Ok(disc) = Box::new(alloc, growing()) else {
        return exit(Status::Memory);
    };
    let Ok(_) = shelf.put(disc) else {
        return exit(Status::Memory);
    };
    let Ok(disc) = Box::new(alloc, relieved()) else {
        return exit(Status::Memory);
    };
    let Ok(_) = shelf.put(disc) else {
        return exit(Status::Memory);
    };
    let mut source = StdSource::new(rt.stdin());
    let mut out = StdSink::new(rt.stdout());
    let mut err = StdSink::new(rt.stderr());
    run(
        alloc,
        words.as_slice(),
        &mut shelf,
        &mut source,
        &mut out,
        &mut err,
    )
}
