ghost use Rattle.std.specs.Prelude.{◌≡◌, length};
ghost use Rattle.vc_compare.specs.Comparison.{Comparison, Finishes, TellsEnd, flow, status_of_trace_fault};
ghost use Rattle.vc_compare.specs.Streams.{NoneFalls, sinks};
ghost use Rattle.vc_ways.specs.Settled.{slots_on};

use crate::CompareStatus;
use crate::ending::{Ending, Fault};
use crate::run::run;
use crate::told::{tell, tell_fault};
use std::alloc::Global;
use vc_base::{Sink, Source, write_all};
use vc_seg::{SegDisc, Shelf};
use vc_ways::{Tally, report};

// Writes the report of a trace, and ends with a status.
fn finish<O: Sink, E: Sink>(alloc: Global, tally: &Tally, out: &mut O, err: &mut E) -> CompareStatus
    ensures finishes { Finishes tally.now result
        (sinks O.written O.failures E.written E.failures out.old err.old)
        (sinks O.written O.failures E.written E.failures out.new err.new) }
    ensures counts { NoneFalls
        (sinks O.written O.failures E.written E.failures out.old err.old)
        (sinks O.written O.failures E.written E.failures out.new err.new) }
{
    let Ok(text) = report(alloc, tally) else {
        let _ = tell(err, "out of memory");
        return CompareStatus::Memory;
    };
    match write_all(out, text.as_slice()) {
        Ok(()) => CompareStatus::Ok,
        Err(_) => {
            let _ = tell(err, "write failed");
            CompareStatus::Write
        }
    }
}

// The status of a line that can't be run.
fn status_of(fault: Fault) -> CompareStatus
    ensures { result ≡ status_of_trace_fault fault }
{
    match fault {
        Fault::Bad(_) | Fault::Outside => CompareStatus::Script,
        Fault::NoSegment(_) => CompareStatus::NoSegment,
        Fault::TooMany(_) => CompareStatus::TooMany,
    }
}

// Tells how a trace ended, and ends with a status.
fn end<O: Sink, E: Sink>(alloc: Global, ending: Ending, out: &mut O, err: &mut E) -> CompareStatus
    ensures ends { TellsEnd ending result
        (sinks O.written O.failures E.written E.failures out.old err.old)
        (sinks O.written O.failures E.written E.failures out.new err.new) }
    ensures counts { NoneFalls
        (sinks O.written O.failures E.written E.failures out.old err.old)
        (sinks O.written O.failures E.written E.failures out.new err.new) }
{
    match ending {
        Ending::Finished(tally) => finish(alloc, &tally, out, err),
        Ending::Faulty(n, fault) => match tell_fault(err, n, fault) {
            Ok(()) => status_of(fault),
            Err(_) => CompareStatus::Write,
        },
        Ending::Read => {
            let _ = tell(err, "read failed");
            CompareStatus::Read
        }
        Ending::Memory => {
            let _ = tell(err, "out of memory");
            CompareStatus::Memory
        }
    }
}

/// Runs the trace that the source gives three ways, over the disciplines of a shelf's places 1 to 22, writes what is reported
/// of it to `out`, and ends with a status. There are to be no words. The best region is over place 1, the last region over
/// place 2, and the classes over 3 to 22. The report is written once the trace is run to its end; a fault goes to `err`, as
/// one line. Each discipline is given back to its place.
pub fn compare<S: Source, O: Sink, E: Sink>(
    alloc: Global,
    words: &[String],
    shelf: &mut Shelf,
    source: &mut S,
    out: &mut O,
    err: &mut E,
) -> CompareStatus
    ensures { Comparison (length words.now) result (slots_on state shelf.old) (slots_on state shelf.new)
        (flow S.left S.failures source.old) (flow S.left S.failures source.new)
        (sinks O.written O.failures E.written E.failures out.old err.old)
        (sinks O.written O.failures E.written E.failures out.new err.new) }
{
    if !words.is_empty() {
        return match tell(err, "bad arguments") {
            Ok(()) => CompareStatus::Usage,
            Err(_) => CompareStatus::Write,
        };
    }
    let ending = run(alloc, shelf, source);
    end(alloc, ending, out, err)
}
