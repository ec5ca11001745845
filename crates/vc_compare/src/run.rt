ghost use Rattle.std.specs.Prelude.{◌≡◌, ◌≢◌, ◌≤◌, IfOk, IfSome, IfErr, OnErr, Ok, OnOk, false, is_ok};
ghost use Rattle.vc_compare.specs.Ending.{EndsAs, RunsTraceLine, StopsAs, ending_of};
ghost use Rattle.vc_compare.specs.Refusal.{RefusesAsked};
ghost use Rattle.vc_compare.specs.Terms.{terms_on};
ghost use Rattle.vc_compare.specs.Reading.{CanRead, lines_to_come};
ghost use Rattle.vc_model.specs.Count.{Rose};
ghost use Rattle.vc_script.specs.Judged.{judged_lines};
ghost use Rattle.vc_ways.specs.Answer.{KeepsWays};
ghost use Rattle.vc_ways.specs.Asking.{AreRefused, Refuses};
ghost use Rattle.vc_ways.specs.Lends.{HasAllBack};
ghost use Rattle.vc_ways.specs.RegionsParts.{all_holdings, terms_of};
ghost use Rattle.vc_ways.specs.Settled.{slots_on};
ghost use Rattle.vc_ways.specs.Step.{start};
ghost use Rattle.vc_ways.specs.TraceParts.{CanClose, StandsSoFar, trace_state};

use crate::ending::{Ending, Fault};
use crate::lines::{LineReader, Next};
use std::alloc::Global;
use vc_base::Source;
use vc_seg::{RegionFault, SegDisc, Shelf};
use vc_ways::{Regions, Stop, Trace, Wrong};

// How a trace ends at a line at which a way stops it.
fn stopped(n: u32, stop: Stop) -> Ending
    ensures { StopsAs n stop result }
{
    match stop.fault {
        RegionFault::TooManySegments => Ending::Faulty(n, Fault::TooMany(stop.way)),
        RegionFault::NoSegment => Ending::Faulty(n, Fault::NoSegment(stop.way)),
        _ => Ending::Memory,
    }
}

// How a trace ends at a line with which that is wrong; where nothing is, it goes on.
fn judged(n: u32, wrong: Option<Wrong>) -> Result<(), Ending>
    ensures { result ≡ ending_of n wrong }
{
    match wrong {
        None => Ok(()),
        Some(wrong) => match wrong {
            Wrong::Bad(fault) => Err(Ending::Faulty(n, Fault::Bad(fault))),
            Wrong::Outside => Err(Ending::Faulty(n, Fault::Outside)),
        },
    }
}

// Runs the last line of a reader, and answers how the trace ends there, if it does.
fn run_line(alloc: Global, trace: &mut Trace, reader: &LineReader) -> Result<(), Ending>
    requires stands { StandsSoFar state trace.old }
    ensures runs { RunsTraceLine (terms_of state trace.old.regions) (trace_state trace.old)
        (λ asked. Refuses asked (all_holdings state trace.old.regions) (all_holdings state trace.new.regions))
        reader.now.cutter.count reader.now.cutter.line result (trace_state trace.new) }
    ensures stands { OnOk result (StandsSoFar state trace.new) }
    ensures keeps { KeepsWays (is_ok result) (all_holdings state trace.old.regions)
        (all_holdings state trace.new.regions) }
    ensures closes { CanClose state trace.new }
{
    let n = reader.number();
    match trace.run_line(alloc, n, reader.line()) {
        Ok(wrong) => judged(n, wrong),
        Err(stop) => Err(stopped(n, stop)),
    }
}

// Runs the lines of a source up to its end, or to the first that can't be run.
fn run_lines<S: Source>(
    alloc: Global,
    trace: &mut Trace,
    reader: &mut LineReader,
    source: &mut S,
) -> Ending
    requires stands { StandsSoFar state trace.old }
    requires can { CanRead reader.old }
    ensures ends { IfSome (S.left source.old) (λ input. EndsAs (terms_of state trace.old.regions)
        (trace_state trace.old)
        (AreRefused (all_holdings state trace.old.regions) (all_holdings state trace.new.regions))
        (lines_to_come reader.old input) result (S.left source.new)) }
    ensures keeps { KeepsWays false (all_holdings state trace.old.regions)
        (all_holdings state trace.new.regions) }
    ensures closes { CanClose state trace.new }
    ensures cause { result ≡ Ending.Read → Rose (S.failures source.old) (S.failures source.new) }
    ensures never_falls { S.failures source.old ≤ S.failures source.new }
{
    loop {
        let next = match reader.next(source) {
            Ok(next) => next,
            Err(_) => return Ending::Read,
        };
        match next {
            Next::Line => match run_line(alloc, trace, reader) {
                Ok(()) => {}
                Err(ending) => return ending,
            },
            Next::Last => match run_line(alloc, trace, reader) {
                Ok(()) => return Ending::Finished(trace.tally),
                Err(ending) => return ending,
            },
            Next::Bad(fault) => return Ending::Faulty(reader.number() + 1, Fault::Bad(fault)),
            Next::End => return Ending::Finished(trace.tally),
        }
    }
}

// Runs the trace that a source gives over the disciplines of a shelf's places 1 to 22, and gives them back.
// The check asks for a condition on a call that could drop a box; this one always holds.
pub(crate) fn run<S: Source>(alloc: Global, shelf: &mut Shelf, source: &mut S) -> Ending
    requires { 0 ≤ 0 }
    ensures ends { IfSome (S.left source.old) (λ input. EndsAs (terms_on (slots_on state shelf.old)) start
        (RefusesAsked (slots_on state shelf.old) (slots_on state shelf.new))
        (judged_lines input) result (S.left source.new)) }
    ensures keeps { HasAllBack (slots_on state shelf.old) (slots_on state shelf.new) }
    ensures cause { result ≡ Ending.Read → Rose (S.failures source.old) (S.failures source.new) }
    ensures never_falls { S.failures source.old ≤ S.failures source.new }
{
    let Ok(mut reader) = LineReader::new(alloc) else {
        return Ending::Memory;
    };
    let regions = match Regions::open(alloc, shelf) {
        Ok(regions) => regions,
        Err(_) => return Ending::Memory,
    };
    let mut trace = Trace::new(alloc, regions);
    let ending = run_lines(alloc, &mut trace, &mut reader, source);
    trace.close(shelf);
    ending
}
