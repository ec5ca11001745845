ghost use Rattle.std.specs.Prelude.{◌≡◌};
ghost use Rattle.vc_ways.specs.Asking.{line_size};
ghost use Rattle.vc_ways.specs.LineParts.{LineEnds};
ghost use Rattle.vc_ways.specs.RegionsParts.{terms_of};
ghost use Rattle.vc_ways.specs.TraceParts.{CanClose, LeavesTrace, StandsSoFar, trace_state};

use crate::trace::out_of_memory;
use crate::{Stop, Trace};
use std::alloc::Global;
use vc_script::{LineAnswer, LineFault, Tool, read_line};
use vc_seg::SegDisc;

/// What is wrong with a line of a trace.
#[derive(Clone, Copy, Debug, PartialEq, Eq)]
pub enum Wrong {
    /// It is no line of a script.
    Bad(LineFault),
    /// Its command doesn't belong to a trace.
    Outside,
}

impl Trace {
    /// Runs the line of that number, from 1 on, given without its newline, and answers what is wrong with it. A line of
    /// blanks and a comment do nothing; line 1 may tell a version of scripts, which belongs to no trace. Reading a line takes memory; the other stops are those of `run`. After a stop the trace can only be
    /// closed.
    pub fn run_line(
        &mut self,
        alloc: Global,
        number: u32,
        line: &[u8],
    ) -> Result<Option<Wrong>, Stop>
        requires stands { StandsSoFar state self.old }
        ensures answer { LineEnds (terms_of state self.old.regions) (trace_state self.old) number line.now
            result (trace_state self.new) }
        ensures leaves { LeavesTrace state self.old (line_size number line.now) result self.new }
        ensures closes { CanClose state self.new }
    {
        let read = read_line(alloc, Tool::Vmreplay, number == 1, line);
        match &read {
            Ok(read) => match read {
                LineAnswer::Blank => Ok(None),
                LineAnswer::Version(_) => Ok(Some(Wrong::Outside)),
                LineAnswer::Bad(fault) => Ok(Some(Wrong::Bad(*fault))),
                LineAnswer::Is(command) => match self.run(command) {
                    Ok(true) => Ok(None),
                    Ok(false) => Ok(Some(Wrong::Outside)),
                    Err(stop) => Err(stop),
                },
            },
            Err(_) => Err(out_of_memory()),
        }
    }
}
