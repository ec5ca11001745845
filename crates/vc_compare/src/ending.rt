use vc_script::LineFault;
use vc_ways::{Tally, Way};

/// What keeps a line of a trace from being run in all ways.
#[derive(Clone, Copy, Debug, PartialEq, Eq)]
pub enum Fault {
    /// It is no line of a script.
    Bad(LineFault),
    /// Its command doesn't belong to a trace.
    Outside,
    /// That way needs a segment, and its discipline refused it.
    NoSegment(Way),
    /// That way needs a segment, and may have no more.
    TooMany(Way),
}

/// How the run of a trace ends.
#[derive(Clone, Copy, Debug, PartialEq, Eq)]
pub enum Ending {
    /// All lines were run; that is what is reported of them.
    Finished(Tally),
    /// The line of that number, from 1 on, can't be run.
    Faulty(u32, Fault),
    /// A read failed.
    Read,
    /// Want of memory, or of a discipline at a place.
    Memory,
}
