ghost use Rattle.std.specs.Prelude.{◌≡◌};

/// How a comparison ends.
#[derive(Clone, Copy, Debug, PartialEq, Eq)]
pub enum CompareStatus {
    /// The trace was run to its end in each way, and the report was written.
    Ok,

    /// A line is bad, or not one of a trace.
    Script,

    /// The words behind the program's name were refused.
    Usage,

    /// A read failed.
    Read,

    /// A write failed.
    Write,

    /// Want of memory, or of a discipline at a place.
    Memory,

    /// A way needs a segment, and its discipline refused it.
    NoSegment,

    /// A way needs a segment, and may have no more.
    TooMany,
}

impl CompareStatus {
    ghost use Rattle.vc_compare.specs.Status.{compare_status_number};

    /// The number that a program ends with, from 0 to 7.
    pub fn number(self) -> u8
        ensures { result ≡ compare_status_number self }
    {
        match self {
            CompareStatus::Ok => 0,
            CompareStatus::Script => 1,
            CompareStatus::Usage => 2,
            CompareStatus::Read => 3,
            CompareStatus::Write => 4,
            CompareStatus::Memory => 5,
            CompareStatus::NoSegment => 6,
            CompareStatus::TooMany => 7,
        }
    }
}
