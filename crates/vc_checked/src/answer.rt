ghost use Rattle.std.specs.Prelude.{◌≡◌};
ghost use Rattle.vc_checked.specs.Answers.{answer_of_put, answer_to_fault};

use vc_seg::RegionFault;
use vc_store::Put;

/// What a call answers. Each answer has a number of its own.
#[derive(Clone, Copy, Debug, PartialEq, Eq)]
pub enum Answer {
    /// It is done.
    Done,
    /// The object is longer than the buffer, which stays as it was. Its length was told.
    TooSmall,
    /// Want of memory.
    OutOfMemory,
    /// A set has an object of that key, which stays.
    Old,
    /// There is no such object.
    NoObject,
    /// The number is that of no dictionary.
    NoDict,
    /// The number is that of no method.
    NoMethod,
    /// The number is that of no kind.
    NoKind,
    /// The object has no byte, or more than 1,024.
    WrongSize,
    /// The region has no room, and gets no further segment.
    NoSegment,
}

impl Answer {
    ghost use Rattle.std.specs.Prelude.{◌≡◌};
    ghost use Rattle.vc_checked.specs.Answers.{answer_number};

    /// Its number: 0 where it is done, and from 4 to 12 the others in their order.
    pub fn number(self) -> u32
        ensures { result ≡ answer_number self }
    {
        match self {
            Answer::Done => 0,
            Answer::TooSmall => 4,
            Answer::OutOfMemory => 5,
            Answer::Old => 6,
            Answer::NoObject => 7,
            Answer::NoDict => 8,
            Answer::NoMethod => 9,
            Answer::NoKind => 10,
            Answer::WrongSize => 11,
            Answer::NoSegment => 12,
        }
    }
}

// What a call answers to what became of an object.
pub(crate) fn told(put: Put) -> Answer
    ensures { result ≡ answer_of_put put }
{
    match put {
        Put::New => Answer::Done,
        Put::Old => Answer::Old,
        Put::NoSegment => Answer::NoSegment,
        Put::OutOfMemory => Answer::OutOfMemory,
        Put::WrongSize => Answer::WrongSize,
    }
}

// What a call answers where a region has no room for a table.
pub(crate) fn fault_of(fault: RegionFault) -> Answer
    ensures { result ≡ answer_to_fault fault }
{
    match fault {
        RegionFault::OutOfMemory => Answer::OutOfMemory,
        _ => Answer::NoSegment,
    }
}
