ghost use Rattle.std.specs.Prelude.{◌≡◌, []};

use crate::{Command, LineFault};
use std::alloc::Global;

/// What a line asks for.
#[derive(Drop, PartialEq, Eq)]
pub enum LineAnswer {
    /// Nothing: the line has no word, or is a comment.
    Blank,
    /// A command.
    Is(Command),
    /// A version of the language, on the first line alone: 1 or 2.
    Version(u32),
    /// Nothing that can be done: what is wrong with the line.
    Bad(LineFault),
}

impl LineAnswer {
    // Takes the memory of the object or key that a line asked for, to be used for that of the next one.
    pub(crate) fn take_room(&mut self, alloc: Global) -> Vec<u8>
        ensures { result.items ≡ [] }
    {
        match self {
            LineAnswer::Is(command) => command.take_room(alloc),
            _ => Vec::new(alloc),
        }
    }
}
