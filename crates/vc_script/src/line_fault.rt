/// What is wrong with a line.
#[derive(Clone, Copy, Debug, PartialEq, Eq)]
pub enum LineFault {
    /// The first word is no command of the tool.
    UnknownCommand,
    /// The command doesn't take this number of words.
    WordCount,
    /// A word should be a name, or `@` and a name.
    BadName,
    /// A word should be a number.
    BadNumber,
    /// A word should be an address.
    BadAddress,
    /// A `%` in a word isn't followed by two hexadecimal digits.
    BadBytes,
    /// A word should be a method or a mode.
    UnknownMethod,
    /// The line has more than 4,096 bytes before its newline.
    LineTooLong,
    /// The line's number is above 2,147,483,647.
    TooManyLines,
    /// The first line asks for a version of the language that isn't 1 or 2.
    UnknownVersion,
}

impl LineFault {
    ghost use Rattle.std.specs.Prelude.{◌≡◌, ◌≤◌, length};
    ghost use Rattle.vc_script.specs.Faults.{fault_text};

    /// It as it is told, in at most 22 letters.
    pub fn text(self) -> &'static str
        ensures text { result.now ≡ fault_text self }
        ensures short { length result.now ≤ 22 }
    {
        match self {
            LineFault::UnknownCommand => "unknown command",
            LineFault::WordCount => "wrong number of words",
            LineFault::BadName => "bad name",
            LineFault::BadNumber => "bad number",
            LineFault::BadAddress => "bad address",
            LineFault::BadBytes => "bad bytes",
            LineFault::UnknownMethod => "unknown method or mode",
            LineFault::LineTooLong => "line too long",
            LineFault::TooManyLines => "too many lines",
            LineFault::UnknownVersion => "unknown version",
        }
    }
}
