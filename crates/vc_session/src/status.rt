ghost use Rattle.std.specs.Prelude.{◌≡◌};

/// How a tool ends.
#[derive(Clone, Copy, Debug, PartialEq, Eq)]
pub enum Status {
    /// The script was read to its end and had no bad line.
    Ok,

    /// A line of the script is bad.
    Script,

    /// The words behind the program's name were refused.
    Usage,

    /// A read failed.
    Read,

    /// A write failed.
    Write,

    /// Want of memory.
    Memory,
}

impl Status {
    ghost use Rattle.vc_session.specs.Status.{number};

    /// The number that a program ends with, from 0 to 5.
    pub fn number(self) -> u8
        ensures { result ≡ number self }
    {
        match self {
            Status::Ok => 0,
            Status::Script => 1,
            Status::Usage => 2,
            Status::Read => 3,
            Status::Write => 4,
            Status::Memory => 5,
        }
    }
}
