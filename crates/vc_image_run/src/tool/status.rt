ghost use Rattle.std.specs.Prelude.{◌≡◌};

/// How a task on an image ends. This project's own.
#[derive(Clone, Copy, Debug, PartialEq, Eq)]
pub enum ImageStatus {
    /// The image is sound, and what was asked for is written.
    Done,

    /// A part of the image isn't sound.
    Unsound,

    /// The words behind the program's name were refused.
    Usage,

    /// The file, or the script, can't be read.
    Read,

    /// A write failed.
    Write,

    /// Want of memory.
    Memory,

    /// The image is sound, and the discipline doesn't lend it its segments.
    NotLent,

    /// Something is wrong with a line of the script.
    Script,

    /// The script leaves no region open, or the first one isn't of the method best.
    NoImage,
}

impl ImageStatus {
    ghost use Rattle.vc_image_run.specs.Tool.Status.{image_status_number};

    /// The number that a program ends with, from 0 to 8.
    pub fn number(self) -> u8
        ensures { result ≡ image_status_number self }
    {
        match self {
            ImageStatus::Done => 0,
            ImageStatus::Unsound => 1,
            ImageStatus::Usage => 2,
            ImageStatus::Read => 3,
            ImageStatus::Write => 4,
            ImageStatus::Memory => 5,
            ImageStatus::NotLent => 6,
            ImageStatus::Script => 7,
            ImageStatus::NoImage => 8,
        }
    }
}
