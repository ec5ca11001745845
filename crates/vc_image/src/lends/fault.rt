use thiserror::Error;

/// Why a discipline doesn't lend the segments of an image. This project's own.
#[derive(Clone, Copy, Debug, PartialEq, Eq, Error)]
pub enum ImageLendFault {
    /// The size of the segment of that number isn't a multiple of the discipline's round. It is the first one.
    #[error("Round")]
    Round(u32),
    /// The discipline makes a segment longer where it is asked for more, and the image has more than one.
    #[error("Grows")]
    Grows,
    /// The discipline refused the segment of that number.
    #[error("NoSegment")]
    NoSegment(u32),
    /// Want of memory.
    #[error("OutOfMemory")]
    OutOfMemory,
}
