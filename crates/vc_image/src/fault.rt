use thiserror::Error;
use vc_image_check::Part;

/// Why an image wasn't written whole. This project's own.
#[derive(Clone, Copy, Debug, PartialEq, Eq, Error)]
pub enum SaveFault {
    /// A write to the sink failed.
    #[error("WriteFailed")]
    WriteFailed,
    /// There is no memory for the head of the image. Nothing was written.
    #[error("OutOfMemory")]
    OutOfMemory,
}

/// Why an image isn't loaded. This project's own.
#[derive(Clone, Copy, Debug, PartialEq, Eq, Error)]
pub enum LoadFault {
    /// That part of the image isn't sound. It is the first one.
    #[error("Bad")]
    Bad(Part),
    /// The size of the segment of that number isn't a multiple of the discipline's round. It is the first one.
    #[error("Round")]
    Round(u32),
    /// The discipline makes a segment longer where it is asked for more, and the image has more than one.
    #[error("Grows")]
    Grows,
    /// The discipline refused the segment of that number.
    #[error("NoSegment")]
    NoSegment(u32),
    /// Want of memory.
    #[error("OutOfMemory")]
    OutOfMemory,
}
