use thiserror::Error;
use vc_image::LoadFault;

/// Why the image of a store wasn't written whole. This project's own.
#[derive(Clone, Copy, Debug, PartialEq, Eq, Error)]
pub enum StoreSaveFault {
    /// An image can't tell its dictionaries: more than 256 are there, or one has a number from 2^32 - 1 on. Nothing was
    /// written.
    #[error("TooMany")]
    TooMany,
    /// A write to the sink failed.
    #[error("WriteFailed")]
    WriteFailed,
    /// There is no memory for the head of the image. Nothing was written.
    #[error("OutOfMemory")]
    OutOfMemory,
}

/// Why no store is loaded from an image. This project's own.
#[derive(Clone, Copy, Debug, PartialEq, Eq, Error)]
pub enum StoreLoadFault {
    /// The image isn't sound, its segments aren't lent, or there is no memory.
    #[error("NotLoaded")]
    NotLoaded(LoadFault),
    /// Two dictionaries of the image have one kind, so that they would have one number. It is sound, and its segments were
    /// lent.
    #[error("SharedKind")]
    SharedKind,
}
