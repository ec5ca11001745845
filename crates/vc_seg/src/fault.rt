ghost use Rattle.std.specs.Prelude.{◌≡◌};

use thiserror::Error;
use vc_base::OutOfMemory;

/// Why a segment was not lent, or not made longer.
#[derive(Clone, Copy, Debug, PartialEq, Eq, Error)]
pub enum LendFault {
    /// The discipline refused.
    #[error("Refused")]
    Refused,
    /// Want of memory.
    #[error("OutOfMemory")]
    OutOfMemory,
}

impl From<OutOfMemory> for LendFault {
    ghost use Rattle.vc_seg.specs.declared.fault.LendFault.TheVariants.{OutOfMemory};

    ghost from_gives = { λ _ fault. fault ≡ OutOfMemory };

    fn from(_: OutOfMemory) -> LendFault {
        LendFault::OutOfMemory
    }
}

/// Why a call of a region was refused. Each call tells which of these it can answer.
#[derive(Clone, Copy, Debug, PartialEq, Eq, Error)]
pub enum RegionFault {
    /// A segment is needed and the region has 1,023, or the one that grows would have more than 33,554,432 bytes.
    #[error("TooManySegments")]
    TooManySegments,
    /// A segment is needed and the discipline refused it.
    #[error("NoSegment")]
    NoSegment,
    /// Want of memory.
    #[error("OutOfMemory")]
    OutOfMemory,
    /// The block can't stay where it is, and moving isn't allowed.
    #[error("Fixed")]
    Fixed,
    /// The size is above the pool's element size.
    #[error("PoolSize")]
    PoolSize,
    /// The block isn't the last of its region.
    #[error("NotLast")]
    NotLast,
    /// The method doesn't serve this call.
    #[error("WrongMethod")]
    WrongMethod,
}
