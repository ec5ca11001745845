use std::alloc::AllocError;
use vc_algebra::AlgebraFault;
use vc_base::OutOfMemory;

// Why the program prints nothing, by its status.
#[derive(Clone, Copy)]
pub(crate) enum Fault {
    // There aren't two bounds, or a word has more than 1,024 bytes.
    Words = 1,
    // Two dictionaries can't be asked together.
    Algebra = 2,
    // A read failed.
    Read = 3,
    // A write failed.
    Write = 4,
    // Want of memory.
    Memory = 5,
}

impl From<OutOfMemory> for Fault {
    fn from(_why: OutOfMemory) -> Fault {
        Fault::Memory
    }
}

impl From<AllocError> for Fault {
    fn from(_why: AllocError) -> Fault {
        Fault::Memory
    }
}

impl From<AlgebraFault> for Fault {
    fn from(_why: AlgebraFault) -> Fault {
        Fault::Algebra
    }
}
