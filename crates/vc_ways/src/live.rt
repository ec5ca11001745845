use vc_base::Addr;

/// A live block of a trace.
#[derive(Clone, Copy, Debug, PartialEq, Eq)]
pub struct Live {
    /// Its size in bytes, from 1 to 16,777,216.
    pub size: u32,
    /// Its address in the best region.
    pub best: Addr,
    /// How many blocks of the last region were allocated before it.
    pub last: usize,
    /// The address of its cell in the pool of its class.
    pub cell: Addr,
}
