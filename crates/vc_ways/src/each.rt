/// A number of bytes for each way.
#[derive(Clone, Copy, Debug, PartialEq, Eq)]
pub struct Each {
    /// Of the best region.
    pub best: u64,
    /// Of the last region.
    pub last: u64,
    /// Of all pools.
    pub pool: u64,
}
