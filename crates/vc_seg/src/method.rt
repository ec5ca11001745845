/// How a region lays out its blocks.
#[derive(Clone, Copy, Debug, PartialEq, Eq)]
pub enum Method {
    /// Blocks of any size, each in the gap that fits it best.
    VmBest,
    /// Blocks of one size, which the first block sets.
    VmPool,
    /// Blocks one behind the other, of which only the last is freed.
    VmLast,
    /// Blocks between guard bytes, whose freed names are kept.
    VmDebug,
    /// Blocks as in `VmBest`, counted for each site.
    VmProfile,
}
