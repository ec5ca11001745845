/// A call on a best region. Sizes are in bytes. The live blocks are counted from 0, in order of allocation; one that moves
/// keeps its place.
#[derive(Clone, Copy, Debug)]
pub enum BestCall {
    /// Puts a block of that size.
    Alloc(u32),
    /// Gives the live block of that number another size. It may move.
    Resize(u32, u32),
    /// Frees the live block of that number.
    Free(u32),
    /// Frees all blocks, and keeps the segments.
    Clear,
    /// Gives back each segment without a block.
    Compact,
}
