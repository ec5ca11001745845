/// What a region holds: numbers of blocks and of gaps, and their sizes in bytes.
#[derive(Clone, Copy, Debug, PartialEq, Eq)]
pub struct Stat {
    /// The number of blocks.
    pub busy: u64,
    /// The number of gaps.
    pub free: u64,
    /// The bytes of all blocks.
    pub sbusy: u64,
    /// The bytes of all gaps.
    pub sfree: u64,
    /// The bytes of the largest block.
    pub mbusy: u64,
    /// The bytes of the largest gap.
    pub mfree: u64,
    /// The number of segments.
    pub segs: u32,
    /// The bytes of all segments.
    pub extent: u64,
}
