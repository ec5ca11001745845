use vc_base::Name;

/// What a profile region counts for a site. The site of blocks without one is `-`.
#[derive(Clone, Copy, Debug, PartialEq, Eq)]
pub struct ProfileRow {
    /// The site, without an `@`.
    pub site: Name,
    /// The number of blocks.
    pub blocks: u64,
    /// The bytes of all blocks.
    pub bytes: u64,
    /// The greatest number of bytes after a command.
    pub peak: u64,
}
