/// What a block wants that a best region doesn't put.
#[derive(Clone, Copy, Debug, PartialEq, Eq)]
pub enum Want {
    /// A segment, where the region has as many as it can have.
    TooManySegments,
    /// A segment that the discipline refused.
    NoSegment,
}

/// What becomes of an object that is put into a dictionary.
#[derive(Clone, Copy, Debug, PartialEq, Eq)]
pub enum Fate {
    /// It is stored.
    Stored,
    /// The larger table that it needs wants something.
    NoTable(Want),
    /// Its holder wants something. Where the table grew before, the larger one stays.
    NoHolder(Want),
}
