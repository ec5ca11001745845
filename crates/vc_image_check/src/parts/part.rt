/// A part of an image. This project's own.
#[derive(Clone, Copy, Debug, PartialEq, Eq)]
pub enum Part {
    /// The head.
    Header,
    /// The segment of that number.
    Segment(u32),
    /// The tree of free extents.
    Tree,
    /// The dictionary of that number, from 0 on.
    Dictionary(u32),
    /// The unlabelled blocks that no dictionary has.
    Rest,
}
