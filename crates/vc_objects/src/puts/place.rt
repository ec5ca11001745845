/// Where a way down a tree ends. This project's own.
#[derive(Clone, Copy, Debug, PartialEq, Eq)]
pub(crate) enum Place {
    // At a node that is what is sought.
    Taken(u32),
    // Where there is no node: below this one, 0 where the tree has none, and whether on its left.
    Free(u32, bool),
}
