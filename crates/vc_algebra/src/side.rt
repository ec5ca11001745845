/// What is sought in a dictionary by a key, by how it stands to the key. This project's own.
#[derive(Clone, Copy)]
pub enum Side {
    /// The last that is less.
    Below,
    /// The first that has it.
    Level,
    /// The first that isn't less.
    AtLeast,
    /// The first that is greater.
    Above,
}
