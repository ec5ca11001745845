//! Which part of an image is the first that isn't sound: its head, a segment, or the tree of its free extents.

mod front;
mod part;

pub use front::unsound_front;
pub use part::Part;
