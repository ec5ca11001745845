//! Segments that are tiled by extents, free or busy. Their heads, boundary words and free links lie in the bytes of the
//! segments themselves.
#![tactic(auto)]

mod body;
mod border;
mod bytes;
mod change;
mod copied;
mod edit;
mod extents;
mod lay;
mod lent;
mod near;
mod next;
mod read;
mod widen;

pub use extents::Extents;
