//! Whether the tree of free extents that an image names is sound, checked on its bytes.

mod free_extents;
mod tree;

pub use tree::is_sound_tree;
