//! Which part of an image is the first that isn't sound, checked on its bytes; and images as definitions over bytes.
#![tactic(auto)]

mod blocks;
mod bytes;
mod dicts;
mod gaps;
mod lists;
mod marks;
mod orders;
mod parts;
mod segments;
mod walks;

pub use bytes::{image_rows, read_of_written, word, written_of_read};
pub use dicts::{heads_of, method_of, sound_is_whole, unsound_part};
pub use parts::Part;
