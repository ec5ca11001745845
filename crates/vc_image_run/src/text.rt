//! The text that tells a best region and its dictionaries, as the commands that look at them print it. This project's own.

mod blocks;
mod objects;
mod segments;
mod text;

pub use text::text_of;
