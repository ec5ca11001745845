//! Images of a best region with its dictionaries, as definitions over bytes, and the check of an image's head.

mod header;
mod laws;

pub use header::{is_header, part, word};
pub use laws::{image_rows, read_of_written, written_of_read};
