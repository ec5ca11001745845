//! What begins where in the segments of an image: a byte for each 32 bytes of them.

mod marks;
mod row;
mod seek;

pub use marks::Marks;
