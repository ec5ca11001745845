//! The unlabelled blocks of an image, read from its bytes.

mod blocks;
mod taking;

pub use blocks::ImageBlocks;
pub use taking::take_block;
