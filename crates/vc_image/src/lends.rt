//! The segments of a sound image, lent by a discipline and filled with the image's bytes. This project's own.

mod blocks;
mod fault;
mod lend;
mod region;
mod terms;

pub use fault::ImageLendFault;
pub use lend::lend_image;
pub use region::region_of_image;
pub use terms::terms_fault;
