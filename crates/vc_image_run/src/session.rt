//! A session over the image of a region: the region is loaded and opened with its dictionaries. This project's own.

mod copies;
mod entries;
mod fault;
mod open;

pub use copies::copy_of;
pub use fault::OpenFault;
pub use open::session_of_image;
