//! Runs a script and makes the image of the first region that it leaves open. This project's own.

mod copies;
mod fault;
mod image;
mod over;
mod over_fault;
mod running;

pub use fault::ScriptFault;
pub use over::image_over_image;
pub use over_fault::OverFault;
pub use running::image_of_script;
