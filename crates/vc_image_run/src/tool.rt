//! Judges the image of a region and shows what it holds, makes one of what a script leaves, and tells what is wrong. This
//! project's own.

mod fault;
mod making;
mod status;
mod task;
mod told;
mod tool;

pub use fault::ImageFault;
pub use making::{make, remake};
pub use status::ImageStatus;
pub use task::{ImageTask, task_of};
pub use told::tell;
pub use tool::{check, show};
