//! What vmimage does: the image of what a script leaves, made, judged, shown, and run over. This project's own.
#![tactic(auto)]

mod script;
mod session;
mod text;
mod tool;

pub use script::{OverFault, ScriptFault};
pub use session::OpenFault;
pub use tool::{ImageFault, ImageStatus, ImageTask, check, make, remake, show, task_of, tell};
