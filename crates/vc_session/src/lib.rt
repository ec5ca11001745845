//! Runs scripts over regions.
#![tactic(auto)]

mod asked;
pub mod audit_rows;
mod command;
pub mod cut_rows;
pub mod dict_rows;
mod engine;
mod gather;
mod generated;
pub mod method_rows;
pub mod quiet_rows;
pub mod run_rows;
mod scratch;
mod script;
mod status;
mod style;
mod tail;
mod told;
mod tool;
pub mod version_rows;
pub mod view_rows;

pub use engine::Stop;
pub use generated::generate;
pub use script::run_script;
pub use status::Status;
pub use tool::{dtrun, replay};
pub use vc_steps::{DictEntry, HomeEntry, Session};
