//! One step of a session: a command on its open regions and dictionaries, over a shelf and kinds.
#![tactic(auto)]

mod arming;
mod close;
mod dict_open;
mod dict_run;
mod dict_shut;
mod dict_view;
mod dicts;
mod near;
mod open;
mod session;
mod sizes;

pub use session::Session;
pub use vc_commands::{DictEntry, HomeEntry};
