//! View paths: which dictionary views which, and what is found through them. After Cdt's dtview.
#![tactic(auto)]

mod direction;
mod fault;
mod layers;
mod ordered;
mod paths;
mod plain;
mod rows;
mod views;

pub use fault::ViewFault;
pub use layers::Layers;
pub use paths::Paths;
pub use views::{first, last, next, prev, search, walk_next};
