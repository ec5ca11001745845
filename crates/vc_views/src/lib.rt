//! The open dictionaries of a session as the layers of view paths.
#![tactic(auto)]

mod finding;
mod layers;
mod looking;
mod near;
mod numbers;
mod places;
mod viewing;

pub use layers::DictLayers;
pub use looking::look_at;
pub use near::index_near;
pub use numbers::{end_views, free_number, is_barred, refusal_of, show_names};
pub use places::best_of;
pub use viewing::view_at;
