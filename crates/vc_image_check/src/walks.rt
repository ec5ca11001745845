//! Trees of nodes that are named by numbers, walked in order where nothing is known of their links.

mod known;
mod walk;

pub use known::Known;
pub use walk::in_order;
