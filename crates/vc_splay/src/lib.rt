//! Splay trees over a store of nodes that are named by numbers: each node's three links lie in the store.
#![tactic(auto)]

mod ends;
mod finding;
mod guide;
mod linking;
mod links;
mod neighbours;
mod nodes;
mod putting;
mod replacing;
mod rising;
mod rows;
mod short;
mod sides;
mod splaying;
mod unlinking;

pub use ends::{first, last};
pub use finding::{find_first, find_least_at};
pub use guide::Guide;
pub use linking::link_after_equals;
pub use links::Links;
pub use neighbours::{next, prev};
pub use nodes::Nodes;
pub use replacing::{Seat, seat_of, take_seat};
pub use rising::{Rising, rise};
pub use rows::{rank_rows, step_laws};
pub use sides::{kid, set_kid_of};
pub use splaying::splay;
pub use unlinking::unlink;
