//! The segments of a pool with their cells, how cells are carved, and the freed cells, linked in their own bytes. Nothing
//! here knows a discipline.

mod carve;
mod cell;
mod chain;
mod clear;
mod grow;
mod numbered;
mod open;
mod rows;
mod segment;
mod touch;

pub use carve::{carve_at, carve_lowest};
pub use cell::{find_cell, offset_of};
pub use chain::{put_back, reuse};
pub use clear::clear_all;
pub use grow::carve_new;
pub use segment::PoolSegment;
pub use touch::{pair_at, read_at, resize_at, write_at};
