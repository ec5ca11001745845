//! A memory region of one of the methods over the segments of a discipline.
#![tactic(auto)]

mod alloc;
mod audit;
mod block;
mod cells;
mod free;
mod of_best;
mod region;
mod resize;
mod segments;
mod walk;

pub use region::Region;
pub use vc_seg::{Method, ProfileRow, Stat};
