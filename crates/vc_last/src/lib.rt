//! A region of blocks one behind another over the segments of a discipline. Only the latest block is freed or resized.
#![tactic(auto)]

mod ask;
mod block;
mod compact;
mod free;
mod head;
mod last;
mod place;
mod put;
mod range;
mod resize;
mod stat;
mod walk;

pub use last::Last;
