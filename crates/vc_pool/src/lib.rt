//! A region of cells of one size over the segments of a discipline.
#![tactic(auto, unfolding(crate::specs::Read::pool_by))]

mod block;
mod cells;
mod compact;
mod count;
mod lend;
mod longer;
mod pool;
mod put;
mod room;
mod segments;
mod walks;

pub use cells::PoolSegment;
pub use pool::Pool;
