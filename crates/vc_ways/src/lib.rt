//! One trace of allocations run three ways: in a best region, in a last region, and in pools by size class.
#![tactic(auto)]

mod close;
mod each;
mod extent;
mod last_way;
mod line;
mod live;
mod open;
mod pool_way;
mod print;
mod regions;
mod rows;
mod tally;
mod trace;
mod way;

pub use each::Each;
pub use extent::{Newest, Newests};
pub use last_way::LastWay;
pub use line::Wrong;
pub use live::Live;
pub use print::report;
pub use regions::{Regions, Stop};
pub use rows::{classes_of_sizes, dead_blocks, outside, reports, resizing};
pub use tally::Tally;
pub use trace::Trace;
pub use way::Way;
