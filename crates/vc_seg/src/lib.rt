//! Segments of bytes, the disciplines that lend them, and the shelf that keeps disciplines.
#![tactic(auto)]

mod back;
mod block;
mod boxed;
mod budget;
mod bytes;
mod copy;
mod disc;
mod excuses;
mod fault;
mod field;
mod fuse;
mod heap;
mod lend;
mod method;
mod number;
mod numbered;
mod out_list;
mod profile_row;
mod relief;
mod round;
mod sbrk;
mod segment;
mod shelf;
mod stat;
mod tally;
mod walk;
mod word;

pub use back::{give_back, give_back_all, give_back_one};
pub use boxed::BoxedDisc;
pub use budget::BudgetDisc;
pub use copy::copy_between;
pub use disc::SegDisc;
pub use fault::{LendFault, RegionFault};
pub use fuse::FuseDisc;
pub use heap::HeapDisc;
pub use lend::{
    extend_segment, growing_of, grows_of, lend_next, lend_segment, obtain, obtain_more, round_of,
};
pub use method::Method;
pub use number::{find_number, lowest_unused};
pub use numbered::Numbered;
pub use profile_row::ProfileRow;
pub use relief::ReliefDisc;
pub use round::{rounded_up, span_of};
pub use sbrk::SbrkDisc;
pub use segment::Segment;
pub use shelf::{Shelf, ShelfPlace};
pub use stat::Stat;
pub use tally::{Tally, tally_segments};
pub use walk::{next_segment, segment_at};
