//! What a run counts: the commands that are done and those that are refused, the segments that are lent, and how many
//! bytes the blocks have at most.
#![tactic(auto)]

mod counts;
mod holders;
mod reach;
mod step;

pub use counts::Counts;
pub use step::counted_step;
