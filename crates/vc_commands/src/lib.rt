//! The commands on one region, and those on one dictionary: refusals and replies.
#![tactic(auto)]

mod dict;
mod lent;
mod region;

pub use dict::{DictEntry, look, run};
pub use lent::put_answer;
pub use region::{HomeEntry, Labels, labels_by_tag};

// Marks a counter of steps that no one reads.
struct Uncounted;
