//! Sets and bags of holders in order of insertion, with the count of their objects, and a table with chains
//! of those whose hashes belong to one slot.
#![tactic(auto)]

mod chains;
mod dt_hash;
mod rows;

pub use dt_hash::DtHash;
pub use rows::{slot_rows, wanted_rows};
