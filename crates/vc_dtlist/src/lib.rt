//! Linked lists of holders, for lists, stacks and queues: each holder's words name its neighbours.
#![tactic(auto)]

mod dt_list;
mod sought;
mod words;

pub use dt_list::DtList;
pub use sought::Sought;
pub use words::{found, neighbour, set_word};
