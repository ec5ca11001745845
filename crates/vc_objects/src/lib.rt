//! Dictionaries in best regions: each object lies in a holder, an unlabelled block, and the table of a set or bag in
//! another one.
#![tactic(auto)]

mod cells;
mod emptying;
mod fate;
mod finding;
mod inserting;
mod opening;
mod puts;
mod removing;
mod rows;
mod tables;
mod turning;

pub use cells::alloc_cell;
pub use emptying::{empty, shut};
pub use fate::{Fate, Want};
pub use finding::find;
pub use inserting::{insert, want_of};
pub use opening::open;
pub use puts::put;
pub use removing::{remove, remove_unnamed};
pub use turning::turn;
