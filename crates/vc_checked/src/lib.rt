//! The calls of a store for those that can't keep to their conditions, as C programs: each tests what it is given, answers
//! by one word, and puts objects into a buffer of the caller's. A dictionary is named by its number, a method and a kind by
//! theirs.
#![tactic(auto)]

mod answer;
mod dicts;
mod objects;
mod places;
mod shown;

pub use answer::Answer;
pub use dicts::{close_dict, count, empty_dict, method_of, open_dict, shape_of};
pub use objects::{at_least, delete, insert, search};
pub use places::{Move, current, go};
