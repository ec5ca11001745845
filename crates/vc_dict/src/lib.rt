//! Dictionaries of holders by seven methods: sets and bags, ordered sets and bags, lists, stacks and queues. View paths
//! through dictionaries are handed on.
#![tactic(auto)]

mod chained;
mod dict;
mod dicts;
mod dropping;
mod flat;
mod form;
mod forming;
mod heads;
mod matching;
mod neighbours;
mod pass;
mod places;
mod remethod;
mod rows;
mod seeking;
mod weeded;

pub use dict::{Dict, Dropped, after_dropped};
pub use dicts::Dicts;
pub use form::Form;
pub use heads::Heads;
pub use rows::{insert_rows, list_rows, order_rows, remove_rows, table_rows};
pub use vc_base::DictMethod;
pub use vc_paths::{Layers, Paths, ViewFault, first, last, next, prev, search, walk_next};
