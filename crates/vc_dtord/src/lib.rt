//! Ordered sets and bags of holders in splay trees, whose links lie in the holders' words: objects stand in order of
//! their keys, and those that match in order of insertion.
#![tactic(auto)]

mod calls;
mod dt_ord;
mod guides;
mod holders;
mod rows;
mod seeking;
mod seen;
mod taking;
mod words;

pub use dt_ord::DtOrd;
pub use guides::ByKey;
pub use holders::Holders;
pub use rows::{one_list, place_rows};
pub use words::clear_words;
