//! What lists of calls on ordered dictionaries and on best regions cost at most: the sum over all of them, where one call
//! alone may cost more.
#![tactic(auto)]

mod best_call;
mod best_calls;
mod best_making;
mod best_running;
mod bounds;
mod key;
mod live_rows;
mod making;
mod ord_call;
mod ord_calls;
mod rows;
mod running;
mod tally;
#[cfg(test)]
mod tests;

pub use best_call::BestCall;
pub use best_calls::BestCalls;
pub use best_running::run_best;
pub use bounds::bound;
pub use key::Key;
pub use live_rows::{best_call_rows, best_rows};
pub use ord_call::OrdCall;
pub use ord_calls::OrdCalls;
pub use rows::{bound_rows, call_rows, list_rows, tree_rows};
pub use running::run_ord;
