//! Laws of the definitions of `vc_model`, each the contract of a function without code.
#![tactic(auto)]

mod gap_laws;
mod segment_laws;

pub use gap_laws::{gaps_are_maximal, gaps_of_regions_are_maximal};
pub use segment_laws::{too_many_is_the_limit, too_many_where_none_is_left};
