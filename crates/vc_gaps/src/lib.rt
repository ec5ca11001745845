//! The free extents of a tiling in a splay tree by span and then by address, whose links lie in the extents themselves.
#![tactic(auto)]

mod by_span;
mod fitting;
mod gaps;
mod linking;
mod replacing;

pub use by_span::BySpan;
pub use fitting::fit;
pub use gaps::Gaps;
pub use linking::{link_gap, unlink_gap};
pub use replacing::{gap_seat, take_gap_seat};
