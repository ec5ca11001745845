//! Kinds and disciplines of tests, some of which note what is asked of them, and tests of puts into
//! ordered dictionaries.
#![tactic(auto)]

#[cfg(test)]
mod large;
mod one_hash;
#[cfg(test)]
mod puts;
mod watched_disc;
mod watched_kind;

pub use one_hash::OneHash;
pub use watched_disc::{Lends, WatchedDisc, no_lends};
pub use watched_kind::{Calls, WatchedKind, no_calls};
