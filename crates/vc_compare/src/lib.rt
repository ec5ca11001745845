//! Compares three ways to keep the blocks of one trace: a best region, a last region, and pools by size class.
#![tactic(auto)]

mod ending;
mod lines;
mod run;
mod status;
mod told;
mod tool;

pub use status::CompareStatus;
pub use tool::compare;

#[cfg(test)]
mod refused;
