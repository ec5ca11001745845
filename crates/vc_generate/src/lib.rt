//! The commands that each tool makes of a seed.
#![tactic(auto)]

mod block;
mod fixed;
mod generator;
mod object;
pub mod rows;
mod words;

pub use generator::Generator;
