//! The words behind the name of a tool, read by `clap`.
#![tactic(auto)]

mod number;
mod read;
pub mod rows;
mod words;

pub use read::read_words;
pub use words::Words;
