//! Kinds of dictionaries: which part of an object is its key, how keys are ordered and hashed, which object is made of
//! a prototype, and what is told of an object that goes. After Cdt's disciplines, with six kinds of this project's own.
#![tactic(auto)]

mod built_in;
mod bytes;
mod disc;
mod rows;
mod shape;

pub use built_in::BuiltIn;
pub use disc::DictDisc;
pub use rows::{hash_rows, key_rows, made_rows, order_rows};
pub use shape::Shape;

#[cfg(test)]
mod tests;
