//! Whether ordered dictionaries are sound in blocks of which nothing is known.

mod nodes;
mod order;

pub use order::sound_order;
