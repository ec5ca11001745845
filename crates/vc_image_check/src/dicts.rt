//! Which part of an image is the first that isn't sound, its dictionaries among them: each apart from those before it.

mod alone;
mod dict;
mod dicts;
mod holders;
mod laws;
mod numbers;
mod others;
mod taking;
mod whole;

pub use laws::sound_is_whole;
pub use numbers::{heads_of, method_of};
pub use whole::unsound_part;
