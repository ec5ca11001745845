//! What is true of the image of a best region with its dictionaries, each the contract of a function without code.

mod again;
mod fronts;
mod reading;
mod sound;

pub use again::{loaded_can_be_saved, saved_is_loaded, sound_can_be_saved};
pub use fronts::saved_front;
pub use reading::saved_is_read;
pub use sound::saved_is_sound;
