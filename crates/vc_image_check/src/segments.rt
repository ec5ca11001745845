//! Which images are sound, checked on their bytes before anything is made of them.

mod segment;
mod segments;

pub use segment::is_sound_segment;
pub use segments::unsound_segment;
