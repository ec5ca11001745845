//! Images of a best region with its dictionaries: saved to a sink, and loaded over a discipline. This project's own.
#![tactic(auto)]

mod dicts;
mod fault;
mod head;
mod lends;
mod loading;
mod saved;
mod saving;
mod segments;

pub use fault::{LoadFault, SaveFault};
pub use lends::ImageLendFault;
pub use loading::{Loaded, load, load_best};
pub use saved::{
    loaded_can_be_saved, saved_front, saved_is_loaded, saved_is_read, saved_is_sound,
    sound_can_be_saved,
};
pub use saving::{save, save_best};
