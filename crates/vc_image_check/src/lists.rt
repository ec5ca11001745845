//! Whether the lists of dictionaries are sound in blocks of which nothing is known.

mod ascending;
mod chain;
mod holders;
mod list;
mod table;

pub use ascending::is_ascending;
pub use chain::is_sound_chain;
pub use holders::Holders;
pub use list::is_sound_list;
pub use table::is_sound_table;
