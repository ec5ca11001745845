//! A dictionary with a region of its own, to be used by a program.
#![tactic(auto)]

pub mod calls;
mod collection;
pub mod moves;
mod put;
mod stores;

pub use collection::Collection;
pub use put::Put;
pub use stores::{Alike, Store, StoreLoadFault, StoreSaveFault, loaded_shows_the_same};
