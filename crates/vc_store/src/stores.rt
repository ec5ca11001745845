//! Dictionaries by number in one region, to be used by a program.

mod alike;
mod copies;
mod cursor;
mod fault;
mod law;
mod loading;
mod placing;
mod saving;
mod store;

pub use alike::Alike;
pub use fault::{StoreLoadFault, StoreSaveFault};
pub use law::loaded_shows_the_same;
pub use store::Store;
