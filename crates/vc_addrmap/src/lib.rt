//! A map from addresses to numbers, in a splay tree by address. To put one in may need memory; to take one out, or to
//! move it to another address, doesn't.
#![tactic(auto, unfolding(crate::specs::Parts::names_of, crate::specs::Parts::numbers_of, crate::specs::Parts::count_of))]

mod addr_map;
mod by_addr;
mod entries;

pub use addr_map::AddrMap;
