//! Puts of objects into dictionaries of best regions, each by one search: an ordered set is read down once, to an object
//! that matches or to the place of the new one.

mod hanging;
mod leaning;
mod place;
mod putting;
mod reading;

pub use putting::put;
