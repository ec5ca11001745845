//! Tests of a program's own collections and stores, of images of stores, of their dictionaries as layers, and of the same calls
//! for those that can't keep to conditions; and of how many compares ranges and operations take of dictionaries that are loaded
//! from an image.
#![tactic(auto)]

#[cfg(test)]
mod alike;
#[cfg(test)]
mod answers;
#[cfg(test)]
mod checked;
#[cfg(test)]
mod collection;
#[cfg(test)]
mod compares;
#[cfg(test)]
mod counted;
#[cfg(test)]
mod loads;
#[cfg(test)]
mod scarce;
