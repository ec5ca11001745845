//! Scripts through the top calls over memory: what is asked of the disciplines, the kinds and the streams that are handed in,
//! in order, also where one call of these after another fails; how many compares a script makes; and calls that no program
//! makes.
#![tactic(auto)]

#[cfg(test)]
mod asks;
#[cfg(test)]
mod calls;
#[cfg(test)]
mod compares;
#[cfg(test)]
mod given;
#[cfg(test)]
mod hostile;
#[cfg(test)]
mod noted;
#[cfg(test)]
mod streams;
#[cfg(test)]
mod told;
