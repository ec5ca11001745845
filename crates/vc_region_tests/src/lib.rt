//! Tests of best regions whose allocations are counted, and of exceptions that disciplines make.
#![tactic(auto)]

#[cfg(test)]
mod best;
#[cfg(test)]
mod seg;
