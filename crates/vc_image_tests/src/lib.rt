//! Tests of images where a stream or a discipline fails: saved, loaded, shown, and run over.
#![tactic(auto)]

#[cfg(test)]
mod images;
#[cfg(test)]
mod runs;
#[cfg(test)]
mod saves;
#[cfg(test)]
mod tells;
