//! Tests of pointer words, packed words, frames, readers and writers.
//!
//! They are apart from the crates that they test, because a crate with tests is proved twice. They are also apart from
//! the tests of the crates that build on these crates, so that they need not wait for the later crates.
#![tactic(auto)]

#[cfg(test)]
mod bare;
#[cfg(test)]
mod frames;
#[cfg(test)]
mod groups;
#[cfg(test)]
mod packed;
#[cfg(test)]
mod pointers;
#[cfg(test)]
mod receiving;
#[cfg(test)]
mod tables;
#[cfg(test)]
mod watched;
