//! Tests of covers: what the words of a message are, and how often they are read.
//!
//! They are apart from the crates that they test, because a crate with tests is proved twice.
#![tactic(auto)]

#[cfg(test)]
mod covers;
#[cfg(test)]
mod slots;
#[cfg(test)]
mod wanted;
#[cfg(test)]
mod words;
