//! Tests of the numbers that calls from C take and give.
//!
//! They are apart from the crates that they test, because a crate with tests is proved twice.
#![tactic(auto)]

#[cfg(test)]
mod numbers;
