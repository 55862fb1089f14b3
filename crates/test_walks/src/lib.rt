//! Tests of calls that follow the pointers of a message: their targets, steps, depths, indexes, figures and reads.
//!
//! They are apart from the crates that they test, because a crate with tests is proved twice.
#![tactic(auto)]

#[cfg(test)]
mod asked_inputs;
#[cfg(test)]
mod counted_bare;
#[cfg(test)]
mod counted_bytes;
#[cfg(test)]
mod counted_calls;
#[cfg(test)]
mod counted_steps;
#[cfg(test)]
mod counted_walks;
#[cfg(test)]
mod depths;
#[cfg(test)]
mod figures;
#[cfg(test)]
mod indexes;
#[cfg(test)]
mod measures;
#[cfg(test)]
mod shared_lists;
#[cfg(test)]
mod steps;
#[cfg(test)]
mod surveyed_layouts;
#[cfg(test)]
mod tally;
#[cfg(test)]
mod targets;
#[cfg(test)]
mod words;
