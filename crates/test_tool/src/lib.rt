//! Tests of the program's command line, runs and failures.
//!
//! They are apart from the crates that they test, because a crate with tests is proved twice.
#![tactic(auto)]

#[cfg(test)]
mod ends;
#[cfg(test)]
mod lines;
#[cfg(test)]
mod picked_lists;
#[cfg(test)]
mod pieces;
#[cfg(test)]
mod program_calls;
#[cfg(test)]
mod programs;
#[cfg(test)]
mod slow;
#[cfg(test)]
mod texts;
