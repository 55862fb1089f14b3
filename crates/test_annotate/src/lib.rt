//! Tests of `annotate`: what it writes for the messages of an input, and how a run ends.
//!
//! They are apart from the crate that they test, because a crate with tests is proved twice.
#![tactic(auto)]

#[cfg(test)]
mod endings;
#[cfg(test)]
mod examples;
#[cfg(test)]
mod lists;
#[cfg(test)]
mod messages;
#[cfg(test)]
mod run;
