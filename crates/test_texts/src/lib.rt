//! Tests of reading the texts of values, and of making messages from them.
//!
//! They are apart from the crates that they test, because a crate with tests is proved twice.
#![tactic(auto)]

#[cfg(test)]
mod converters;
#[cfg(test)]
mod endless;
#[cfg(test)]
mod making;
#[cfg(test)]
mod pieces;
#[cfg(test)]
mod plain_lines;
#[cfg(test)]
mod quoted;
#[cfg(test)]
mod quoted_room;
#[cfg(test)]
mod reading;
#[cfg(test)]
mod streaming;
#[cfg(test)]
mod texts;
