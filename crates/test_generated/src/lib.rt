//! Tests of the libraries' calls on messages made from fixed seeds. All calls have to agree on each message.
//!
//! They are apart from the crates that they test, because a crate with tests is proved twice.
#![tactic(auto)]

#[cfg(test)]
mod accepted;
#[cfg(test)]
mod agreement;
#[cfg(test)]
mod answers;
#[cfg(test)]
mod changed;
#[cfg(test)]
mod hostile;
#[cfg(test)]
mod long_lists;
#[cfg(test)]
mod random;
#[cfg(test)]
mod record_lines;
#[cfg(test)]
mod segments;
#[cfg(test)]
mod texts;
#[cfg(test)]
mod trees;
#[cfg(test)]
mod writing;
