//! Tests of runs over handmade streams: messages are served, and words are packed and unpacked. Also of the parts of
//! such runs, and of the texts of their faults.
//!
//! They are apart from the crates that they test, because a crate with tests is proved twice.
#![tactic(auto)]

#[cfg(test)]
mod explained_archives;
#[cfg(test)]
mod explanations;
#[cfg(test)]
mod fault_texts;
#[cfg(test)]
mod flows;
#[cfg(test)]
mod one_message;
#[cfg(test)]
mod picks;
#[cfg(test)]
mod places;
#[cfg(test)]
mod printed_lines;
#[cfg(test)]
mod refused_explanations;
#[cfg(test)]
mod runs;
#[cfg(test)]
mod whole_inputs;
