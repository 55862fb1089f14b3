//! Tests of what is told about a message: why it is refused, where it differs from its canonical form, the paths to its
//! pointers, and texts with and without marks.
//!
//! They are apart from the crates that they test, because a crate with tests is proved twice.
#![tactic(auto)]

#[cfg(test)]
mod examinations;
#[cfg(test)]
mod explained_refusals;
#[cfg(test)]
mod explanations;
#[cfg(test)]
mod marked_texts;
#[cfg(test)]
mod message_texts;
#[cfg(test)]
mod mismatch_lines;
#[cfg(test)]
mod mismatches;
#[cfg(test)]
mod paths;
#[cfg(test)]
mod searches;
#[cfg(test)]
mod stages_and_styles;
#[cfg(test)]
mod text_parts;
#[cfg(test)]
mod text_pieces;
#[cfg(test)]
mod words;
