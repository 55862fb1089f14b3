//! Tests of values: how they are made, written as text, laid out and compared, and their canonical bytes in scratch
//! memory. Also of tasks on messages in any form.
//!
//! They are apart from the crates that they test, because a crate with tests is proved twice.
#![tactic(auto)]

#[cfg(test)]
mod allowed_steps;
#[cfg(test)]
mod comparisons;
#[cfg(test)]
mod counted_scratch;
#[cfg(test)]
mod layouts;
#[cfg(test)]
mod making;
#[cfg(test)]
mod message_tasks;
#[cfg(test)]
mod parts;
#[cfg(test)]
mod pointer_words;
#[cfg(test)]
mod same_lists;
#[cfg(test)]
mod same_messages;
#[cfg(test)]
mod scratch_forms;
#[cfg(test)]
mod value_texts;
#[cfg(test)]
mod values;
#[cfg(test)]
mod words;
