//! Tests of the libraries' calls with too little memory or input. Each allocation is refused in turn, and input is cut
//! at each byte. `tests/program/allocations` counts the allocations of the built program for longer inputs.
//!
//! They are apart from the crates that they test, because a crate with tests is proved twice.
#![tactic(auto)]

#[cfg(test)]
mod cuts;
#[cfg(test)]
mod endless;
#[cfg(test)]
mod framers;
#[cfg(test)]
mod growing;
#[cfg(test)]
mod no_memory;
#[cfg(test)]
mod reads;
#[cfg(test)]
mod refused;
#[cfg(test)]
mod room_asked;
#[cfg(test)]
mod short_runs;
#[cfg(test)]
mod short_shows;
#[cfg(test)]
mod short_streams;
#[cfg(test)]
mod short_texts;
#[cfg(test)]
mod short_values;
#[cfg(test)]
mod sizes;
#[cfg(test)]
mod subject;
#[cfg(test)]
mod words;
