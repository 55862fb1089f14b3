//! Tests of the program's command line, runs and last lines.
//!
//! They are apart from the crate that they test, because a crate with tests is proved twice.
#![tactic(auto)]

#[cfg(test)]
mod annotate_invocations;
#[cfg(test)]
mod archive_invocations;
#[cfg(test)]
mod broken;
#[cfg(test)]
mod broken_streams;
#[cfg(test)]
mod fault_lines;
#[cfg(test)]
mod greatest_limits;
#[cfg(test)]
mod invocations;
#[cfg(test)]
mod large_inputs;
#[cfg(test)]
mod long_paths;
#[cfg(test)]
mod option_texts;
#[cfg(test)]
mod picks;
#[cfg(test)]
mod usages;
#[cfg(test)]
mod whole_inputs;
