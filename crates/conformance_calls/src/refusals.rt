//! Refusals as lines.

use anyhow::Result;
use capn_walk::{Fault, Stopped};
use conformance_cases::MEMORY;
use std::alloc::Global;
use std::fmt::Display;

/// Displays `fault`, with `Memory` in place of `out of memory` at its end. The check of allocations looks for `Memory`.
pub(crate) fn told<E: Display + Drop>(alloc: Global, fault: E) -> Result<String> {
    let text = format!(in alloc; "{fault}")?;
    match text.as_str().strip_suffix("out of memory") {
        Some(before) => Ok(format!(in alloc; "{before}{MEMORY}")?),
        None => Ok(text),
    }
}

/// Displays the reason why a walk or a survey stopped. A refused allocation is displayed as `Memory` alone.
pub(crate) fn stop_told(alloc: Global, stopped: Stopped) -> Result<String> {
    match stopped.fault {
        Fault::Memory => Ok(String::from_str(alloc, MEMORY)?),
        _ => told(alloc, stopped),
    }
}
