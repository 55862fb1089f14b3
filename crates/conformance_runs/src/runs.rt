//! The answers for runs of the program, from a command line to its output.

use anyhow::{Result, anyhow};
use capn_tool::{ToolFault, command_of, fault_text, run, status};
use capn_words::Watched;
use conformance_cases::{Heap, bytes_at, cut_short, digits_of, number_at, word_at};
use std::alloc::Global;

/// Returns the command line of a case: the program's name, and then the words from word 2 on. Word 1 gives their
/// number.
pub(crate) fn command_line<'a>(alloc: Global, words: &[&'a str]) -> Result<Vec<&'a str>> {
    let count = number_at(words, 1)? as usize;
    let mut line = Vec::new(alloc);
    line.push("capn")?;
    for word in 0..count {
        line.push(word_at(words, word.saturating_add(2))?)?;
    }
    Ok(line)
}

/// Answers `run COUNT WORD .. BYTES` by the status, the output, and the line on standard error.
pub(crate) fn run_answer(alloc: Global, heap: &Heap, words: &[&str]) -> Result<String> {
    let line = command_line(alloc, words)?;
    let input = bytes_at(alloc, words, line.len().saturating_add(1))?;
    let Ok(command) = command_of(alloc, line.as_slice()) else {
        return Err(anyhow!("no command"));
    };
    let mut reader = Watched::new(input.as_slice());
    let mut writer = Watched::new(Vec::new(alloc));
    let outcome = run(heap, command, &mut reader, &mut writer);
    tool_told(alloc, heap, outcome, writer.into_inner().as_slice())
}

/// Returns the answer for a run: its status, the bytes that are `written`, and the line on standard error.
pub(crate) fn tool_told(
    alloc: Global,
    heap: &Heap,
    outcome: Result<(), ToolFault>,
    written: &[u8],
) -> Result<String> {
    let status = status(&outcome);
    let digits = digits_of(alloc, written)?;
    match outcome {
        Ok(()) => Ok(format!(in alloc; "status {status}, {digits}")?),
        Err(ToolFault::Memory) if status == 3 => cut_short(alloc, written),
        Err(fault) => match fault_text(heap, &fault) {
            Ok(text) => Ok(format!(in alloc; "status {status}, {digits}, capn: {text}")?),
            Err(_) => cut_short(alloc, written),
        },
    }
}

/// Answers `usage COUNT WORD ..` by the status for a command line that `command_of` refuses.
pub(crate) fn usage_answer(alloc: Global, words: &[&str]) -> Result<String> {
    let line = command_line(alloc, words)?;
    match command_of(alloc, line.as_slice()) {
        Ok(_) => Ok(String::from_str(alloc, "a command")?),
        Err(usage) => {
            let status = usage.status();
            Ok(format!(in alloc; "status {status}")?)
        }
    }
}
