//! The run of a command over messages or bytes, and the flush after it.

ghost use Rattle.std.specs.Prelude.{◌≡◌, false};
ghost use Rattle.capn_words.specs.Watched.{inner_of, has_failed};
ghost use Rattle.capn_tool.specs.Course.{course};
ghost use Rattle.capn_tool.specs.Flushed.{CarriesOut};

use crate::output::flush_after;
use capn_commands::{Command, ToolFault, run};
use capn_words::Watched;
use std::alloc::Global;
use std::io::{Read, Write};

/// Carries `command` out, and flushes the output. Returns the outcome of the run, or `Io` if the run had no fault and
/// the flush fails.
pub(crate) fn carry_out<R: Read, W: Write>(
    alloc: Global,
    command: Command,
    reader: &mut Watched<R>,
    writer: &mut Watched<W>,
) -> Result<(), ToolFault>
    requires reader_fine { has_failed reader.old ≡ false }
    requires writer_fine { has_failed writer.old ≡ false }
    ensures { CarriesOut command
        (course (R.remaining (inner_of reader.old)) (R.remaining (inner_of reader.new)) (has_failed reader.new))
        (course (W.contents (inner_of writer.old)) (W.contents (inner_of writer.new)) (has_failed writer.new)) result }
{
    let outcome = run(alloc, command, reader, writer);
    flush_after(outcome, ToolFault::Io, writer)
}
