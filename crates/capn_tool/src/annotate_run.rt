//! The run of `annotate`, whose faults name no message, as those of `show`.

ghost use Rattle.std.specs.Prelude.{◌≡◌, false};
ghost use Rattle.capn_words.specs.Watched.{inner_of, has_failed};
ghost use Rattle.capn_tool.specs.AnnotateRun.{MessagesAnnotated};

use capn_annotate::{AnnotateOrder, run_annotate};
use capn_commands::ToolFault;
use capn_words::Watched;
use std::alloc::Allocator;
use std::io::{Read, Write};

/// Writes the lines of each message of an input, or with `order.summary` one line for each message. [`run_annotate`]
/// states how the input is read and how the run ends. The position of a refused message is left out of the result.
pub fn annotate_messages<R: Read, W: Write, A: Allocator + Copy>(
    alloc: A,
    order: AnnotateOrder,
    reader: &mut Watched<R>,
    writer: &mut Watched<W>,
) -> Result<(), ToolFault>
    requires reader_fine { has_failed reader.old ≡ false }
    requires writer_fine { has_failed writer.old ≡ false }
    ensures { MessagesAnnotated order (R.remaining (inner_of reader.old)) (R.remaining (inner_of reader.new))
        (W.contents (inner_of writer.old)) (W.contents (inner_of writer.new)) (has_failed reader.new)
        (has_failed writer.new) result }
{
    run_annotate(alloc, order, reader, writer)?;
    Ok(())
}
