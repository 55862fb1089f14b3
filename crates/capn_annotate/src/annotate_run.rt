//! The run of `annotate`.

ghost use Rattle.std.specs.Prelude.{◌≡◌, false};
ghost use Rattle.capn_words.specs.Watched.{inner_of, has_failed};
ghost use Rattle.capn_annotate.specs.AnnotateRun.{Annotated};

use crate::annotate_order::AnnotateOrder;
use capn_serve::{RunFault, run_messages};
use capn_words::Watched;
use std::alloc::Allocator;
use std::io::{Read, Write};

/// Writes, for each message of an input, a line for each run of words that are alike: where they lie, the bytes of the
/// first one, how often the visits of the walk cover them, what they are, the way that leads to them, and what they
/// say. Each word of the table and of the segments stands in exactly one line. A last line has the counts of the
/// message's words. With `order.summary` only these counts are written.
///
/// A message with a capability is accepted. A message is refused if and only if its walk is refused, and nothing is
/// written for it. In a stream, the lines of all complete messages have been written before each read.
///
/// The first fault ends the run. A frame, a group or a message may be refused. `InputTooLong` is returned for a bare
/// input of more than 2^32 bytes, and for any other input of more than 2^64 - 1 bytes, packed or unpacked. `Io` is
/// returned if and only if the reader or the writer failed, and `Memory` if an allocation was refused. A run holds in
/// memory what the loop over the messages holds, 16 bytes for each word of a message, 4 bytes for each segment, and one
/// line with its way. (Our own.)
pub fn run_annotate<R: Read, W: Write, A: Allocator + Copy>(
    alloc: A,
    order: AnnotateOrder,
    reader: &mut Watched<R>,
    writer: &mut Watched<W>,
) -> Result<(), RunFault>
    requires reader_fine { has_failed reader.old ≡ false }
    requires writer_fine { has_failed writer.old ≡ false }
    ensures { Annotated order (R.remaining (inner_of reader.old)) (R.remaining (inner_of reader.new))
        (W.contents (inner_of writer.old)) (W.contents (inner_of writer.new)) (has_failed reader.new)
        (has_failed writer.new) result }
{
    run_messages(alloc, order.form, order.limits, order, reader, writer)
}
