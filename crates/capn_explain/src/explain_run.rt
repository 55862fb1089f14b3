//! The call `run_explain`, a run that explains one message of an input.

ghost use Rattle.std.specs.Prelude.{◌≡◌, false};
ghost use Rattle.capn_words.specs.Watched.{inner_of, has_failed};
ghost use Rattle.capn_explain.specs.ExplainRun.{Explained};

use crate::explain::Explain;
use crate::one_reporter::OneReporter;
use crate::order::order_of;
use capn_serve::{RunFault, run_messages};
use capn_words::Watched;
use std::alloc::Allocator;
use std::io::{Read, Write};

/// Explains one message of the input of `reader`: the first refused message, or the message with the number in `order`.
/// Writes the lines to `writer`.
///
/// Without a number, the first refused message is explained. A message may be refused for its frame, packing, length or
/// walk. Nothing is read after the chunk in which the refusal is found. If no message is refused and the input has one
/// message, that message is explained. If the input has no message or several, a line shows the number of messages.
///
/// With a number, the message with that number is explained, refused or accepted. The messages before that one are not
/// walked. If the input is refused before the message with that number, this refusal is explained instead. If there are
/// fewer messages, a line shows the number of messages.
///
/// Input is read as [`run_messages`] reads it. If the explained message is refused, the run ends with `Refused`, after
/// its lines have been written. The other faults are `InputTooLong`, `Io` if and only if the reader or the writer
/// failed, and `Memory` if an allocation on `alloc` was refused. Without a number, a refused allocation for the
/// account of the first message ends the run with `Memory` only if there is no second message. After `InputTooLong` or
/// `Memory` no explanation has been written. After `Io` at most a part of the explanation has been written, because the
/// lines are kept and written at the end. A run holds in memory what the loop over the messages holds, the canonical
/// bytes of the explained message, the paths of its account, and the lines.
pub fn run_explain<R: Read, W: Write, A: Allocator + Copy>(
    alloc: A,
    order: Explain,
    reader: &mut Watched<R>,
    writer: &mut Watched<W>,
) -> Result<(), RunFault>
    requires reader_fine { has_failed reader.old ≡ false }
    requires writer_fine { has_failed writer.old ≡ false }
    ensures { Explained order (R.remaining (inner_of reader.old)) (R.remaining (inner_of reader.new))
        (W.contents (inner_of writer.old)) (W.contents (inner_of writer.new)) (has_failed reader.new)
        (has_failed writer.new) result }
{
    let (form, limits) = (order.form, order.limits);
    let reporter = OneReporter::new(alloc, order_of(order));
    run_messages(alloc, form, limits, reporter, reader, writer)
}
