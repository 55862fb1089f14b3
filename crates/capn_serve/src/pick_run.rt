//! Runs of `pick` over a stream.

ghost use Rattle.std.specs.Prelude.{◌≡◌, false};
ghost use Rattle.capn_words.specs.Watched.{inner_of, has_failed};
ghost use Rattle.capn_serve.specs.Pick.{AreAscending};
ghost use Rattle.capn_serve.specs.PickRun.{Picks, PicksRanges};

use crate::fault::RunFault;
use crate::finish::run_messages;
use crate::pick::{Pick, Range, StreamForm};
use crate::picker::Picker;
use capn_canon::Limits;
use capn_words::Watched;
use std::alloc::Allocator;
use std::io::{Read, Write};

/// Reads a stream in chunks of at most 65,536 bytes, and writes the frames of the messages whose numbers are in
/// `ranges`, byte for byte. The frames of a packed stream are written unpacked.
///
/// The ranges must ascend. The first number of each range is at least 1, and greater than the last number of the range
/// before it. No range ends before its first number. Of `limits` only the greatest number of words of a message is
/// used. No message is walked. Once the last picked message is complete, the run ends with `Ok`, and does not read
/// again. Before each read, all picked messages that are complete by then have been written. If the stream has fewer
/// messages than the ranges name, the picked messages that exist are written. If there is no range, nothing is read.
///
/// In memory the run holds an unfinished message and less than 65,536 bytes of short frames. For a packed stream it
/// also holds what [`run_packed`](crate::run_packed) holds. A long frame is written without another copy. The cost of a
/// message does not depend on the number of ranges. The run ends with `Ok`, or with the first fault before the end of
/// the last picked message. `Refused` has the position of the message at which a frame or a packed group is refused.
/// `InputTooLong` means that the input has, or unpacks to, 2^64 bytes or more. `Io` is returned if and only if
/// the reader or the writer failed, and `Memory` if an allocation was refused. Unless the writer failed, the picked
/// frames before the fault have been written.
pub fn run_only<R: Read, W: Write, A: Allocator + Copy>(
    alloc: A,
    form: StreamForm,
    limits: Limits,
    ranges: &[Range],
    reader: &mut Watched<R>,
    writer: &mut Watched<W>,
) -> Result<(), RunFault>
    requires ascending { AreAscending ranges.now }
    requires reader_fine { has_failed reader.old ≡ false }
    requires writer_fine { has_failed writer.old ≡ false }
    ensures { PicksRanges limits.message_words ranges.now form (R.remaining (inner_of reader.old))
        (R.remaining (inner_of reader.new)) (W.contents (inner_of writer.old)) (W.contents (inner_of writer.new))
        (has_failed reader.new) (has_failed writer.new) result }
{
    let picker = Picker { rest: ranges };
    run_messages(alloc, form.form(), limits, picker, reader, writer)
}

/// Writes the frames of the messages from number `pick.from` to number `pick.to`. [`run_only`] states how the stream is
/// read and how the run ends.
///
/// If the stream has fewer than `pick.from` messages, nothing is written. If `pick.to` is less than `pick.from`,
/// nothing is read either.
pub fn run_pick<R: Read, W: Write, A: Allocator + Copy>(
    alloc: A,
    pick: Pick,
    reader: &mut Watched<R>,
    writer: &mut Watched<W>,
) -> Result<(), RunFault>
    requires reader_fine { has_failed reader.old ≡ false }
    requires writer_fine { has_failed writer.old ≡ false }
    ensures { Picks pick.limits.message_words pick pick.form (R.remaining (inner_of reader.old))
        (R.remaining (inner_of reader.new)) (W.contents (inner_of writer.old)) (W.contents (inner_of writer.new))
        (has_failed reader.new) (has_failed writer.new) result }
{
    let from = pick.from.max(1);
    if pick.to < from {
        return run_only(alloc, pick.form, pick.limits, &[], reader, writer);
    }
    let range = Range { from, to: pick.to };
    run_only(alloc, pick.form, pick.limits, &[range], reader, writer)
}
