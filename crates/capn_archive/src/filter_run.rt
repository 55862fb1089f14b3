//! The call `run_filter`, which carries out `filter`, from the first message to the result.

ghost use Rattle.std.specs.Prelude.{◌≡◌, false};
ghost use Rattle.capn_words.specs.Watched.{inner_of, has_failed};
ghost use Rattle.capn_archive.specs.FilterRun.{Filtered};

use crate::fault::ArchiveFault;
use crate::filter_order::FilterOrder;
use crate::filter_service::FilterService;
use capn_canon::Refusal;
use capn_serve::{Begun, Finish, Position, RunFault, run_messages, skip_fault_after, skip_outcome};
use capn_words::Watched;
use std::alloc::Allocator;
use std::io::{Read, Write};

impl Finish for FilterService {
    ghost use Rattle.capn_archive.specs.FilterRun as spec;
    ghost use Rattle.capn_serve.specs.Finish.{no_closing, nothing_told};

    type Found = ();

    type Fault = ArchiveFault;

    ghost closing = { no_closing };

    ghost told = { nothing_told };

    ghost outcome = { spec.outcome };

    ghost stops = { spec.stops };

    fn write_closing<W: Write, A: Allocator + Copy>(
        &self,
        _alloc: A,
        _at: Position,
        _writer: &mut Watched<W>,
    ) -> Result<(), RunFault> {
        Ok(())
    }

    fn write_told<W: Write, A: Allocator + Copy>(
        &self,
        _alloc: A,
        _at: Position,
        _refusal: &Refusal,
        _begun: &Begun<A>,
        _writer: &mut Watched<W>,
    ) -> Result<(), RunFault> {
        Ok(())
    }

    fn outcome(&self, at: Position) -> Result<(), ArchiveFault> {
        match self.ended {
            Some(at) => Err(ArchiveFault::NotCanonical(at)),
            None => Ok(skip_outcome(self.skipped, at.index)?),
        }
    }

    fn stops(&self, at: Position, stopped: RunFault) -> ArchiveFault {
        ArchiveFault::Ended(skip_fault_after(self.skipped, at.index, stopped))
    }
}

/// Reads the messages of an archive from `reader`, and writes the frame of each accepted one to `writer`, unchanged.
/// The frame of a packed message is written unpacked, and the frame of a bare message is all of the input. If
/// `order.canonical` is true, only canonical messages are written. A canonical message has one segment, which holds the
/// canonical bytes of its value.
///
/// Input is read as [`run_messages`] reads it. Each frame let through is written before the next chunk is read. The run
/// ends with `Ok`, with `Skipped` if all input was read and messages were skipped, or with the first fault. A message
/// that is not let through is skipped if `order.keep_going` is true, and otherwise ends the run. The fault is then
/// `NotCanonical` if the message is accepted, and else `Refused`, with the position. A refused frame or group ends the
/// run with `Refused` and the position, or with `RefusedAfterSkipped` if messages were skipped before that position.
/// The other faults are `InputTooLong`, `Io` if and only if the reader or the writer failed, and `Memory` if an
/// allocation was refused. Except for `NotCanonical`, each of these faults is a variant of the
/// [`SkipFault`](capn_serve::SkipFault) in `Ended`, or of the [`RunFault`] in that `SkipFault`. If a message ends the
/// run, or the input is refused or too long, nothing more is read, and only the frames let through before are written.
/// A run holds in memory only what the loop over messages holds.
pub fn run_filter<R: Read, W: Write, A: Allocator + Copy>(
    alloc: A,
    order: FilterOrder,
    reader: &mut Watched<R>,
    writer: &mut Watched<W>,
) -> Result<(), ArchiveFault>
    requires reader_fine { has_failed reader.old ≡ false }
    requires writer_fine { has_failed writer.old ≡ false }
    ensures { Filtered order (R.remaining (inner_of reader.old)) (R.remaining (inner_of reader.new))
        (W.contents (inner_of writer.old)) (W.contents (inner_of writer.new)) (has_failed reader.new)
        (has_failed writer.new) result }
{
    let (form, limits) = (order.form, order.limits);
    let service = FilterService::new(order);
    run_messages(alloc, form, limits, service, reader, writer)
}
