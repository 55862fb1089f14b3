//! The call `run_archive`, which carries out `list`, `limits` or `canonical --framed`, from the first message to the
//! result.

ghost use Rattle.std.specs.Prelude.{◌≡◌, false};
ghost use Rattle.capn_words.specs.Watched.{inner_of, has_failed};
ghost use Rattle.capn_archive.specs.ArchiveRun as spec;
ghost use Rattle.capn_archive.specs.ArchiveRun.{Archived};
ghost use Rattle.capn_archive.specs.declared.task.Task.TheVariants as tasks;
ghost use Rattle.capn_serve.specs.Finish.{PutsText};

use crate::archive_service::ArchiveService;
use crate::fault::ArchiveFault;
use crate::limits_report::{Needs, limits_text};
use crate::tally::no_tally;
use crate::task::{ArchiveOrder, Task};
use capn_canon::Refusal;
use capn_serve::{Begun, Finish, Position, RunFault, run_messages, skip_fault_after, skip_outcome};
use capn_words::Watched;
use std::alloc::Allocator;
use std::io::{Read, Write};

/// Returns a service that has not served a message.
fn first_state(order: ArchiveOrder) -> ArchiveService
    ensures { result ≡ spec.first_state order }
{
    ArchiveService {
        order,
        tally: no_tally(),
    }
}

/// Returns the figures of the messages that `service` has served, before the position `at`.
fn needs_of(service: &ArchiveService, at: Position) -> Needs
    ensures { result ≡ spec.needs_of service.now at }
{
    Needs {
        messages: at.index,
        tally: service.tally,
        tariff: service.order.limits.tariff(),
    }
}

/// Writes the lines that `limits` writes for `needs`.
#[tactic(auto, using(crate::proofs::LineParts::limits_some))]
fn write_limits<W: Write, A: Allocator + Copy>(
    alloc: A,
    needs: &Needs,
    writer: &mut Watched<W>,
) -> Result<(), RunFault>
    requires { has_failed writer.old ≡ false }
    ensures { PutsText (spec.closing_by tasks.Limits needs.now) (W.contents (inner_of writer.old))
        (W.contents (inner_of writer.new)) (has_failed writer.new) result }
{
    let text = limits_text(alloc, needs)?;
    Ok(writer.write_all(text.as_bytes())?)
}

impl Finish for ArchiveService {
    ghost use Rattle.capn_archive.specs.ArchiveRun as spec;
    ghost use Rattle.capn_serve.specs.Finish.{nothing_told};

    type Found = ();

    type Fault = ArchiveFault;

    ghost closing = { spec.closing };

    ghost told = { nothing_told };

    ghost outcome = { spec.outcome };

    ghost stops = { spec.stops };

    fn write_closing<W: Write, A: Allocator + Copy>(
        &self,
        alloc: A,
        at: Position,
        writer: &mut Watched<W>,
    ) -> Result<(), RunFault> {
        match self.order.task {
            Task::List | Task::Digests | Task::Canonical => Ok(()),
            Task::Limits => write_limits(alloc, &needs_of(self, at), writer),
        }
    }

    fn write_told<W: Write, A: Allocator + Copy>(
        &self,
        _alloc: A,
        _at: Position,
        _refusal: &Refusal,
        _begun: &Begun<A>,
        _writer: &mut Watched<W>,
    ) -> Result<(), RunFault> {
        Ok(())
    }

    fn outcome(&self, at: Position) -> Result<(), ArchiveFault> {
        Ok(skip_outcome(self.tally.skipped, at.index)?)
    }

    fn stops(&self, at: Position, stopped: RunFault) -> ArchiveFault {
        ArchiveFault::Ended(skip_fault_after(self.tally.skipped, at.index, stopped))
    }
}

/// Reads the messages of an archive from `reader`, and writes to `writer` the text of the task `order.task` for each
/// message and at the end.
///
/// Input is read as [`run_messages`] reads it. The run ends with `Ok`, with `Skipped` if all of the input was read and
/// messages were skipped, or with the first fault. A refused message is skipped if `order.keep_going` is true, and
/// otherwise ends the run with `Refused` and its position. A refused frame or group ends the run with `Refused` and the
/// position, or with `RefusedAfterSkipped` if messages were skipped before that position. The other faults are
/// `InputTooLong`, `Io` if and only if the reader or the writer failed, and `Memory` if an allocation was refused. Each
/// of these faults is a variant of the [`SkipFault`](capn_serve::SkipFault) in `Ended`, or of the [`RunFault`] in that
/// `SkipFault`. If the input is refused or too long, the texts of the messages before the fault have been written, and
/// nothing else. A run holds in memory what the loop over the messages holds, the canonical bytes of one message, and a
/// tally.
pub fn run_archive<R: Read, W: Write, A: Allocator + Copy>(
    alloc: A,
    order: ArchiveOrder,
    reader: &mut Watched<R>,
    writer: &mut Watched<W>,
) -> Result<(), ArchiveFault>
    requires reader_fine { has_failed reader.old ≡ false }
    requires writer_fine { has_failed writer.old ≡ false }
    ensures { Archived order (R.remaining (inner_of reader.old)) (R.remaining (inner_of reader.new))
        (W.contents (inner_of writer.old)) (W.contents (inner_of writer.new)) (has_failed reader.new)
        (has_failed writer.new) result }
{
    let (form, limits) = (order.form, order.limits);
    let service = first_state(order);
    run_messages(alloc, form, limits, service, reader, writer)
}
