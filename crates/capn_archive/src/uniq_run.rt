//! The call `run_uniq`, which carries out `uniq`, from the first message to the result.

ghost use Rattle.std.specs.Prelude.{◌≡◌, IfOk, IfErr, string_bytes, false};
ghost use Rattle.capn_words.specs.Watched.{inner_of, has_failed};
ghost use Rattle.capn_archive.specs.UniqRun as spec;
ghost use Rattle.capn_archive.specs.UniqRun.{Deduplicated};
ghost use Rattle.capn_serve.specs.Finish.{PutsText};
ghost use Rattle.capn_serve.specs.declared.fault.RunFault.TheVariants as faults;

use crate::fault::ArchiveFault;
use crate::uniq_order::UniqOrder;
use crate::uniq_service::UniqService;
use capn_canon::Refusal;
use capn_serve::{Begun, Finish, Position, RunFault, run_messages, skip_fault_after, skip_outcome};
use capn_words::Watched;
use std::alloc::Allocator;
use std::io::{Read, Write};

/// Returns the line of `uniq --count`, with the numbers `kept` and `served`.
fn count_line<A: Allocator>(alloc: A, kept: usize, served: u64) -> Result<String<A>, RunFault>
    ensures found { IfOk result (λ line. string_bytes line ≡ spec.count_line kept served) }
    ensures only { IfErr result (λ e. e ≡ faults.Memory) }
{
    Ok(format!(in alloc; "{kept} of {served}\n")?)
}

/// Writes the line of `uniq --count`, with the numbers `kept` and `served`.
#[tactic(auto, using(crate::proofs::LineParts::count_some))]
fn write_count<W: Write, A: Allocator + Copy>(
    alloc: A,
    kept: usize,
    served: u64,
    writer: &mut Watched<W>,
) -> Result<(), RunFault>
    requires { has_failed writer.old ≡ false }
    ensures { PutsText (spec.count_line kept served) (W.contents (inner_of writer.old))
        (W.contents (inner_of writer.new)) (has_failed writer.new) result }
{
    let line = count_line(alloc, kept, served)?;
    Ok(writer.write_all(line.as_bytes())?)
}

impl<B: Allocator + Copy> Finish for UniqService<B> {
    ghost use Rattle.capn_archive.specs.UniqRun as spec;
    ghost use Rattle.capn_serve.specs.Finish.{nothing_told};

    type Found = ();

    type Fault = ArchiveFault;

    ghost closing = { spec.closing };

    ghost told = { nothing_told };

    ghost outcome = { spec.outcome };

    ghost stops = { spec.stops };

    fn write_closing<W: Write, A: Allocator + Copy>(
        &self,
        alloc: A,
        _at: Position,
        writer: &mut Watched<W>,
    ) -> Result<(), RunFault> {
        if self.order().count {
            return write_count(alloc, self.kept(), self.served(), writer);
        }
        Ok(())
    }

    fn write_told<W: Write, A: Allocator + Copy>(
        &self,
        _alloc: A,
        _at: Position,
        _refusal: &Refusal,
        _begun: &Begun<A>,
        _writer: &mut Watched<W>,
    ) -> Result<(), RunFault> {
        Ok(())
    }

    fn outcome(&self, at: Position) -> Result<(), ArchiveFault> {
        Ok(skip_outcome(self.skipped(), at.index)?)
    }

    fn stops(&self, at: Position, stopped: RunFault) -> ArchiveFault {
        ArchiveFault::Ended(skip_fault_after(self.skipped(), at.index, stopped))
    }
}

/// Reads the messages of an archive from `reader`, and writes to `writer` each one whose canonical bytes no earlier
/// message had. Canonical bytes are compared by their SHA-256. The frame of a message is written unchanged. The frame
/// of a packed message is written unpacked, and the frame of a bare message is all of the input. If `order.count` is
/// true, only a line `U of N` is written at the end, with the number `U` of different digests and the number `N` of
/// messages served.
///
/// Input is read as [`run_messages`] reads it. The run ends with `Ok`, with `Skipped` if all of the input was read and
/// messages were skipped, or with the first fault. A refused message is skipped if `order.keep_going` is true, and
/// otherwise ends the run with `Refused` and its position. A refused frame or group ends the run with `Refused` and the
/// position, or with `RefusedAfterSkipped` if messages were skipped before that position. The other faults are
/// `InputTooLong`, `Io` if and only if the reader or the writer failed, and `Memory` if an allocation was refused. Each
/// of these faults is a variant of the [`SkipFault`](capn_serve::SkipFault) in `Ended`, or of the [`RunFault`] in that
/// `SkipFault`. If the input is refused or too long, only the output for the messages before the fault has been
/// written. A run holds in memory what the loop over the messages holds, one message's canonical bytes, and the digests
/// of the messages served.
pub fn run_uniq<R: Read, W: Write, A: Allocator + Copy>(
    alloc: A,
    order: UniqOrder,
    reader: &mut Watched<R>,
    writer: &mut Watched<W>,
) -> Result<(), ArchiveFault>
    requires reader_fine { has_failed reader.old ≡ false }
    requires writer_fine { has_failed writer.old ≡ false }
    ensures { Deduplicated order (R.remaining (inner_of reader.old)) (R.remaining (inner_of reader.new))
        (W.contents (inner_of writer.old)) (W.contents (inner_of writer.new)) (has_failed reader.new)
        (has_failed writer.new) result }
{
    let (form, limits) = (order.form, order.limits);
    let service = UniqService::new(alloc, order);
    run_messages(alloc, form, limits, service, reader, writer)
}
