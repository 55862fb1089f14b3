//! The call `run_cmp`, which carries out `cmp`, from the first message to the result.

ghost use Rattle.std.specs.Prelude.{◌≡◌, false};
ghost use Rattle.capn_words.specs.Watched.{inner_of, has_failed};
ghost use Rattle.capn_cmp.specs.CmpRun.{Compared};

use crate::cmp_order::CmpOrder;
use crate::cmp_service::CmpService;
use crate::fault::CmpFault;
use capn_canon::Refusal;
use capn_serve::{Begun, Finish, Position, RunFault, run_messages};
use capn_words::Watched;
use std::alloc::Allocator;
use std::io::{Read, Write};

/// The result of a comparison.
#[derive(Clone, Copy, Debug, PartialEq, Eq)]
pub enum Comparison {
    /// All messages have the value of the first one.
    Same,
    /// A message differs from the first one.
    Different,
}

impl<B: Allocator> Finish for CmpService<B> {
    ghost use Rattle.capn_cmp.specs.CmpRun as spec;
    ghost use Rattle.capn_serve.specs.Finish.{no_closing, nothing_told};

    type Found = Comparison;

    type Fault = CmpFault;

    ghost closing = { no_closing };

    ghost told = { nothing_told };

    ghost outcome = { spec.found };

    ghost stops = { spec.stops };

    fn write_closing<W: Write, A: Allocator + Copy>(
        &self,
        _alloc: A,
        _at: Position,
        _writer: &mut Watched<W>,
    ) -> Result<(), RunFault> {
        Ok(())
    }

    fn write_told<W: Write, A: Allocator + Copy>(
        &self,
        _alloc: A,
        _at: Position,
        _refusal: &Refusal,
        _begun: &Begun<A>,
        _writer: &mut Watched<W>,
    ) -> Result<(), RunFault> {
        Ok(())
    }

    fn outcome(&self, at: Position) -> Result<Comparison, CmpFault> {
        if self.differs() {
            return Ok(Comparison::Different);
        }
        if at.index < 2 {
            return Err(CmpFault::TooFew);
        }
        Ok(Comparison::Same)
    }

    fn stops(&self, _at: Position, stopped: RunFault) -> CmpFault {
        CmpFault::Run(stopped)
    }
}

/// Reads the messages of a stream from `reader`, and tests whether all have the value of the first one. Values are the
/// same if their canonical bytes are equal.
///
/// Input is read as [`run_messages`] reads it, and each message is compared as soon as all of its bytes were read. At
/// the first message that differs, three lines are written to `writer`, and nothing more is read. The first line shows
/// the position of the message that differs. The other two lines are the first lines that differ between the texts of
/// the first message and of that message. The text of a message is what `show --ways --form bare` writes for its
/// canonical bytes. If no message differs, nothing is written.
///
/// The result is `Same` if all of the input was served, and its messages, at least two, have the same value. The result
/// is `Different` after a message that differs. Otherwise the first fault is returned. The fault is `TooFew` if the
/// complete input has fewer than two messages. Any other fault is a `RunFault`. It is `Refused`, with the position, if
/// a frame or a group is refused, or if a message is refused by its walk or for a capability. The other faults are
/// `InputTooLong`, `Io` if and only if the reader or the writer failed, and `Memory` if an allocation was refused. A
/// run holds in memory what the loop over the messages holds, and the canonical bytes of the first message and of one
/// other. At a difference it also holds a prefix of each text.
pub fn run_cmp<R: Read, W: Write, A: Allocator + Copy>(
    alloc: A,
    order: CmpOrder,
    reader: &mut Watched<R>,
    writer: &mut Watched<W>,
) -> Result<Comparison, CmpFault>
    requires reader_fine { has_failed reader.old ≡ false }
    requires writer_fine { has_failed writer.old ≡ false }
    ensures { Compared order (R.remaining (inner_of reader.old)) (R.remaining (inner_of reader.new))
        (W.contents (inner_of writer.old)) (W.contents (inner_of writer.new)) (has_failed reader.new)
        (has_failed writer.new) result }
{
    let form = order.form.form();
    let service = CmpService::new(alloc, order.limits);
    run_messages(alloc, form, order.limits, service, reader, writer)
}
