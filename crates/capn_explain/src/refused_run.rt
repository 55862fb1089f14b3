//! The call `run_explain_refused`, a run that explains every refused message of an input.

ghost use Rattle.std.specs.Prelude.{◌≡◌, false};
ghost use Rattle.capn_words.specs.Watched.{inner_of, has_failed};
ghost use Rattle.capn_explain.specs.RefusedRun as spec;
ghost use Rattle.capn_explain.specs.RefusedRun.{ExplainedRefused};

use crate::closing::{ending_of, write_closing, write_refusal};
use crate::explain_refused::ExplainRefused;
use crate::order::each_of;
use crate::outcome::skipped_in;
use crate::reporter::Reporter;
use capn_canon::Refusal;
use capn_serve::{
    Begun, Finish, Position, RunFault, SkipFault, SkippedSoFar, run_messages, skip_fault_after,
    skip_outcome,
};
use capn_words::Watched;
use std::alloc::Allocator;
use std::io::{Read, Write};

/// Returns the result of a run over `messages` messages whose loop and closing text ended with `end`. `skipped` counts
/// the messages that were refused by their walk.
fn answer_by(
    skipped: Option<SkippedSoFar>,
    messages: u64,
    end: Result<(), RunFault>,
) -> Result<(), SkipFault>
    ensures { result ≡ spec.answer_by skipped messages end }
{
    match end {
        Ok(()) => skip_outcome(skipped, messages),
        Err(fault) => Err(skip_fault_after(skipped, messages, fault)),
    }
}

impl<B: Allocator + Copy> Finish for Reporter<B> {
    ghost use Rattle.capn_explain.specs.ExplainRun as run;
    ghost use Rattle.capn_explain.specs.RefusedRun as spec;

    type Found = ();

    type Fault = SkipFault;

    ghost closing = { run.closing };

    ghost told = { run.told };

    ghost outcome = { spec.outcome };

    ghost stops = { spec.stops };

    fn write_closing<W: Write, A: Allocator + Copy>(
        &self,
        alloc: A,
        at: Position,
        writer: &mut Watched<W>,
    ) -> Result<(), RunFault> {
        write_closing(alloc, self, at, writer)
    }

    fn write_told<W: Write, A: Allocator + Copy>(
        &self,
        alloc: A,
        at: Position,
        refusal: &Refusal,
        begun: &Begun<A>,
        writer: &mut Watched<W>,
    ) -> Result<(), RunFault> {
        write_refusal(alloc, &self.order(), at, refusal, begun, writer)
    }

    fn outcome(&self, at: Position) -> Result<(), SkipFault> {
        let skipped = skipped_in(self.explained());
        answer_by(skipped, at.index, ending_of(self))
    }

    fn stops(&self, at: Position, stopped: RunFault) -> SkipFault {
        let skipped = skipped_in(self.explained());
        skip_fault_after(skipped, at.index, stopped)
    }
}

/// Explains every refused message of the input of `reader`, within the limits of `order`. Writes the lines to `writer`,
/// with an empty line after the lines of each message.
///
/// A message that its walk refuses is explained with the lines that [`run_explain`](crate::run_explain) would write if
/// this message were the first refused one. The lines are written before more input is read, and then the next message
/// is served. A message whose frame, packing or length is refused ends the run, and is explained last. If no message is
/// refused, the text of `run_explain` is written, without an empty line. This text is the lines of the only message, or
/// a line that shows the number of messages.
///
/// Input is read as [`run_messages`] reads it. The run ends with `Ok`, with `Skipped` if all of the input was read
/// and messages were refused by their walk, or with the first fault. For a refused frame, group or bare input, the
/// fault is `Ended` with the refusal and its position, or `RefusedAfterSkipped` if earlier messages were refused by
/// their walk. Any other fault is `Ended` with `InputTooLong`, with `Io` if and only if the reader or the writer
/// failed, or with `Memory` if an allocation on `alloc` was refused. A refused allocation for the account of the
/// first message ends the run with `Memory` only if there is no second message. A run holds in memory what the loop
/// over the messages holds, the canonical bytes of the first message, the paths of one account, and the lines of one
/// message.
pub fn run_explain_refused<R: Read, W: Write, A: Allocator + Copy>(
    alloc: A,
    order: ExplainRefused,
    reader: &mut Watched<R>,
    writer: &mut Watched<W>,
) -> Result<(), SkipFault>
    requires reader_fine { has_failed reader.old ≡ false }
    requires writer_fine { has_failed writer.old ≡ false }
    ensures { ExplainedRefused order (R.remaining (inner_of reader.old)) (R.remaining (inner_of reader.new))
        (W.contents (inner_of writer.old)) (W.contents (inner_of writer.new)) (has_failed reader.new)
        (has_failed writer.new) result }
{
    let (form, limits) = (order.form, order.limits);
    let reporter = Reporter::new(alloc, each_of(order));
    run_messages(alloc, form, limits, reporter, reader, writer)
}
