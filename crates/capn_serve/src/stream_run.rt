//! The run over the messages of a stream that is not packed.

ghost use Rattle.std.specs.Prelude.{◌≡◌, ◌⊎◌, ◌≤◌, [], false, IfErr, IfSome};
ghost use Rattle.capn_words.specs.Message.{most_message_words};
ghost use Rattle.capn_words.specs.Watched.{inner_of, has_failed};
ghost use Rattle.capn_stream.specs.StreamPieces.{IsUnfinished};
ghost use Rattle.capn_serve.specs.Fold.{fold_until};
ghost use Rattle.capn_serve.specs.StreamRun.{EndsInput, Runs, start, taken_of};
ghost use Rattle.capn_serve.specs.WhatCame.{IsOwnRefusal, TellsStream};

use crate::fault::RunFault;
use crate::intake::{Intake, serve_pieces};
use crate::output::send_rest;
use crate::position::Position;
use crate::service::{Run, Service};
use crate::stream::serve_bytes;
use capn_canon::Refusal;
use capn_stream::{FrameFault, Framer};
use capn_words::Watched;
use std::alloc::Allocator;
use std::io::{Read, Write};

/// Ends a run at the end of its input: with `Ok` if `framer` is empty, or a fault at `at` because a frame is cut off.
pub(crate) fn end_of_input<A: Allocator + Copy>(
    at: Position,
    framer: &Framer<A>,
) -> Result<(), RunFault>
    requires part { IsUnfinished framer.now.rest framer.now.most }
    ensures { EndsInput at framer.now.rest framer.now.most result }
{
    if framer.is_empty() {
        return Ok(());
    }
    Err(RunFault::Refused(at, Refusal::Frame(FrameFault::Cut)))
}

/// A framer as the [`Intake`] of a stream that is not packed. The messages of a chunk are served before the next chunk
/// is read.
impl<A: Allocator + Copy> Intake<A> for Framer<A> {
    ghost use Rattle.capn_serve.specs.inner.Intakes.{GivesStream, TakesStream};

    ghost takes = { λ X f first x now y bytes c d. TakesStream f x now y bytes c d };

    ghost gives = { λ X f first x now y bytes longer c d r. GivesStream f x now y bytes longer c d r };

    fn serve<S: Service, W: Write>(
        &mut self,
        alloc: A,
        most: u32,
        run: &mut Run<S>,
        piece: &[u8],
        text: &mut Vec<u8, A>,
        writer: &mut Watched<W>,
    ) -> Result<(), RunFault> {
        text.clear();
        let served = serve_bytes(alloc, most, run, self, piece, text, writer);
        send_rest(served, text, writer)
    }

    fn finish<S: Service>(&mut self, run: &Run<S>) -> Result<(), RunFault> {
        end_of_input(run.at, self)
    }
}

/// Reads a stream, and serves each message once that message is complete. `framer` must be new. Afterwards `framer`
/// holds the bytes of an unfinished message. The other arguments are those of [`run_stream`].
pub(crate) fn stream_into<S: Service, R: Read, W: Write, A: Allocator + Copy>(
    alloc: A,
    most: u32,
    limit: u64,
    run: &mut Run<S>,
    framer: &mut Framer<A>,
    reader: &mut Watched<R>,
    writer: &mut Watched<W>,
) -> Result<(), RunFault>
    requires small { most ≤ most_message_words }
    requires fresh { run.old.at ≡ start }
    requires new { framer.old ≡ record { rest = []; most = most; failed = false } }
    requires reader_fine { has_failed reader.old ≡ false }
    requires writer_fine { has_failed writer.old ≡ false }
    ensures runs { Runs (fold_until S.serves S.refuses S.done most) run.old limit (R.remaining (inner_of reader.old))
        (R.remaining (inner_of reader.new))
        (W.contents (inner_of writer.old)) (W.contents (inner_of writer.new)) (has_failed reader.new)
        (has_failed writer.new) result run.new }
    ensures came { IfSome (R.remaining (inner_of reader.old)) (λ input. IfErr result (λ e.
        IsOwnRefusal (fold_until S.serves S.refuses S.done most) e
        ⊎ TellsStream (fold_until S.serves S.refuses S.done most) run.old (taken_of limit input) e framer.new.rest
        run.new)) }
{
    serve_pieces(alloc, most, limit, run, framer, reader, writer)
}

/// Reads a stream in chunks of at most 65,536 bytes. Before the next chunk is read, each message that is complete by
/// then is served.
///
/// `most` is the greatest number of words of a message. At most `limit` bytes are served. One more byte may be read, to
/// find out whether the input is longer. Once the service is finished, nothing more is read or served. The run ends
/// with `Ok`, or with the first fault. `Refused` has the position of a frame or a message that is refused.
/// `InputTooLong` means that the input has more than `limit` bytes. `Io` is returned if and only if the reader or the
/// writer failed, and `Memory` if an allocation was refused. Unless the writer failed, the texts of the messages before
/// the fault have been written. Before `Memory` a prefix of one more text may have been written too. In memory the run
/// holds an unfinished message, the texts of a chunk that are not written yet, and what the service holds.
pub fn run_stream<S: Service, R: Read, W: Write, A: Allocator + Copy>(
    alloc: A,
    most: u32,
    limit: u64,
    run: &mut Run<S>,
    reader: &mut Watched<R>,
    writer: &mut Watched<W>,
) -> Result<(), RunFault>
    requires small { most ≤ most_message_words }
    requires fresh { run.old.at ≡ start }
    requires reader_fine { has_failed reader.old ≡ false }
    requires writer_fine { has_failed writer.old ≡ false }
    ensures { Runs (fold_until S.serves S.refuses S.done most) run.old limit (R.remaining (inner_of reader.old))
        (R.remaining (inner_of reader.new))
        (W.contents (inner_of writer.old)) (W.contents (inner_of writer.new)) (has_failed reader.new)
        (has_failed writer.new) result run.new }
{
    let mut framer = Framer::new(alloc, most);
    stream_into(alloc, most, limit, run, &mut framer, reader, writer)
}
