//! The run over the messages of a packed stream.

ghost use Rattle.std.specs.Prelude.{◌≡◌, ◌⊎◌, ◌+◌, ◌++◌, ◌≤◌, [], length, false, IfErr, IfSome};
ghost use Rattle.capn_words.specs.Message.{most_message_words};
ghost use Rattle.capn_words.specs.Watched.{inner_of, has_failed};
ghost use Rattle.capn_stream.specs.StreamPieces.{IsUnfinished};
ghost use Rattle.capn_serve.specs.Fold.{fold_until};
ghost use Rattle.capn_serve.specs.PackedRun.{RunsPacked};
ghost use Rattle.capn_serve.specs.PackedChunkRun.{EndsPacked, IsUnpacking, ServesPart, pending};
ghost use Rattle.capn_serve.specs.Outgoing.{outgoing};
ghost use Rattle.capn_serve.specs.StreamRun.{start, taken_of};
ghost use Rattle.capn_serve.specs.WhatCame.{IsOwnRefusal, TellsGroups};
ghost use Rattle.capn_serve.specs.inner.Holding.{Holds};
ghost use Rattle.capn_serve.specs.inner.Serving.{HasServedPacked, IsReady};

use crate::fault::RunFault;
use crate::intake::{Intake, serve_pieces};
use crate::output::send_rest;
use crate::packed::{Packed, new_packed};
use crate::position::Position;
use crate::service::{Run, Service};
use crate::stream::serve_bytes;
use crate::stream_run::end_of_input;
use capn_canon::Refusal;
use capn_words::Watched;
use std::alloc::Allocator;
use std::io::{Read, Write};

/// The greatest number of packed bytes that are unpacked at once. The groups within these bytes unpack to at most 1,024
/// times as many bytes.
const SLICE: usize = 512;

/// Serves each message that is complete after the unpacked bytes `packed.part`, until the service is finished. At most
/// `packed.left` of these bytes are served. If there are more bytes, and the service is not finished, the run ends with
/// `InputTooLong`.
fn serve_part<S: Service, W: Write, A: Allocator + Copy>(
    alloc: A,
    most: u32,
    run: &mut Run<S>,
    packed: &mut Packed<A>,
    text: &mut Vec<u8, A>,
    writer: &mut Watched<W>,
) -> Result<(), RunFault>
    requires ready { IsReady (fold_until S.serves S.refuses S.done most) run.old packed.old.framer packed.old.left
        (has_failed writer.old) }
    ensures served { ServesPart (fold_until S.serves S.refuses S.done most) run.old packed.old.left packed.old.framer
        packed.old.part.items (outgoing (W.contents (inner_of writer.old)) text.old.items)
        (outgoing (W.contents (inner_of writer.new)) text.new.items) (has_failed writer.new) result
        packed.new.left packed.new.framer run.new }
    ensures came { IfErr result (λ e. Holds (fold_until S.serves S.refuses S.done most) run.old
        (packed.old.framer.rest ++ taken_of packed.old.left packed.old.part.items) e packed.new.framer.rest run.new) }
    ensures unpacker { packed.new.unpacker ≡ packed.old.unpacker }
{
    let count = packed.part.len() as u64;
    let within = packed.left.min(count);
    serve_bytes(
        alloc,
        most,
        run,
        &mut packed.framer,
        &packed.part[..within as usize],
        text,
        writer,
    )?;
    if run.is_done() {
        return Ok(());
    }
    if within < count {
        return Err(RunFault::InputTooLong);
    }
    packed.left -= within;
    Ok(())
}

/// Unpacks the slice `bytes`, and serves each message that is complete after this slice. All bytes that the slice
/// unpacks to are in memory at once.
fn serve_slice<S: Service, W: Write, A: Allocator + Copy>(
    alloc: A,
    most: u32,
    run: &mut Run<S>,
    packed: &mut Packed<A>,
    bytes: &[u8],
    text: &mut Vec<u8, A>,
    writer: &mut Watched<W>,
) -> Result<(), RunFault>
    requires ready { IsReady (fold_until S.serves S.refuses S.done most) run.old packed.old.framer packed.old.left
        (has_failed writer.old) }
    requires held { packed.old.unpacker.failed ≡ false }
    ensures { HasServedPacked (fold_until S.serves S.refuses S.done most) run.old
        (pending packed.old.unpacker packed.old.framer packed.old.left) bytes.now
        (outgoing (W.contents (inner_of writer.old)) text.old.items)
        (outgoing (W.contents (inner_of writer.new)) text.new.items) (has_failed writer.new) result
        packed.new.unpacker packed.new.framer packed.new.left run.new }
{
    packed.part.clear();
    match packed.unpacker.feed(bytes, &mut packed.part) {
        Ok(()) => serve_part(alloc, most, run, packed, text, writer),
        Err(_) => Err(RunFault::Memory),
    }
}

/// Unpacks `bytes` slice by slice. Serves each message that is complete after a slice, until the service is finished.
fn serve_slices<S: Service, W: Write, A: Allocator + Copy>(
    alloc: A,
    most: u32,
    run: &mut Run<S>,
    packed: &mut Packed<A>,
    bytes: &[u8],
    text: &mut Vec<u8, A>,
    writer: &mut Watched<W>,
) -> Result<(), RunFault>
    requires ready { IsReady (fold_until S.serves S.refuses S.done most) run.old packed.old.framer packed.old.left
        (has_failed writer.old) }
    requires unpacking { IsUnpacking packed.old.unpacker }
    requires short { length bytes.now ≤ 65536 }
    ensures { HasServedPacked (fold_until S.serves S.refuses S.done most) run.old
        (pending packed.old.unpacker packed.old.framer packed.old.left) bytes.now
        (outgoing (W.contents (inner_of writer.old)) text.old.items)
        (outgoing (W.contents (inner_of writer.new)) text.new.items) (has_failed writer.new) result
        packed.new.unpacker packed.new.framer packed.new.left run.new }
{
    let mut at = 0;
    while at < bytes.len() {
        let end = (at + SLICE).min(bytes.len());
        serve_slice(alloc, most, run, packed, &bytes[at..end], text, writer)?;
        if run.is_done() {
            break;
        }
        at = end;
    }
    Ok(())
}

/// Ends a run at the end of its packed input, with a fault at the position `at` if a message or a group is cut off.
/// `packed` keeps the bytes that it holds.
fn end_of_packed<A: Allocator + Copy>(at: Position, packed: &mut Packed<A>) -> Result<(), RunFault>
    requires held { packed.old.unpacker.failed ≡ false }
    requires part { IsUnfinished packed.old.framer.rest packed.old.framer.most }
    ensures ends { EndsPacked at packed.old.unpacker.rest packed.old.unpacker.offset packed.old.framer.rest
        packed.old.framer.most result }
    ensures group { packed.new.unpacker.rest ≡ packed.old.unpacker.rest }
    ensures rest { packed.new.framer ≡ packed.old.framer }
{
    match packed.unpacker.finish() {
        Ok(()) => end_of_input(at, &packed.framer),
        Err(fault) => Err(RunFault::Refused(at, Refusal::Packed(fault))),
    }
}

/// A [`Packed`] as the [`Intake`] of a packed stream. The messages of a chunk are served before the next chunk is read.
impl<A: Allocator + Copy> Intake<A> for Packed<A> {
    ghost use Rattle.capn_serve.specs.inner.Intakes.{GivesPacked, TakesPacked};

    ghost takes = { λ X f first x now y bytes c d. TakesPacked f x first.left now.unpacker now.framer now.left y bytes c
        d };

    ghost gives = { λ X f first x now y bytes longer c d r. GivesPacked f x first.left now.unpacker now.framer y bytes
        longer c d r };

    fn serve<S: Service, W: Write>(
        &mut self,
        alloc: A,
        most: u32,
        run: &mut Run<S>,
        piece: &[u8],
        text: &mut Vec<u8, A>,
        writer: &mut Watched<W>,
    ) -> Result<(), RunFault> {
        text.clear();
        let served = serve_slices(alloc, most, run, self, piece, text, writer);
        send_rest(served, text, writer)
    }

    fn finish<S: Service>(&mut self, run: &Run<S>) -> Result<(), RunFault> {
        end_of_packed(run.at, self)
    }
}

/// Reads a packed stream, and serves each message once that message is complete. `packed` must be new, with the limit
/// `limit`. Afterwards `packed` holds the bytes of an unfinished message and of an unfinished group. The other
/// arguments are those of [`run_packed`].
pub(crate) fn packed_into<S: Service, R: Read, W: Write, A: Allocator + Copy>(
    alloc: A,
    most: u32,
    most_packed: u64,
    limit: u64,
    run: &mut Run<S>,
    packed: &mut Packed<A>,
    reader: &mut Watched<R>,
    writer: &mut Watched<W>,
) -> Result<(), RunFault>
    requires small { most ≤ most_message_words }
    requires fresh { run.old.at ≡ start }
    requires unpacker { packed.old.unpacker ≡ record { rest = []; offset = 0; failed = false } }
    requires framer { packed.old.framer ≡ record { rest = []; most = most; failed = false } }
    requires left { packed.old.left ≡ limit }
    requires reader_fine { has_failed reader.old ≡ false }
    requires writer_fine { has_failed writer.old ≡ false }
    ensures runs { RunsPacked (fold_until S.serves S.refuses S.done most) run.old most_packed limit
        (R.remaining (inner_of reader.old)) (R.remaining (inner_of reader.new))
        (W.contents (inner_of writer.old)) (W.contents (inner_of writer.new)) (has_failed reader.new)
        (has_failed writer.new) result run.new }
    ensures came { IfSome (R.remaining (inner_of reader.old)) (λ input. IfErr result (λ e.
        IsOwnRefusal (fold_until S.serves S.refuses S.done most) e
        ⊎ TellsGroups (fold_until S.serves S.refuses S.done most) run.old limit (taken_of most_packed input) e
        (record { rest = packed.new.framer.rest; group = packed.new.unpacker.rest }) run.new)) }
{
    serve_pieces(alloc, most, most_packed, run, packed, reader, writer)
}

/// Reads a packed stream in chunks of at most 65,536 bytes. Before the next chunk is read, each message that is
/// complete by then is served.
///
/// `most` is the greatest number of words of a message. At most `most_packed` packed bytes and at most `limit` unpacked
/// bytes are served. Positions count unpacked bytes. Once the service is finished, nothing more is read or served. A
/// chunk is unpacked in slices of 512 bytes. A slice unpacks to at most 512 KiB, in addition to a group that began
/// before the slice.
///
/// The run ends with `Ok`, or with the first fault. `Refused` has the position of a frame or a message that is refused.
/// If a group is cut off at the end of the input, `Refused` has the position of the message that has begun or would
/// begin. `InputTooLong` means that there are more packed or unpacked bytes than may be served. `Io` is returned if and
/// only if the reader or the writer failed, and `Memory` if an allocation was refused. Unless the writer failed, the
/// texts of the messages before the fault have been written. Before `Memory` a prefix of one more text may have been
/// written too. In memory the run holds an unfinished message, the unpacked bytes of a slice, the texts of a chunk that
/// are not written yet, and what the service holds.
pub fn run_packed<S: Service, R: Read, W: Write, A: Allocator + Copy>(
    alloc: A,
    most: u32,
    most_packed: u64,
    limit: u64,
    run: &mut Run<S>,
    reader: &mut Watched<R>,
    writer: &mut Watched<W>,
) -> Result<(), RunFault>
    requires small { most ≤ most_message_words }
    requires fresh { run.old.at ≡ start }
    requires reader_fine { has_failed reader.old ≡ false }
    requires writer_fine { has_failed writer.old ≡ false }
    ensures { RunsPacked (fold_until S.serves S.refuses S.done most) run.old most_packed limit
        (R.remaining (inner_of reader.old)) (R.remaining (inner_of reader.new))
        (W.contents (inner_of writer.old)) (W.contents (inner_of writer.new)) (has_failed reader.new)
        (has_failed writer.new) result run.new }
{
    let mut packed = new_packed(alloc, most, limit);
    packed_into(
        alloc,
        most,
        most_packed,
        limit,
        run,
        &mut packed,
        reader,
        writer,
    )
}
