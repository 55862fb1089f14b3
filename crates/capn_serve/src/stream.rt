//! Serves the messages that are complete after a chunk of a stream.

ghost use Rattle.std.specs.Prelude.{◌≡◌, ◌⊎◌, ℕ, ◌+◌, [], length, false, IfErr};
ghost use Rattle.capn_words.specs.Watched.{inner_of, has_failed};
ghost use Rattle.capn_stream.specs.StreamPieces.{IsFrame, IsUnfinished};
ghost use Rattle.capn_serve.specs.Fold.{fold_until};
ghost use Rattle.capn_serve.specs.Outgoing.{outgoing};
ghost use Rattle.capn_serve.specs.ChunkRun as spec;
ghost use Rattle.capn_serve.specs.ChunkRun.{AddsMessage, HasRoom, Passes, ServesHeld, ServesWhole};
ghost use Rattle.capn_serve.specs.inner.Holding.{IsOfMessage};
ghost use Rattle.capn_serve.specs.inner.Serving.{CanServe, HasServed, HasServedNext, IsReady};

use crate::fault::RunFault;
use crate::message::add_message;
use crate::position::Position;
use crate::service::{Run, Service};
use capn_canon::Refusal;
use capn_stream::{FrameFault, Framed, Framer, first, first_bare};
use capn_words::Watched;
use std::alloc::Allocator;
use std::io::Write;

/// Returns the fault of a run after its framer refused the frame at the position `at` with `fault`.
pub(crate) fn fault_at(at: Position, fault: FrameFault) -> RunFault
    ensures { result ≡ spec.fault_at at fault }
{
    match fault {
        FrameFault::Memory => RunFault::Memory,
        _ => RunFault::Refused(at, Refusal::Frame(fault)),
    }
}

/// Returns an `Err` if `fault` is `Memory`, and otherwise `Ok`. The framer reports any other fault later, unless that
/// fault means only that the frame is incomplete.
fn pass(fault: FrameFault) -> Result<(), RunFault>
    ensures { Passes fault result }
{
    match fault {
        FrameFault::Memory => Err(RunFault::Memory),
        _ => Ok(()),
    }
}

/// Serves `message`, which may have any number of segments, and moves the run to the position of the next message. This
/// function is not inlined, so that the loop over messages of one segment stays short.
#[inline(never)]
fn add_framed<S: Service, W: Write, A: Allocator + Copy>(
    alloc: A,
    run: &mut Run<S>,
    frame: &[u8],
    message: &Framed<'_, A>,
    text: &mut Vec<u8, A>,
    writer: &mut Watched<W>,
) -> Result<(), RunFault>
    requires fine { has_failed writer.old ≡ false }
    requires room { HasRoom run.old.at (length frame.now) }
    ensures { (most : ℕ) → AddsMessage (fold_until S.serves S.refuses S.done most) run.old frame.now message.now
        (outgoing (W.contents (inner_of writer.old)) text.old.items)
        (outgoing (W.contents (inner_of writer.new)) text.new.items) (has_failed writer.new) result run.new }
{
    add_message(alloc, run, frame, message, text, writer)
}

/// Serves the complete messages at the start of `bytes`, until the service is finished, and copies none of them.
/// Returns the number of bytes of the served messages. Serving also stops where no complete message begins, and the
/// framer finds out the reason later.
#[inline(always)]
fn serve_whole<S: Service, W: Write, A: Allocator + Copy>(
    alloc: A,
    most: u32,
    run: &mut Run<S>,
    bytes: &[u8],
    text: &mut Vec<u8, A>,
    writer: &mut Watched<W>,
) -> Result<usize, RunFault>
    requires can { CanServe (fold_until S.serves S.refuses S.done most) run.old (length bytes.now)
        (has_failed writer.old) }
    ensures served { ServesWhole (fold_until S.serves S.refuses S.done most) run.old bytes.now
        (outgoing (W.contents (inner_of writer.old)) text.old.items)
        (outgoing (W.contents (inner_of writer.new)) text.new.items) (has_failed writer.new) result run.new }
    ensures came { IfErr result (λ e. IsOfMessage (fold_until S.serves S.refuses S.done most) e) }
{
    let mut at = 0;
    while at < bytes.len() {
        if run.is_done() {
            break;
        }
        let rest = &bytes[at..];
        if let Some((message, size)) = first_bare(rest, most) {
            add_message(alloc, run, &rest[..size], &message, text, writer)?;
            at += size;
            continue;
        }
        match first(alloc, rest, most) {
            Ok((message, taken)) => {
                add_framed(alloc, run, &rest[..taken], &message, text, writer)?;
                at += taken;
            }
            Err(fault) => {
                pass(fault)?;
                return Ok(at);
            }
        }
    }
    Ok(at)
}

/// Drops the message that `framer` holds.
fn clear<A: Allocator + Copy>(framer: &mut Framer<A>)
    requires good { framer.old.failed ≡ false }
    requires whole { IsFrame framer.old.rest framer.old.most }
    ensures { framer.new ≡ record { rest = []; most = framer.old.most; failed = false } }
{
    let _served = framer.take();
}

/// Serves and drops the message that `framer` holds, if that message is complete.
fn serve_held<S: Service, W: Write, A: Allocator + Copy>(
    alloc: A,
    most: u32,
    run: &mut Run<S>,
    framer: &mut Framer<A>,
    text: &mut Vec<u8, A>,
    writer: &mut Watched<W>,
) -> Result<(), RunFault>
    requires can { CanServe (fold_until S.serves S.refuses S.done most) run.old (length framer.old.rest)
        (has_failed writer.old) }
    requires good { framer.old.failed ≡ false }
    requires same { framer.old.most ≡ most }
    requires going { S.done run.old.service run.old.at ≡ false }
    requires held { IsFrame framer.old.rest most ⊎ IsUnfinished framer.old.rest most }
    ensures served { ServesHeld (fold_until S.serves S.refuses S.done most) run.old framer.old
        (outgoing (W.contents (inner_of writer.old)) text.old.items)
        (outgoing (W.contents (inner_of writer.new)) text.new.items) (has_failed writer.new) result framer.new run.new }
    ensures came { IfErr result (λ e. IsOfMessage (fold_until S.serves S.refuses S.done most) e) }
{
    let held = framer.held();
    match first(alloc, held, most) {
        Ok((message, taken)) => {
            add_framed(alloc, run, &held[..taken], &message, text, writer)?;
        }
        Err(fault) => return pass(fault),
    }
    clear(framer);
    Ok(())
}

/// Feeds `bytes` to `framer` up to the end of a message, and serves that message if it is complete. Returns the number
/// of bytes fed.
fn serve_next<S: Service, W: Write, A: Allocator + Copy>(
    alloc: A,
    most: u32,
    run: &mut Run<S>,
    framer: &mut Framer<A>,
    bytes: &[u8],
    text: &mut Vec<u8, A>,
    writer: &mut Watched<W>,
) -> Result<usize, RunFault>
    requires ready { IsReady (fold_until S.serves S.refuses S.done most) run.old framer.old (length bytes.now)
        (has_failed writer.old) }
    ensures { HasServedNext (fold_until S.serves S.refuses S.done most) run.old framer.old bytes.now
        (outgoing (W.contents (inner_of writer.old)) text.old.items)
        (outgoing (W.contents (inner_of writer.new)) text.new.items) (has_failed writer.new) result framer.new run.new }
{
    match framer.feed(bytes) {
        Ok(taken) => {
            serve_held(alloc, most, run, framer, text, writer)?;
            Ok(taken)
        }
        Err(fault) => Err(fault_at(run.at, fault)),
    }
}

/// If `framer` is empty, serves the complete messages at the start of `bytes`. If `framer` holds bytes, or `bytes`
/// begin with no complete message, serves at most one message, as `serve_next` does. Returns the number of bytes served
/// or fed.
fn serve_some<S: Service, W: Write, A: Allocator + Copy>(
    alloc: A,
    most: u32,
    run: &mut Run<S>,
    framer: &mut Framer<A>,
    bytes: &[u8],
    text: &mut Vec<u8, A>,
    writer: &mut Watched<W>,
) -> Result<usize, RunFault>
    requires ready { IsReady (fold_until S.serves S.refuses S.done most) run.old framer.old (length bytes.now)
        (has_failed writer.old) }
    ensures { HasServedNext (fold_until S.serves S.refuses S.done most) run.old framer.old bytes.now
        (outgoing (W.contents (inner_of writer.old)) text.old.items)
        (outgoing (W.contents (inner_of writer.new)) text.new.items) (has_failed writer.new) result framer.new run.new }
{
    if !framer.is_empty() {
        return serve_next(alloc, most, run, framer, bytes, text, writer);
    }
    let whole = serve_whole(alloc, most, run, bytes, text, writer)?;
    if 0 < whole {
        return Ok(whole);
    }
    serve_next(alloc, most, run, framer, bytes, text, writer)
}

/// Serves each message that is complete after `bytes`, until the service is finished.
pub(crate) fn serve_bytes<S: Service, W: Write, A: Allocator + Copy>(
    alloc: A,
    most: u32,
    run: &mut Run<S>,
    framer: &mut Framer<A>,
    bytes: &[u8],
    text: &mut Vec<u8, A>,
    writer: &mut Watched<W>,
) -> Result<(), RunFault>
    requires ready { IsReady (fold_until S.serves S.refuses S.done most) run.old framer.old (length bytes.now)
        (has_failed writer.old) }
    ensures { HasServed (fold_until S.serves S.refuses S.done most) run.old framer.old bytes.now
        (outgoing (W.contents (inner_of writer.old)) text.old.items)
        (outgoing (W.contents (inner_of writer.new)) text.new.items) (has_failed writer.new) result framer.new run.new }
{
    let mut at = 0;
    while at < bytes.len() {
        at += serve_some(alloc, most, run, framer, &bytes[at..], text, writer)?;
        if run.is_done() {
            break;
        }
    }
    Ok(())
}
