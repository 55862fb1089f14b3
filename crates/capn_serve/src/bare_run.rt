//! The run over a bare input, which is one message.

ghost use Rattle.std.specs.Prelude.{◌≡◌, ℕ, ◌*◌, ◌<◌, List, length, false, Err};
ghost use Rattle.capn_words.specs.Message.{most_words, ReadsBare};
ghost use Rattle.capn_words.specs.Watched.{inner_of, has_failed};
ghost use Rattle.capn_serve.specs.BareRun.{IsShortBare, RunsBare, ServesBare};
ghost use Rattle.capn_serve.specs.Fold.{fold_until};
ghost use Rattle.capn_serve.specs.Outgoing.{outgoing};
ghost use Rattle.capn_serve.specs.ChunkRun.{HasRoom};
ghost use Rattle.capn_serve.specs.StreamRun.{start};
ghost use Rattle.capn_serve.specs.WholeInput.{TakesAll};

use crate::fault::RunFault;
use crate::message::add_message;
use crate::position::Position;
use crate::service::{Run, Service};
use crate::whole_input::read_all;
use capn_canon::Refusal;
use capn_words::{Bare, BareFault, MOST_WORDS, Watched};
use std::alloc::Allocator;
use std::io::{Read, Write};

/// Returns the fault of a bare input of `len` bytes, which are more than a segment can have.
fn bare_fault(len: u64) -> BareFault
    requires { 8 * most_words < len }
    ensures { (bytes : List ℕ) → length bytes ≡ len → ReadsBare bytes (Err result) }
{
    if len % 8 == 0 {
        BareFault::TooLong(len / 8)
    } else {
        BareFault::NotWhole(len)
    }
}

/// Reads a bare input to its end, and returns its bytes. An input longer than a segment can be is refused at the
/// position `at`. The other faults are those of [`read_all`](crate::read_all).
pub fn read_bare<R: Read, A: Allocator>(
    alloc: A,
    at: Position,
    reader: &mut Watched<R>,
) -> Result<Vec<u8, A>, RunFault>
    requires { has_failed reader.old ≡ false }
    ensures { TakesAll (IsShortBare at) (R.remaining (inner_of reader.old)) (R.remaining (inner_of reader.new))
        (has_failed reader.new) result }
{
    let input = read_all(alloc, reader, 8 * MOST_WORDS as usize)?;
    if input.len <= 8 * MOST_WORDS as usize {
        return Ok(input.bytes);
    }
    let fault = bare_fault(input.len as u64);
    Err(RunFault::Refused(at, Refusal::Bare(fault)))
}

/// Serves `bytes` as one message. Refuses `bytes` that are not one segment.
fn serve_bare<S: Service, W: Write, A: Allocator + Copy>(
    alloc: A,
    run: &mut Run<S>,
    bytes: &[u8],
    text: &mut Vec<u8, A>,
    writer: &mut Watched<W>,
) -> Result<(), RunFault>
    requires fine { has_failed writer.old ≡ false }
    requires room { HasRoom run.old.at (length bytes.now) }
    ensures { (most : ℕ) → ServesBare (fold_until S.serves S.refuses S.done most) run.old bytes.now
        (outgoing (W.contents (inner_of writer.old)) text.old.items)
        (outgoing (W.contents (inner_of writer.new)) text.new.items) (has_failed writer.new) result run.new }
{
    match Bare::new(bytes) {
        Ok(message) => add_message(alloc, run, bytes, &message, text, writer),
        Err(fault) => Err(RunFault::Refused(run.at, Refusal::Bare(fault))),
    }
}

/// Reads a bare input to its end, in chunks of at most 65,536 bytes, and serves the input as one message. If the
/// service is finished at the start, nothing is read.
///
/// The input itself is the frame that the service gets. An input of more than 2^32 bytes ends the run with
/// `InputTooLong`. Any other input is refused at offset 0 if its length is no multiple of 8 bytes, or if it has more
/// than 2^28 + 1 words. The service may refuse the message too. `Io` is returned if and only if the reader or the
/// writer failed, and `Memory` if an allocation was refused. Nothing is written before the input has ended. In memory
/// the run holds up to 2^28 + 1 words of the input, the text that is not written yet, and what the service holds.
pub fn run_bare<S: Service, R: Read, W: Write, A: Allocator + Copy>(
    alloc: A,
    run: &mut Run<S>,
    reader: &mut Watched<R>,
    writer: &mut Watched<W>,
) -> Result<(), RunFault>
    requires fresh { run.old.at ≡ start }
    requires reader_fine { has_failed reader.old ≡ false }
    requires writer_fine { has_failed writer.old ≡ false }
    ensures { (most : ℕ) → RunsBare (fold_until S.serves S.refuses S.done most) run.old
        (R.remaining (inner_of reader.old)) (R.remaining (inner_of reader.new))
        (W.contents (inner_of writer.old)) (W.contents (inner_of writer.new)) (has_failed reader.new)
        (has_failed writer.new) result run.new }
{
    if run.is_done() {
        return Ok(());
    }
    let bytes = read_bare(alloc, run.at, reader)?;
    let mut text = Vec::new(alloc);
    serve_bare(alloc, run, &bytes, &mut text, writer)?;
    Ok(writer.write_all(&text)?)
}
