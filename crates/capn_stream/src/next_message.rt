//! The call `read_message`, which reads the next message of a reader and no byte after it.

ghost use Rattle.std.specs.Prelude.{◌≡◌, ℕ, ◌<◌, ◌≤◌, ◌++◌, List, length, false, IfSome, IsErrOf};
ghost use Rattle.capn_words.specs.Message.{most_message_words};
ghost use Rattle.capn_words.specs.Watched.{has_failed, inner_of};
ghost use Rattle.capn_stream.specs.StreamPieces.{IsFrame, IsUnfinished};
ghost use Rattle.capn_stream.specs.NextMessage.{EndGives, OnlyFirst, ReadGives, ReadsFirst, StopsInside, TakesIn};

use crate::fault::{FrameFault, ReadFault};
use crate::framer::Framer;
use crate::stored::Stored;
use capn_words::Watched;
use std::alloc::Allocator;
use std::io::Read;

/// The greatest number of bytes that are requested from the reader at once.
const PIECE: usize = 16_384;

/// Feeds `piece` to `framer`, and returns the message if it is then complete. All of `piece` belongs to the current
/// frame.
fn take_in<A: Allocator + Copy>(
    framer: &mut Framer<A>,
    piece: &[u8],
) -> Result<Option<Stored<A>>, ReadFault>
    requires good { framer.old.failed ≡ false }
    requires needed { (more : List ℕ) → IsFrame (framer.old.rest ++ more) framer.old.most
        → length piece.now ≤ length more }
    ensures { TakesIn framer.old piece.now result framer.new }
{
    match framer.feed(piece) {
        Ok(_) => Ok(framer.take()),
        Err(FrameFault::Memory) => Err(ReadFault::Memory),
        Err(fault) => Err(ReadFault::Frame(fault)),
    }
}

/// Returns the outcome at the end of the input: `None` if no frame has begun, otherwise `Cut`.
fn end_of<A: Allocator + Copy>(mut framer: Framer<A>) -> Result<Option<Stored<A>>, ReadFault>
    requires good { framer.failed ≡ false }
    requires part { IsUnfinished framer.rest framer.most }
    ensures { EndGives framer.rest framer.most result }
{
    match framer.finish() {
        Ok(()) => Ok(None),
        Err(fault) => Err(ReadFault::Frame(fault)),
    }
}

/// Reads the next message of `reader` in pieces. Reads the bytes of that message and no others.
fn receive<R: Read, A: Allocator + Copy>(
    alloc: A,
    reader: &mut Watched<R>,
    max_words: u32,
) -> Result<Option<Stored<A>>, ReadFault>
    requires small { max_words ≤ most_message_words }
    requires fine { has_failed reader.old ≡ false }
    ensures gives { StopsInside (R.remaining (inner_of reader.old)) (R.remaining (inner_of reader.new))
        (has_failed reader.new)
        max_words result }
{
    let mut framer = Framer::new(alloc, max_words);
    let mut piece = [0; PIECE];
    'pieces: loop {
        let wanted = framer.wanted().min(PIECE);
        match reader.read(&mut piece[..wanted]) {
            Err(_) => return Err(ReadFault::Io),
            Ok(0) => return end_of(framer),
            Ok(count) => {
                if let Some(message) = take_in(&mut framer, &piece[..count])? {
                    return Ok(Some(message));
                }
            }
        }
    }
}

/// Reads the next message, of at most `max_words` words, from `reader`. Reads the bytes of that message and no others.
///
/// No single read requests more than 16,384 bytes, nor more than the current part of the message still needs. The
/// message grows on `alloc` with the bytes that were read, never by what its table announces.
///
/// Returns `None` only if the input ends between messages. Errors: `Memory` if an allocation was refused, which can
/// happen only if the input is not at its end. `Io` exactly if the reader fails. `Frame` with `TooManySegments`,
/// `TooManyWords` or `Cut`. After an error the reader is within the message, and never beyond it. For `TooManySegments`
/// the reader is after the 4 bytes of the count, for `TooManyWords` after the table and its padding, for `Cut` at the
/// end of the input.
pub fn read_message<R: Read, A: Allocator + Copy>(
    alloc: A,
    reader: &mut Watched<R>,
    max_words: u32,
) -> Result<Option<Stored<A>>, ReadFault>
    requires small { max_words ≤ most_message_words }
    requires fine { has_failed reader.old ≡ false }
    // `ReadsFirst` states the meaning of `result` for all input that `reader` had before the call. If that input begins
    // with a message, the message is returned, unless an allocation is refused or the reader fails.
    ensures exact { IfSome (R.remaining (inner_of reader.old)) (ReadsFirst max_words result) }
    ensures only { IfSome (R.remaining (inner_of reader.old)) (OnlyFirst max_words result) }
    // Only the bytes of that message are read. A reader that failed is reported.
    ensures gives { ReadGives (R.remaining (inner_of reader.old)) (R.remaining (inner_of reader.new))
        (has_failed reader.new)
        max_words result }
    // After an error, the bytes that were read do not go beyond the message. `StopsInside` says where they end.
    ensures inside { StopsInside (R.remaining (inner_of reader.old)) (R.remaining (inner_of reader.new))
        (has_failed reader.new)
        max_words result }
    // `Memory` is returned only if the input is not at its end.
    ensures memory { IfSome (R.remaining (inner_of reader.old))
        (λ input. IsErrOf result ReadFault.Memory → 0 < length input) }
{
    receive(alloc, reader, max_words)
}
