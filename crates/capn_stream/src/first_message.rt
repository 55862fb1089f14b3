//! The calls `first` and `first_bare`, which read the first message of some bytes in place.

ghost use Rattle.std.specs.Prelude.{◌≡◌, ℕ, ◌≤◌, List, [], ◌∷◌, Some, IfSome, IfOk, IfErr, IsErrOf, MatchResult};
ghost use Rattle.capn_words.specs.Message.{most_message_words};
ghost use Rattle.capn_stream.specs.Frames.{StandsFirst};
ghost use Rattle.capn_stream.specs.FrameRefusal.{HasTable, IsFrameRefused};

use crate::ends::read_ends;
use crate::fault::FrameFault;
use crate::framed::Framed;
use crate::table::{entry_at, head_of, read_head};
use capn_words::Bare;
use std::alloc::Allocator;

/// Reads the message whose frame is first in `bytes`. Returns the message and the number of bytes of the frame.
///
/// The message borrows `bytes`. Memory is taken from `alloc` only for the ends of more than 64 segments. The errors are
/// tested in this order: `Empty`; `Cut` within the count; `TooManySegments`; `Cut` within the table or its padding;
/// `TooManyWords` with the sum of the sizes, if the sum is above `max_words`; `Cut` within the contents. `Memory` is
/// tested last, and is returned only if an allocation was refused. `Failed` is never returned. Padding is ignored.
/// (Page: serialization over a stream. The order of the tests is our own.)
pub fn first<'a, A: Allocator + Copy>(
    alloc: A,
    bytes: &'a [u8],
    max_words: u32,
) -> Result<(Framed<'a, A>, usize), FrameFault>
    requires { max_words ≤ most_message_words }
    ensures found { IfOk result (λ answer. StandsFirst bytes.now max_words answer.0 answer.1) }
    ensures only { (message : List (List ℕ)) (taken : ℕ)
        → StandsFirst bytes.now max_words message taken
        → MatchResult result (λ answer. (answer.0 ≡ message) × (answer.1 ≡ taken)) (λ e. e ≡ FrameFault.Memory) }
    ensures refused { IfErr result (λ e. IsFrameRefused bytes.now max_words e) }
    // `Memory` is returned only if a complete frame of more than 64 segments is first in `bytes`.
    ensures memory { IsErrOf result FrameFault.Memory → HasTable bytes.now max_words }
{
    let head = read_head(bytes, max_words)?;
    let start = head_of(head.segments);
    let end = start + 8 * head.words;
    let ends = read_ends(alloc, &bytes[4..], head.segments - 1)?;
    match Bare::new(&bytes[start..end]) {
        Ok(words) => Ok((Framed::new(words, ends), end)),
        Err(_) => unreachable!(),
    }
}

/// Reads the message of one segment whose frame is first in `bytes`. Returns the message and the number of bytes of the
/// frame.
///
/// If [`first`] returns a message of one segment, `first_bare` returns the same message and the same number. If
/// [`first`] returns a message of more segments or an error, the result is `None`. Takes no memory. (Page:
/// serialization over a stream.)
#[inline(always)]
pub fn first_bare<'a>(bytes: &'a [u8], max_words: u32) -> Option<(Bare<'a>, usize)>
    requires { max_words ≤ most_message_words }
    ensures found { IfSome result (λ answer. StandsFirst bytes.now max_words (answer.0 ∷ []) answer.1) }
    ensures only { (words : List ℕ) (taken : ℕ)
        → StandsFirst bytes.now max_words (words ∷ []) taken
        → result ≡ Some (words, taken) }
{
    if bytes.len() < 8 || entry_at(bytes, 0) != 0 {
        return None;
    }
    let words = entry_at(bytes, 1);
    let end = 8 + 8 * words as usize;
    if words > max_words || end > bytes.len() {
        return None;
    }
    match Bare::new(&bytes[8..end]) {
        Ok(message) => Some((message, end)),
        Err(_) => unreachable!(),
    }
}
