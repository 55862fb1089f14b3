//! The segment table of a frame, read by calls that count.

ghost use Rattle.std.specs.Prelude.{◌≡◌, ℕ, ◌+◌, ◌*◌, ◌≤◌, length, drop, sum, IfOk, IfErr, IsErrOf};
ghost use Rattle.capn_words.specs.Message.{most_segments, most_message_words};
ghost use Rattle.capn_stream.specs.FrameRefusal.{IsFrameRefused, IsWhole, announced_segments, announced_words, entries};

use crate::counted_bytes::CountedBytes;
use crate::steps::Steps;
use capn_stream::FrameFault;
use capn_stream::table::{Head, head_of};
use capn_words::MOST_SEGMENTS;
use std::sync::ledger::Ledger;

/// Returns the sum of the first `count` entries of `sizes`, in words. Counts in `steps` as two steps for each entry.
#[inline(always)]
pub(crate) fn total_of<L: Ledger>(
    sizes: &CountedBytes<'_, L>,
    count: usize,
    steps: &mut Steps<L>,
) -> u64
    requires few { count ≤ most_segments }
    requires inside { 4 * count ≤ length sizes.now }
    ensures total { result ≡ sum (entries count sizes.now) }
    ensures steps { steps.new ≡ steps.old + 2 * count }
{
    let mut total: u64 = 0;
    for index in 0..count {
        steps.tick();
        total += sizes.entry(index, steps) as u64;
    }
    total
}

/// Reads the table at the front of `bytes`, and returns its numbers if the frame is complete and has at most
/// `max_words` words. Counts in `steps` at most one step for each 2 bytes.
///
/// The results are those of [`read_head`](capn_stream::table::read_head). (Page: serialization over a stream. The order
/// of the tests is our own.)
#[inline(always)]
pub(crate) fn read_head<L: Ledger>(
    bytes: &CountedBytes<'_, L>,
    max_words: u32,
    steps: &mut Steps<L>,
) -> Result<Head, FrameFault>
    requires { max_words ≤ most_message_words }
    ensures whole { IfOk result (λ head. IsWhole bytes.now max_words) }
    ensures segments { IfOk result (λ head. head.segments ≡ announced_segments bytes.now) }
    ensures words { IfOk result (λ head. head.words ≡ announced_words bytes.now) }
    ensures refused { IfErr result (λ e. IsFrameRefused bytes.now max_words e) }
    ensures no_memory { IsErrOf result FrameFault.Memory → ⊥ }
    ensures steps { 2 * steps.new ≤ 2 * steps.old + length bytes.now }
{
    let length = bytes.len();
    if length == 0 {
        return Err(FrameFault::Empty);
    }
    if length < 4 {
        return Err(FrameFault::Cut);
    }
    let count = bytes.entry(0, steps) as u64 + 1;
    if count > MOST_SEGMENTS as u64 {
        return Err(FrameFault::TooManySegments(count));
    }
    let segments = count as usize;
    let head = head_of(segments);
    if length < head {
        return Err(FrameFault::Cut);
    }
    let words = total_of(&bytes.rest(4), segments, steps);
    if words > max_words as u64 {
        return Err(FrameFault::TooManyWords(words));
    }
    let words = words as usize;
    if length - head < 8 * words {
        return Err(FrameFault::Cut);
    }
    Ok(Head { segments, words })
}
