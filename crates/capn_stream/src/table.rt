//! The segment table of a frame: its numbers and length, and the faults of a frame that is given in one piece. The
//! faults of frames that are received in pieces are found in `stage.rt` and `framer.rt`.

ghost use Rattle.std.specs.Prelude.{◌≡◌, ℕ, ◌+◌, ◌*◌, ◌^◌, ◌<◌, ◌≤◌, length, drop, sum, IfOk, IfErr, IsErrOf, OnErr};
ghost use Rattle.std.specs.Prelude.{vec_capacity};
ghost use Rattle.capn_stream.specs.Cuts.{ends_from};
ghost use Rattle.capn_words.specs.Message.{most_segments, most_message_words};
ghost use Rattle.capn_stream.specs.FrameRefusal.{IsFrameRefused, IsWhole, announced_segments, entries, entry_number};
ghost use Rattle.capn_stream.specs.FrameRefusal.{head_length};
ghost use Rattle.capn_stream.specs.FrameRefusal.{announced_words};

use crate::fault::FrameFault;
use byteorder::{ByteOrder, LittleEndian};
use capn_words::MOST_SEGMENTS;
use std::alloc::{AllocError, Allocator};

/// The number of words of the longest segment table, including its padding.
pub const MOST_TABLE_WORDS: u32 = MOST_SEGMENTS / 2 + 1;

/// Returns number `index` of `bytes`, which has 4 bytes for each number. (Page: serialization over a stream.)
#[tactic(auto, unfolding(crate::specs::FrameRefusal::entry_number))]
#[inline(always)]
pub fn entry_at(bytes: &[u8], index: usize) -> u32
    requires { 4 * index + 4 ≤ length bytes.now }
    ensures { result ≡ entry_number (drop (4 * index) bytes.now) }
{
    LittleEndian::read_u32(&bytes[4 * index..])
}

/// Returns the sum of the first `count` entries of `sizes`, in words.
pub fn total_of(sizes: &[u8], count: usize) -> u64
    requires few { count ≤ most_segments }
    requires inside { 4 * count ≤ length sizes.now }
    ensures { result ≡ sum (entries count sizes.now) }
{
    let mut total: u64 = 0;
    for index in 0..count {
        total += entry_at(sizes, index) as u64;
    }
    total
}

/// Returns the ends, in words, of the first `count` segments with the sizes `sizes`. The first segment begins at word
/// `from`. Allocates once, for exactly `count` ends.
pub(crate) fn ends_of<A: Allocator>(
    alloc: A,
    sizes: &[u8],
    count: usize,
    from: u32,
) -> Result<Vec<u32, A>, AllocError>
    requires few { count ≤ most_segments }
    requires inside { 4 * count ≤ length sizes.now }
    requires room { from + sum (entries count sizes.now) < 2 ^ 32 }
    ensures ends { IfOk result (λ v. v.items ≡ ends_from from (entries count sizes.now)) }
    ensures room { IfOk result (λ v. vec_capacity v ≡ count) }
    ensures memory { OnErr result (0 < count) }
{
    let mut ends = Vec::with_capacity(alloc, count)?;
    let mut end = from;
    for index in 0..count {
        end += entry_at(sizes, index);
        ends.push_reserved(end);
    }
    Ok(ends)
}

/// Returns the length in bytes of the table of `count` segments, including its padding.
#[inline(always)]
pub fn head_of(count: usize) -> usize
    requires { count ≤ most_segments }
    ensures { result ≡ head_length count }
{
    8 * (count / 2 + 1)
}

/// The numbers of segments and of words that a table announces.
#[derive(Clone, Copy)]
pub struct Head {
    /// The number of segments.
    pub segments: usize,
    /// The number of words of all segments together.
    pub words: usize,
}

/// Reads the table at the front of `bytes`, and returns its numbers if the frame is complete and has at most
/// `max_words` words.
///
/// [`first`](crate::first) makes the same tests in the same order. The call takes no memory, and never returns
/// `Memory`. (Page: serialization over a stream. The order of the tests is our own.)
pub fn read_head(bytes: &[u8], max_words: u32) -> Result<Head, FrameFault>
    requires { max_words ≤ most_message_words }
    ensures whole { IfOk result (λ head. IsWhole bytes.now max_words) }
    ensures segments { IfOk result (λ head. head.segments ≡ announced_segments bytes.now) }
    ensures words { IfOk result (λ head. head.words ≡ announced_words bytes.now) }
    ensures refused { IfErr result (λ e. IsFrameRefused bytes.now max_words e) }
    ensures no_memory { IsErrOf result FrameFault.Memory → ⊥ }
{
    if bytes.is_empty() {
        return Err(FrameFault::Empty);
    }
    if bytes.len() < 4 {
        return Err(FrameFault::Cut);
    }
    let count = entry_at(bytes, 0) as u64 + 1;
    if count > MOST_SEGMENTS as u64 {
        return Err(FrameFault::TooManySegments(count));
    }
    let segments = count as usize;
    let head = head_of(segments);
    if bytes.len() < head {
        return Err(FrameFault::Cut);
    }
    let words = total_of(&bytes[4..], segments);
    if words > max_words as u64 {
        return Err(FrameFault::TooManyWords(words));
    }
    let words = words as usize;
    if bytes.len() - head < 8 * words {
        return Err(FrameFault::Cut);
    }
    Ok(Head { segments, words })
}
