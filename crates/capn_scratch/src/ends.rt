//! The ends of the segments of a frame, as words of 8 bytes.

ghost use Rattle.std.specs.Prelude.{◌≡◌, ◌+◌, ◌*◌, ◌^◌, ◌<◌, ◌≤◌, ◌∷◌, ◌++◌, [], length, take, sum, slice_index};
ghost use Rattle.capn_words.specs.Message.{most_segments};
ghost use Rattle.capn_stream.specs.Cuts.{ends_from};
ghost use Rattle.capn_stream.specs.FrameRefusal.{entries};
ghost use Rattle.capn_scratch.specs.inner.Ends.{numbers};

use crate::counted_bytes::CountedBytes;
use crate::counted_scratch::CountedScratch;
use crate::steps::Steps;
use std::sync::ledger::Ledger;

/// Writes the ends of the first `count` segments to the beginning of `ends`, one in each word. `sizes` are the entries
/// of the segment table. An end is a number of words from the start of the message. Counts in `steps` as three steps
/// for each end.
#[inline(always)]
pub(crate) fn put_ends<L: Ledger>(
    sizes: &CountedBytes<'_, L>,
    count: usize,
    ends: &mut CountedScratch<'_, L>,
    steps: &mut Steps<L>,
)
    requires few { count ≤ most_segments }
    requires inside { 4 * count ≤ length sizes.now }
    requires small { sum (entries count sizes.now) < 2 ^ 32 }
    requires room { count ≤ length ends.old }
    ensures ends { numbers (take count ends.new) ≡ ends_from 0 (entries count sizes.now) }
    ensures long { length ends.new ≡ length ends.old }
    ensures steps { steps.new ≡ steps.old + 3 * count }
{
    let mut end: u64 = 0;
    for index in 0..count {
        steps.tick();
        end += sizes.entry(index, steps) as u64;
        ends.put(index, end, steps);
    }
}

/// Returns the number in word `index` of `ends`.
fn end_at(ends: &[[u8; 8]], index: usize) -> u32
    requires inside { index < length ends.now }
    requires small { slice_index (numbers ends.now) index < 2 ^ 32 }
    ensures { result ≡ slice_index (numbers ends.now) index }
{
    u64::from_le_bytes(ends[index]) as u32
}

/// Returns the word of the message at which `segment` begins. `ends` are the ends of all segments but the last.
pub(crate) fn start_of(ends: &[[u8; 8]], segment: usize) -> u32
    requires inside { segment ≤ length ends.now }
    requires small { slice_index (0 ∷ numbers ends.now) segment < 2 ^ 32 }
    ensures { result ≡ slice_index (0 ∷ numbers ends.now) segment }
{
    if segment == 0 {
        0
    } else {
        end_at(ends, segment - 1)
    }
}

/// Returns the number of words of the message up to the end of `segment`. `ends` are the ends of all segments but the
/// last. The last segment ends with the message, which has `words` words.
pub(crate) fn end_of(ends: &[[u8; 8]], words: u32, segment: usize) -> u32
    requires inside { segment ≤ length ends.now }
    requires small { slice_index (numbers ends.now ++ words ∷ []) segment < 2 ^ 32 }
    ensures { result ≡ slice_index (numbers ends.now ++ words ∷ []) segment }
{
    if segment == ends.len() {
        words
    } else {
        end_at(ends, segment)
    }
}
