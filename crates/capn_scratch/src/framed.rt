//! The canonical bytes of a frame, with the ends of its segments on the stack or in words that the caller lends.

ghost use Rattle.std.specs.Prelude.{◌≡◌, ◌+◌, ◌*◌, ◌^◌, ◌<◌, ◌≤◌, length, drop, sum};
ghost use Rattle.capn_stream.specs.Cuts.{AreEnds, cut};
ghost use Rattle.capn_stream.specs.Frames.{StandsFirst};
ghost use Rattle.capn_stream.specs.FrameRefusal.{HasHead, IsWhole, announced_segments, announced_words, entries};
ghost use Rattle.capn_stream.specs.FrameRefusal.{entry_number};
ghost use Rattle.capn_scratch.specs.inner.WalkWork.{walk_work};
ghost use Rattle.capn_scratch.specs.inner.Ends.{announced_ends};
ghost use Rattle.capn_scratch.specs.inner.Outcomes.{IsFrameTold, IsTold};

use crate::counted_bytes::{CountedBytes, CountedWords};
use crate::counted_scratch::CountedScratch;
use crate::ends::put_ends;
use crate::prepaid::Prepaid;
use crate::refusal::FormRefusal;
use crate::steps::Steps;
use crate::table::read_head;
use capn_canon::{CanonicalLength, Limits, canonical_into};
use capn_stream::table::{Head, head_of};
use capn_words::Space;
use std::sync::ledger::Ledger;

/// The greatest number of segments whose ends are kept on the stack.
const MOST_KEPT: usize = 64;

/// Returns the number of reads that `canonical_into` does at most within `limits`.
#[inline(always)]
pub(crate) fn walk_reads(limits: Limits) -> u64
    ensures { result ≡ walk_work limits.budget }
{
    54 * (limits.budget() as u64 + 1) + 1
}

/// Writes the canonical bytes of the message `space` to `out`. An error of `canonical_into` becomes a `FormRefusal`.
#[inline(always)]
pub(crate) fn write<S: Space + Drop>(
    space: Prepaid<S>,
    limits: Limits,
    out: &mut [u8],
) -> Result<CanonicalLength, FormRefusal>
    requires { walk_work limits.budget ≤ space.1 }
    ensures { IsTold space.0 limits out.old out.new result }
{
    let written = canonical_into(space, limits, out)?;
    Ok(written)
}

/// Writes the canonical bytes of the message in the frame `bytes` to `out`. `words` are the words after the segment
/// table. `count` is one less than the number of segments. The ends of all segments but the last are written to `ends`.
fn of_cut<'a, L: Ledger>(
    bytes: &CountedBytes<'_, L>,
    words: CountedWords<'a, L>,
    count: usize,
    mut ends: CountedScratch<'a, L>,
    limits: Limits,
    out: &mut [u8],
    steps: &mut Steps<L>,
) -> Result<CanonicalLength, FormRefusal>
    requires head { HasHead bytes.now }
    requires count { count ≡ entry_number bytes.now }
    requires small { sum (entries count (drop 4 bytes.now)) < 2 ^ 32 }
    requires ends { AreEnds (announced_ends bytes.now) words }
    requires room { count ≤ length ends }
    ensures told { IsTold (cut 0 (announced_ends bytes.now) words.entry) limits out.old out.new result }
    ensures steps { steps.new ≤ steps.old + 3 * count + walk_work limits.budget }
{
    put_ends(&bytes.rest(4), count, &mut ends, steps);
    let message = ends.lend(words, count, walk_reads(limits), steps);
    write(message, limits, out)
}

/// Writes the canonical bytes of the message in the frame `bytes` to `out`, for [`of_frame`]. `bytes` begin with a
/// complete frame, which has `end` bytes. `words` are the words of the frame after the segment table, and `count` is
/// one less than the number of segments.
fn of_words<L: Ledger>(
    bytes: &CountedBytes<'_, L>,
    words: CountedWords<'_, L>,
    end: usize,
    count: usize,
    scratch: CountedScratch<'_, L>,
    before: usize,
    limits: Limits,
    out: &mut [u8],
    steps: &mut Steps<L>,
) -> Result<CanonicalLength, FormRefusal>
    requires whole { IsWhole bytes.now limits.message_words }
    requires count { count ≡ entry_number bytes.now }
    requires small { sum (entries count (drop 4 bytes.now)) < 2 ^ 32 }
    requires ends { AreEnds (announced_ends bytes.now) words }
    requires first { StandsFirst bytes.now limits.message_words (cut 0 (announced_ends bytes.now) words) end }
    requires before { before < 2 ^ 32 }
    ensures told { IsFrameTold before bytes.now limits (length scratch.entry) out.old out.new result }
    ensures steps { steps.new ≤ steps.old + 3 * count + walk_work limits.budget }
{
    if end < bytes.len() {
        return Err(FormRefusal::Trailing(end as u64));
    }
    if count < MOST_KEPT {
        let mut ends = [[0; 8]; MOST_KEPT];
        return of_cut(
            bytes,
            words,
            count,
            CountedScratch::of(&mut ends),
            limits,
            out,
            steps,
        );
    }
    if scratch.len() < count {
        return Err(FormRefusal::NoScratch {
            needed: before + count,
        });
    }
    of_cut(bytes, words, count, scratch, limits, out, steps)
}

/// Writes the canonical bytes of the message in the frame `bytes` to `out`, for [`of_frame`]. `bytes` begin with a
/// complete frame, and `head` is what its segment table announces.
fn of_whole<L: Ledger>(
    bytes: &CountedBytes<'_, L>,
    head: Head,
    scratch: CountedScratch<'_, L>,
    before: usize,
    limits: Limits,
    out: &mut [u8],
    steps: &mut Steps<L>,
) -> Result<CanonicalLength, FormRefusal>
    requires whole { IsWhole bytes.now limits.message_words }
    requires segments { head.segments ≡ announced_segments bytes.now }
    requires words { head.words ≡ announced_words bytes.now }
    requires before { before < 2 ^ 32 }
    ensures told { IsFrameTold before bytes.now limits (length scratch.entry) out.old out.new result }
    ensures steps { 4 * steps.new ≤ 4 * steps.old + 3 * length bytes.now + 4 * walk_work limits.budget }
{
    bytes.bounds();
    let _words = limits.message_words();
    let start = head_of(head.segments);
    let end = start + 8 * head.words;
    match bytes.part(start, end).words() {
        Ok(words) => of_words(
            bytes,
            words,
            end,
            head.segments - 1,
            scratch,
            before,
            limits,
            out,
            steps,
        ),
        Err(_) => unreachable!(),
    }
}

/// Writes the canonical bytes of the message in the frame `bytes` to `out`. If there are more than 64 segments, the
/// ends of all but the last are kept in `scratch`. `NoScratch` reports `before` words more than the frame needs.
/// `before` is the number of words in `bytes` if a packed text was unpacked to `bytes`, else 0.
pub(crate) fn of_frame<L: Ledger>(
    bytes: &CountedBytes<'_, L>,
    scratch: CountedScratch<'_, L>,
    before: usize,
    limits: Limits,
    out: &mut [u8],
    steps: &mut Steps<L>,
) -> Result<CanonicalLength, FormRefusal>
    requires { before < 2 ^ 32 }
    ensures told { IsFrameTold before bytes.now limits (length scratch.entry) out.old out.new result }
    ensures steps { 4 * steps.new ≤ 4 * steps.old + 5 * length bytes.now + 4 * walk_work limits.budget }
{
    match read_head(bytes, limits.message_words(), steps) {
        Ok(head) => of_whole(bytes, head, scratch, before, limits, out, steps),
        Err(fault) => Err(FormRefusal::Frame(fault)),
    }
}
