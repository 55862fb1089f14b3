//! The types `CountedScratch` and `CountedText`, words and bytes that the caller lends, which are written by calls that
//! count.

ghost use Rattle.std.specs.Prelude.{◌≡◌, ◌+◌, ◌*◌, ◌/◌, ◌^◌, ◌<◌, ◌≤◌, ◌++◌, length, take, replicate, set};
ghost use Rattle.std.specs.Int.{to_le_bytes, w64};
ghost use Rattle.capn_stream.specs.Cuts.{AreEnds, cut};
ghost use Rattle.capn_scratch.specs.inner.Ends.{numbers};

use crate::counted_bytes::{CountedBytes, CountedWords};
use crate::prepaid::Prepaid;
use crate::scratch_segments::ScratchSegments;
use crate::steps::Steps;
use std::marker::{Model, PhantomData};
use std::sync::ledger::Ledger;

/// Copies `bytes` to `out`, from offset `at` on.
#[inline(always)]
fn copy_at(out: &mut [u8], at: usize, bytes: &[u8])
    requires { at + length bytes.now ≤ length out.old }
    ensures text { take (at + length bytes.now) out.new ≡ take at out.old ++ bytes.now }
    ensures long { length out.new ≡ length out.old }
{
    let end = at + bytes.len();
    out[at..end].copy_from_slice(bytes);
}

/// Writes `count` zero bytes to `out`, from offset `at` on.
#[inline(always)]
fn zero_at(out: &mut [u8], at: usize, count: usize)
    requires { at + count ≤ length out.old }
    ensures text { take (at + count) out.new ≡ take at out.old ++ replicate count 0 }
    ensures long { length out.new ≡ length out.old }
{
    let end = at + count;
    out[at..end].fill(0);
}

/// Writes `number` to word `index` of `words`, the least significant byte first.
#[inline(always)]
fn set_word(words: &mut [[u8; 8]], index: usize, number: u64)
    requires { index < length words.old }
    ensures { words.new ≡ set words.old index (to_le_bytes w64 number) }
{
    words[index] = number.to_le_bytes();
}

/// Bytes of the scratch that can be written only by calls that count in a [`Steps`] of the same ledger. They are read
/// as [`CountedBytes`], once they are written.
#[derive(Drop)]
pub(crate) struct CountedText<'s, L: Ledger> {
    bytes: &'s mut [u8],
    ledger: PhantomData<L>,
}

impl<'s, L: Ledger> Model for CountedText<'s, L> {
    ghost use Rattle.std.specs.Prelude.{ℕ, List};

    ghost Value = { List ℕ };

    ghost view = { λ t. t.bytes.now };
}

impl<'s, L: Ledger> CountedText<'s, L> {
    /// Returns the number of bytes.
    #[inline(always)]
    pub(crate) fn len(&self) -> usize
        ensures { result ≡ length self.now }
    {
        self.bytes.len()
    }

    /// Copies `bytes` to the text, from byte `at` on. Counts in `steps` as one step for each 8 bytes, and as one step
    /// for a rest of 1 to 7 bytes.
    #[inline(always)]
    pub(crate) fn store(&mut self, at: usize, bytes: &[u8], steps: &mut Steps<L>)
        requires { at + length bytes.now ≤ length self.old }
        ensures text { take (at + length bytes.now) self.new ≡ take at self.old ++ bytes.now }
        ensures long { length self.new ≡ length self.old }
        ensures steps { steps.new ≡ steps.old + (length bytes.now + 7) / 8 }
    {
        steps.add(bytes.len().div_ceil(8) as u64);
        copy_at(self.bytes, at, bytes);
    }

    /// Writes `count` words of zero to the text, from byte `at` on. Counts in `steps` as `count` steps.
    #[inline(always)]
    pub(crate) fn store_zeros(&mut self, at: usize, count: usize, steps: &mut Steps<L>)
        requires { at + 8 * count ≤ length self.old }
        ensures text { take (at + 8 * count) self.new ≡ take at self.old ++ replicate (8 * count) 0 }
        ensures long { length self.new ≡ length self.old }
        ensures steps { steps.new ≡ steps.old + count }
    {
        steps.add(count as u64);
        zero_at(self.bytes, at, 8 * count);
    }

    /// Ends the writing. The bytes are then read by counted calls only.
    #[inline(always)]
    pub(crate) fn into_bytes(self) -> CountedBytes<'s, L>
        ensures { result ≡ self.entry }
    {
        let bytes = self.bytes;
        CountedBytes::of(bytes)
    }
}

/// Words of the scratch that can be written only by calls that count in a [`Steps`] of the same ledger.
#[derive(Drop)]
pub struct CountedScratch<'s, L: Ledger> {
    words: &'s mut [[u8; 8]],
    ledger: PhantomData<L>,
}

impl<'s, L: Ledger> Model for CountedScratch<'s, L> {
    ghost use Rattle.std.specs.Prelude.{ℕ, List};

    ghost Value = { List (List ℕ) };

    ghost view = { λ s. s.words.now };
}

impl<'s, L: Ledger> CountedScratch<'s, L> {
    /// Wraps `words`.
    #[inline(always)]
    pub(crate) fn of(words: &'s mut [[u8; 8]]) -> CountedScratch<'s, L>
        ensures { result ≡ words.old }
    {
        CountedScratch {
            words,
            ledger: PhantomData,
        }
    }

    /// Returns the number of words.
    #[inline(always)]
    pub fn len(&self) -> usize
        ensures { result ≡ length self.now }
    {
        self.words.len()
    }

    /// Returns the first `count` words as the bytes of a text, and the other words.
    #[inline(always)]
    pub(crate) fn split(self, count: usize) -> (CountedText<'s, L>, CountedScratch<'s, L>)
        requires { count ≤ length self }
        ensures text { length result.0 ≡ 8 * count }
        ensures rest { count + length result.1 ≡ length self.entry }
    {
        let (front, back) = self.words.split_at_mut(count);
        (
            CountedText {
                bytes: front.as_flattened_mut(),
                ledger: PhantomData,
            },
            CountedScratch {
                words: back,
                ledger: PhantomData,
            },
        )
    }

    /// Writes `number` to word `index`. Counts in `steps` as one step.
    #[inline(always)]
    pub fn put(&mut self, index: usize, number: u64, steps: &mut Steps<L>)
        requires { index < length self.old }
        ensures word { self.new ≡ set self.old index (to_le_bytes w64 number) }
        ensures steps { steps.new ≡ steps.old + 1 }
    {
        steps.tick();
        set_word(self.words, index, number);
    }

    /// Returns the message of `words`, cut into segments at the ends in the first `count` words of the scratch, for a
    /// task of at most `reads` reads. Counts in `steps` as `reads` steps.
    #[inline(always)]
    pub(crate) fn lend(
        self,
        words: CountedWords<'s, L>,
        count: usize,
        reads: u64,
        steps: &mut Steps<L>,
    ) -> Prepaid<ScratchSegments<'s>>
        requires room { count ≤ length self }
        requires ends { AreEnds (numbers (take count self)) words }
        ensures lent { result ≡ (cut 0 (numbers (take count self.entry)) words.entry, reads) }
        ensures steps { steps.new ≡ steps.old + reads }
    {
        let ends = self.words;
        words.lend_cut(&ends[..count], reads, steps)
    }
}
