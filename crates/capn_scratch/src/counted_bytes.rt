//! The types `CountedBytes` and `CountedWords`, bytes and words that can be read only by calls that count.
//!
//! The fields are private to this file, no other ledger fits the types, and no call returns a slice or a `Space`. The
//! turns of a loop are counted only if the author of the loop calls [`Steps::tick`]. The words are lent to a task on a
//! message as [`Prepaid`], after the greatest number of reads of the task was counted.

ghost use Rattle.std.specs.Prelude.{◌≡◌, ◌+◌, ◌*◌, ◌/◌, ◌<◌, ◌≤◌, ◌∷◌, [], length, drop, take, slice_index};
ghost use Rattle.std.specs.Prelude.{slice_range, ◌++◌};
ghost use Rattle.capn_words.specs.Message.{AreBytes, ReadsBare};
ghost use Rattle.capn_stream.specs.Cuts.{AreEnds, cut};
ghost use Rattle.capn_stream.specs.FrameRefusal.{entry_number};
ghost use Rattle.capn_scratch.specs.inner.Ends.{numbers};

use crate::counted_scratch::CountedText;
use crate::prepaid::Prepaid;
use crate::scratch_segments::ScratchSegments;
use crate::steps::Steps;
use capn_stream::table::entry_at;
use capn_words::{Bare, BareFault};
use std::marker::{Model, PhantomData};
use std::sync::ledger::Ledger;

/// Bytes that can be read only by calls that count in a [`Steps`] of the same ledger.
#[derive(Drop)]
pub struct CountedBytes<'s, L: Ledger> {
    bytes: &'s [u8],
    ledger: PhantomData<L>,
}

impl<'s, L: Ledger> Model for CountedBytes<'s, L> {
    ghost use Rattle.std.specs.Prelude.{ℕ, List};
    ghost use Rattle.capn_words.specs.Message.{AreBytes};

    ghost Value = { List ℕ };

    ghost view = { λ c. c.bytes.now };

    ghost invariant = { λ c. AreBytes c.bytes.now };
}

impl<'s, L: Ledger> CountedBytes<'s, L> {
    /// Wraps `bytes`. The bytes are then read by counted calls only.
    #[inline(always)]
    pub(crate) fn of(bytes: &'s [u8]) -> CountedBytes<'s, L>
        ensures { result ≡ bytes.now }
    {
        CountedBytes {
            bytes,
            ledger: PhantomData,
        }
    }

    /// Returns the number of bytes. Reads nothing.
    #[inline(always)]
    pub fn len(&self) -> usize
        ensures { result ≡ length self.now }
    {
        self.bytes.len()
    }

    /// States for the prover that the numbers are bytes. Reads nothing.
    #[inline(always)]
    pub fn bounds(&self)
        ensures { AreBytes self.now }
    {
        let _bytes = self.bytes;
    }

    /// Returns the bytes from byte `at` on. Reads nothing.
    #[inline(always)]
    pub fn rest(&self, at: usize) -> CountedBytes<'s, L>
        requires { at ≤ length self.now }
        ensures { result ≡ slice_range self.now at (length self.now) }
    {
        CountedBytes {
            bytes: &self.bytes[at..],
            ledger: PhantomData,
        }
    }

    /// Returns the bytes from byte `start` to byte `end`. Reads nothing.
    #[inline(always)]
    pub fn part(&self, start: usize, end: usize) -> CountedBytes<'s, L>
        requires order { start ≤ end }
        requires inside { end ≤ length self.now }
        ensures { result ≡ slice_range self.now start end }
    {
        CountedBytes {
            bytes: &self.bytes[start..end],
            ledger: PhantomData,
        }
    }

    /// Returns byte `at`. Counts in `steps` as one step.
    #[inline(always)]
    pub fn byte(&self, at: usize, steps: &mut Steps<L>) -> u8
        requires { at < length self.now }
        ensures byte { result ≡ slice_index self.now at }
        ensures steps { steps.new ≡ steps.old + 1 }
    {
        steps.tick();
        self.bytes[at]
    }

    /// Returns number `index` of the bytes, which have 4 bytes for each number. Counts in `steps` as one step.
    #[inline(always)]
    pub fn entry(&self, index: usize, steps: &mut Steps<L>) -> u32
        requires { 4 * index + 4 ≤ length self.now }
        ensures entry { result ≡ entry_number (drop (4 * index) self.now) }
        ensures steps { steps.new ≡ steps.old + 1 }
    {
        steps.tick();
        entry_at(self.bytes, index)
    }

    /// Copies the bytes to `text`, from byte `at` of `text` on. Counts in `steps` as one step for each 8 bytes, and as
    /// one step for a rest of 1 to 7 bytes.
    #[inline(always)]
    pub(crate) fn copy_to(&self, text: &mut CountedText<'_, L>, at: usize, steps: &mut Steps<L>)
        requires { at + length self.now ≤ length text.old }
        ensures text { take (at + length self.now) text.new ≡ take at text.old ++ self.now }
        ensures long { length text.new ≡ length text.old }
        ensures steps { steps.new ≡ steps.old + (length self.now + 7) / 8 }
    {
        text.store(at, self.bytes, steps);
    }

    /// Reads the bytes as the words of one segment. Only the number of bytes is read.
    #[inline(always)]
    pub(crate) fn words(&self) -> Result<CountedWords<'s, L>, BareFault>
        ensures { ReadsBare self.now result }
    {
        match Bare::new(self.bytes) {
            Ok(words) => Ok(CountedWords {
                words,
                ledger: PhantomData,
            }),
            Err(fault) => Err(fault),
        }
    }
}

/// Words that can be lent only to a task whose reads were counted before, in a [`Steps`] of the same ledger.
#[derive(Drop)]
pub(crate) struct CountedWords<'s, L: Ledger> {
    words: Bare<'s>,
    ledger: PhantomData<L>,
}

impl<'s, L: Ledger> Model for CountedWords<'s, L> {
    ghost use Rattle.std.specs.Prelude.{ℕ, List};

    ghost Value = { List ℕ };

    ghost view = { λ c. c.words };
}

impl<'s, L: Ledger> CountedWords<'s, L> {
    /// Returns the message of one segment with these words, for a task of at most `reads` reads. Counts in `steps` as
    /// `reads` steps.
    #[inline(always)]
    pub(crate) fn lend(self, reads: u64, steps: &mut Steps<L>) -> Prepaid<Bare<'s>>
        ensures lent { result ≡ (self.entry ∷ [], reads) }
        ensures steps { steps.new ≡ steps.old + reads }
    {
        steps.add(reads);
        Prepaid::of(self.words, reads)
    }

    /// Returns the message of these words, cut into segments at `ends`, for a task of at most `reads` reads. Counts in
    /// `steps` as `reads` steps.
    #[inline(always)]
    pub(crate) fn lend_cut(
        self,
        ends: &'s [[u8; 8]],
        reads: u64,
        steps: &mut Steps<L>,
    ) -> Prepaid<ScratchSegments<'s>>
        requires { AreEnds (numbers ends.now) self }
        ensures lent { result ≡ (cut 0 (numbers ends.now) self.entry, reads) }
        ensures steps { steps.new ≡ steps.old + reads }
    {
        steps.add(reads);
        Prepaid::of(ScratchSegments::new(self.words, ends), reads)
    }
}
