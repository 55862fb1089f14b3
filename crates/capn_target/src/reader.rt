//! The type `CountedSpace`, a message that can be read only by calls that count their reads.
//!
//! A function that gets a [`CountedSpace`] in place of a `Space` can read the message only by the calls of
//! `CountedSpace`, each of which counts. A condition on [`Reads`] therefore bounds the reads of the function, whatever
//! the function returns. The fields are private to this file, no other ledger fits the type, and no call returns a
//! slice or a `Space`. That a call of this file reads no more than it counts is not proved: the code of this file shows
//! it. [`PaidBytes`] are read once, and an [`OnlySegment`] is read by calls that count in the ledger of the message.
//! Work on a copy of what was read is not counted. The turns of a loop are counted only if the author of the loop calls
//! [`Reads::tick`]. A loop that omits the call is accepted, and its turns are then unbounded.

ghost use Rattle.std.specs.Prelude.{◌≡◌, ◌≢◌, ◌+◌, ◌/◌, ◌<◌, ◌≤◌, [], ◌∷◌, length, IfSome, IfNone};
ghost use Rattle.capn_words.specs.Message.{IsMessage, IsPlace, IsRange, word_at, words_of, bytes_at};

use crate::paid_bytes::PaidBytes;
use capn_words::{Bare, Place, Space};
use std::marker::{Model, PhantomData};
use std::sync::ledger::{Blank, Book, Ledger, Share};

/// The number of counted reads of one message and of counted turns of loops. The value has size 0 at run time, and no
/// call lowers the number.
#[derive(Drop)]
pub struct Reads<L: Ledger> {
    book: Book<L>,
    share: Share<L>,
}

impl<L: Ledger> Model for Reads<L> {
    ghost use Rattle.std.specs.Prelude.{ℕ, ◌<◌};

    ghost Value = { ℕ };

    ghost view = { λ r. r.book.total };

    ghost invariant = { λ r. 0 < r.share.parts };
}

impl<L: Ledger> Reads<L> {
    /// Counts one read, or one turn of a loop. The author of a loop has to call `tick` in each turn, but nothing
    /// enforces that.
    #[inline(always)]
    pub fn tick(&mut self)
        ensures { self.new ≡ self.old + 1 }
    {
        self.book.add(&mut self.share, 1);
    }
}

/// A message that can be read only by calls that count their reads. The value has the size of a reference.
#[derive(Drop)]
pub struct CountedSpace<'s, S: Space, L: Ledger> {
    space: &'s S,
    ledger: PhantomData<L>,
}

impl<'s, S: Space, L: Ledger> Model for CountedSpace<'s, S, L> {
    ghost use Rattle.std.specs.Prelude.{ℕ, List};
    ghost use Rattle.capn_words.specs.Message.{IsMessage};

    ghost Value = { List (List ℕ) };

    ghost view = { λ c. S.message c.space.now };

    ghost invariant = { λ c. IsMessage (S.message c.space.now) };
}

/// Begins the count of a message's reads. Returns the message of `space` as a `CountedSpace`, and a count of 1, since
/// this call reads the number of segments once. The ledger `blank` is new.
#[inline(always)]
pub fn count_reads<'s, S: Space, L: Ledger>(
    space: &'s S,
    blank: Blank,
) -> (CountedSpace<'s, S, L>, Reads<L>)
    requires name { blank.name ≡ L.name }
    requires parts { blank.parts ≡ L.parts }
    requires some { 0 < blank.parts }
    ensures message { result.0 ≡ S.message space.now }
    ensures look { result.1 ≡ 1 }
{
    let _bounds = space.segments();
    let (book, share) = blank.open::<L>();
    let mut reads = Reads { book, share };
    reads.tick();
    let message = CountedSpace {
        space,
        ledger: PhantomData,
    };
    (message, reads)
}

impl<'s, S: Space, L: Ledger> CountedSpace<'s, S, L> {
    /// Returns the message again, for a function that takes a `CountedSpace` by value. A reference to a `CountedSpace`
    /// would be a reference to a reference.
    #[inline(always)]
    pub fn again(&self) -> CountedSpace<'s, S, L>
        ensures { result ≡ self.now }
    {
        CountedSpace {
            space: self.space,
            ledger: PhantomData,
        }
    }

    /// States the bounds of the message for the prover. Reads nothing.
    #[inline(always)]
    pub fn bounds(&self)
        ensures { IsMessage self.now }
    {
        let _space = self.space;
    }

    /// Returns the number of segments. Counts in `reads` as one read.
    #[inline(always)]
    pub fn segments(&self, reads: &mut Reads<L>) -> u32
        ensures count { result ≡ length self.now }
        ensures reads { reads.new ≡ reads.old + 1 }
    {
        reads.tick();
        self.space.segments()
    }

    /// Returns the number of words of `segment`, or `None` exactly if there is no such segment. Counts in `reads` as
    /// one read.
    #[inline(always)]
    pub fn words(&self, segment: u32, reads: &mut Reads<L>) -> Option<u32>
        ensures words { result ≡ words_of self.now segment }
        ensures reads { reads.new ≡ reads.old + 1 }
    {
        reads.tick();
        self.space.words(segment)
    }

    /// Returns the word at `at`, which has to be in range. Counts in `reads` as one read.
    #[inline(always)]
    pub fn word(&self, at: Place, reads: &mut Reads<L>) -> u64
        requires { IsPlace self.now at }
        ensures word { result ≡ word_at self.now at }
        ensures reads { reads.new ≡ reads.old + 1 }
    {
        reads.tick();
        self.space.word(at)
    }

    /// Returns the `len` bytes from the start of the word at `at` on. Unlike with [`Space::bytes`], each byte can be
    /// read only once. Counts in `reads` as one read for each 8 bytes, and as one read for a rest of 1 to 7 bytes.
    #[inline(always)]
    pub fn bytes(&self, at: Place, len: usize, reads: &mut Reads<L>) -> PaidBytes<'s>
        requires { IsRange self.now at len }
        ensures bytes { result ≡ bytes_at self.now at len }
        ensures reads { reads.new ≡ reads.old + (len + 7) / 8 }
    {
        reads.book.add(&mut reads.share, len.div_ceil(8) as u64);
        PaidBytes::of(self.space.bytes(at, len))
    }

    /// Returns the words of the only segment of the message, or `None` if there are more segments. Reads of those words
    /// are faster than reads of the message, and are counted in the ledger of the message. This call counts at most
    /// three reads in `reads`.
    #[inline(always)]
    pub fn only_segment(&self, reads: &mut Reads<L>) -> Option<OnlySegment<'s, L>>
        ensures one { IfSome result (λ words. self.now ≡ words ∷ []) }
        ensures other { IfNone result (length self.now ≢ 1) }
        ensures reads { reads.new ≤ reads.old + 3 }
    {
        if self.segments(reads) != 1 {
            return None;
        }
        let words = self.words(0, reads).unwrap_or(0);
        reads.tick();
        match Bare::new(self.space.bytes(Place::ROOT, 8 * words as usize)) {
            Ok(words) => Some(OnlySegment {
                words,
                ledger: PhantomData,
            }),
            Err(_) => unreachable!(),
        }
    }
}

/// The words of the only segment of a message, which can be read only by calls that count their reads. Contracts see
/// the value as the list of the words.
#[derive(Drop)]
pub struct OnlySegment<'s, L: Ledger> {
    words: Bare<'s>,
    ledger: PhantomData<L>,
}

impl<'s, L: Ledger> Model for OnlySegment<'s, L> {
    ghost use Rattle.std.specs.Prelude.{ℕ, List};

    ghost Value = { List ℕ };

    ghost view = { λ o. o.words };
}

impl<'s, L: Ledger> OnlySegment<'s, L> {
    /// Returns the message whose only segment has the words of `self`. Reads of the message are counted in the ledger
    /// `L`.
    #[inline(always)]
    pub fn space(&self) -> CountedSpace<'_, Bare<'s>, L>
        ensures { result ≡ self.now ∷ [] }
    {
        let _bounds = self.words.segments();
        CountedSpace {
            space: &self.words,
            ledger: PhantomData,
        }
    }
}
