//! The words of a message's only segment, with every read counted.

ghost use Rattle.std.specs.Prelude.{◌≡◌, ◌+◌, ◌<◌, [], ◌∷◌, length, slice_index};
ghost use Rattle.capn_words.specs.Message.{IsMessage, segment_at};

use capn_target::counted::{CountedSpace, Reads};
use capn_words::{Place, Space};
use std::marker::Model;
use std::sync::ledger::Ledger;

/// The words of a message with one segment. Only calls that count can read them. The type has the size of a reference.
/// Contracts see it as the list of the words.
#[derive(Drop)]
pub struct CountedWords<'s, S: Space, L: Ledger> {
    space: CountedSpace<'s, S, L>,
}

impl<'s, S: Space, L: Ledger> Model for CountedWords<'s, S, L> {
    ghost use Rattle.std.specs.Prelude.{◌≡◌, ℕ, List, [], ◌∷◌};
    ghost use Rattle.capn_words.specs.Message.{segment_at};

    ghost Value = { List ℕ };

    ghost view = { λ c. segment_at c.space 0 };

    ghost invariant = { λ c. c.space ≡ segment_at c.space 0 ∷ [] };
}

impl<'s, S: Space, L: Ledger> CountedWords<'s, S, L> {
    /// Returns the words of the message `space` of one segment.
    #[inline(always)]
    pub fn of(space: &CountedSpace<'s, S, L>) -> CountedWords<'s, S, L>
        requires one { length space.now ≡ 1 }
        ensures words { result ≡ segment_at space.now 0 }
        ensures message { result ∷ [] ≡ space.now }
        ensures bounds { IsMessage (result ∷ []) }
    {
        space.bounds();
        CountedWords {
            space: space.again(),
        }
    }

    /// Returns a copy of this reference to the words. A function that takes the copy by value needs no reference to a
    /// reference.
    #[inline(always)]
    pub fn again(&self) -> CountedWords<'s, S, L>
        ensures { result ≡ self.now }
    {
        CountedWords {
            space: self.space.again(),
        }
    }
}

/// Returns the number of `words`. The call counts in `reads` as one read.
#[inline(always)]
pub fn words_of<S: Space, L: Ledger>(words: &CountedWords<'_, S, L>, reads: &mut Reads<L>) -> u32
    ensures words { result ≡ length words.now }
    ensures reads { reads.new ≡ reads.old + 1 }
{
    words.space.words(0, reads).unwrap_or(0)
}

/// Returns the word at index `word` of `words`. The call counts in `reads` as one read.
#[inline(always)]
pub fn word_at<S: Space, L: Ledger>(
    words: &CountedWords<'_, S, L>,
    word: u32,
    reads: &mut Reads<L>,
) -> u64
    requires { word < length words.now }
    ensures word { result ≡ slice_index words.now word }
    ensures reads { reads.new ≡ reads.old + 1 }
{
    words.space.word(Place { segment: 0, word }, reads)
}
