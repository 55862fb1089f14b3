//! One word of a message beside what covers it.

ghost use Rattle.std.specs.Prelude.{◌≡◌, length};
ghost use Rattle.capn_words.specs.Message.{IsMessage, IsPlace, total, word_at};
ghost use Rattle.capn_cover.specs.Numbers.{CountsBefore};
ghost use Rattle.capn_lines.specs.Lines as spec;

use crate::kind::{Kind, kind_of, may_join};
use capn_cover::{Covered, number_of};
use capn_words::{Place, Space};

/// A word, its kind, and what covers it.
#[derive(Clone, Copy, Debug, PartialEq, Eq)]
pub struct Seen {
    /// The word.
    pub word: u64,
    /// The kind of the word.
    pub kind: Kind,
    /// The cover of the word.
    pub covered: Covered,
}

/// Reads the word at `at`. `words` has what covers each word of the message, and element `s` of `before` is the number
/// of words before segment `s`.
#[inline(always)]
pub fn seen_at<S: Space>(space: &S, before: &[u32], words: &[Covered], at: Place) -> Seen
    requires message { IsMessage (S.message space.now) }
    requires counts { CountsBefore (S.message space.now) before.now }
    requires each { length words.now ≡ total (S.message space.now) }
    requires place { IsPlace (S.message space.now) at }
    ensures word { result.word ≡ word_at (S.message space.now) at }
    ensures kind { result.kind ≡ spec.kind_at (S.message space.now) words.now at }
    ensures covered { result.covered ≡ spec.covered_at (S.message space.now) words.now at }
{
    let word = space.word(at);
    let number = number_of(space, before, at.segment, at.word);
    let covered = words[number as usize];
    Seen {
        word,
        kind: kind_of(word, covered.role),
        covered,
    }
}

/// Tests whether `first`, and `next` behind it, may stand in one line.
#[inline(always)]
pub fn is_alike(first: Seen, next: Seen) -> bool
    ensures { result ≡ spec.is_alike first.kind first.covered next.kind next.covered }
{
    may_join(first.kind, next.kind)
        && first.covered.slot == next.covered.slot
        && first.covered.times == next.covered.times
}
