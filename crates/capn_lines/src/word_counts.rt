//! The counts of a message's words.

ghost use Rattle.std.specs.Prelude.{◌≡◌, ◌<◌, ◌≤◌, ◌+◌, ◌^◌, length};
ghost use Rattle.capn_words.specs.Message.{IsMessage, IsPlace, most_words, segment_at, total};
ghost use Rattle.capn_walk.specs.Limits.{Bounds};
ghost use Rattle.capn_cover.specs.Numbers.{CountsBefore, number};
ghost use Rattle.capn_cover.specs.Cover.{IsCover};
ghost use Rattle.capn_lines.specs.Sums as sums;
ghost use Rattle.capn_lines.specs.Counts.{IsCounts, hides_in};
ghost use Rattle.capn_lines.specs.Lists as lists;
ghost use Rattle.capn_lines.specs.inner.Counted as spec;
ghost use Rattle.capn_lines.specs.inner.Counted.{AreUpTo};

use crate::counts::Counts;
use crate::kind::{Kind, is_kind};
use crate::list_parts::hides_padding;
use crate::seen::{Seen, seen_at};
use capn_cover::Covered;
use capn_target::segment_length;
use capn_words::{Place, Space};

/// Counts the words of the message `space` by kind, and those that are shared, overlap, hide something or are cut.
/// `words` has what covers each word, as `cover` finds it, and element `s` of `before` is the number of words before
/// segment `s`.
///
/// Reads each word once, and for a word of a list at most four more. (Our own.)
pub fn count_words<S: Space>(space: &S, before: &[u32], words: &[Covered]) -> Counts
    requires message { IsMessage (S.message space.now) }
    requires counts { CountsBefore (S.message space.now) before.now }
    requires each { length words.now ≡ total (S.message space.now) }
    // Each count is how many words of the message are so.
    ensures counts { IsCounts (S.message space.now) words.now result }
    // Each word has one kind.
    ensures kinds { result.pointer + result.null + result.pad + result.tag + result.data + result.list + result.slack
        + result.unreached ≡ result.words }
    // Words that overlap are shared, and words that are shared are not unreached.
    ensures overlaps { (limits : Bounds) → IsCover (S.message space.now) limits words.now
        → result.overlap ≤ result.shared }
    ensures shared { (limits : Bounds) → IsCover (S.message space.now) limits words.now
        → result.shared + result.unreached ≤ result.words }
{
    let mut sum = Counts::none();
    for segment in 0..space.segments() {
        sum = with_segment(space, before, words, segment, sum);
    }
    sum
}

/// Returns `sum` and the words of `segment`.
fn with_segment<S: Space>(
    space: &S,
    before: &[u32],
    words: &[Covered],
    segment: u32,
    sum: Counts,
) -> Counts
    requires message { IsMessage (S.message space.now) }
    requires counts { CountsBefore (S.message space.now) before.now }
    requires each { length words.now ≡ total (S.message space.now) }
    requires exists { segment < length (S.message space.now) }
    requires few { AreUpTo (number (S.message space.now) (record { segment = segment; word = 0 })) sum }
    ensures { result ≡ spec.with_words (S.message space.now) words.now segment
        (length (segment_at (S.message space.now) segment)) sum }
{
    let mut more = sum;
    for word in 0..segment_length(space, segment) {
        more = with_word(space, before, words, Place { segment, word }, more);
    }
    more
}

/// Returns `sum` and the word at `at`.
fn with_word<S: Space>(
    space: &S,
    before: &[u32],
    words: &[Covered],
    at: Place,
    sum: Counts,
) -> Counts
    requires message { IsMessage (S.message space.now) }
    requires counts { CountsBefore (S.message space.now) before.now }
    requires each { length words.now ≡ total (S.message space.now) }
    requires place { IsPlace (S.message space.now) at }
    requires few { AreUpTo (number (S.message space.now) at) sum }
    ensures { result ≡ spec.with_word (S.message space.now) words.now at sum }
{
    let seen = seen_at(space, before, words, at);
    let hidden = hides(space, before, at, seen);
    let more = with_tests(sum, seen.covered, hidden);
    with_kind(more, seen.kind)
}

/// Tests whether the word `seen` at `at` hides something: a bit that is 1 in no pointer and no value.
fn hides<S: Space>(space: &S, before: &[u32], at: Place, seen: Seen) -> bool
    requires message { IsMessage (S.message space.now) }
    requires counts { CountsBefore (S.message space.now) before.now }
    requires place { IsPlace (S.message space.now) at }
    requires word { seen.word < 2 ^ 64 }
    ensures { result ≡ hides_in seen.kind seen.word
        (lists.hides_padding (S.message space.now) seen.covered.slot at seen.word) }
{
    match seen.kind {
        Kind::List => hides_padding(space, before, seen.covered.slot, at, seen.word),
        Kind::Slack => seen.word != 0,
        Kind::Unreached => seen.word != 0,
        Kind::Pointer => false,
        Kind::Null => false,
        Kind::Pad => false,
        Kind::Tag => false,
        Kind::Data => false,
    }
}

/// Returns `sum` and one word of this `kind`.
fn with_kind(sum: Counts, kind: Kind) -> Counts
    requires { AreUpTo most_words sum }
    ensures { result ≡ spec.with_kind kind sum }
{
    Counts {
        words: sum.words + 1,
        pointer: sum.pointer + one_if(is_kind(kind, Kind::Pointer)),
        null: sum.null + one_if(is_kind(kind, Kind::Null)),
        pad: sum.pad + one_if(is_kind(kind, Kind::Pad)),
        tag: sum.tag + one_if(is_kind(kind, Kind::Tag)),
        data: sum.data + one_if(is_kind(kind, Kind::Data)),
        list: sum.list + one_if(is_kind(kind, Kind::List)),
        slack: sum.slack + one_if(is_kind(kind, Kind::Slack)),
        unreached: sum.unreached + one_if(is_kind(kind, Kind::Unreached)),
        ..sum
    }
}

/// Returns `sum` and what one word that is covered so adds beside its kind.
fn with_tests(sum: Counts, covered: Covered, hidden: bool) -> Counts
    requires { AreUpTo most_words sum }
    ensures { result ≡ spec.with_tests covered hidden sum }
{
    Counts {
        shared: sum.shared + one_if(covered.times > 1),
        overlap: sum.overlap + one_if(covered.overlap),
        hidden: sum.hidden + one_if(hidden),
        cut: sum.cut + one_if(covered.cut),
        ..sum
    }
}

/// Returns 1 if `test` is true, and otherwise 0.
fn one_if(test: bool) -> u32
    ensures value { result ≡ sums.one_if test }
    ensures few { result ≤ 1 }
{
    if test { 1 } else { 0 }
}
