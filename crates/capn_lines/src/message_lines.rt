//! The line that begins at a place of a message.

ghost use Rattle.std.specs.Prelude.{◌≡◌, ◌<◌, ◌≤◌, ◌+◌, ◌^◌, ◌==◌, not, length, IsTrue};
ghost use Rattle.capn_words.specs.Message.{IsMessage, IsPlace, segment_at, total};
ghost use Rattle.capn_cover.specs.Numbers.{CountsBefore};
ghost use Rattle.capn_lines.specs.Sums.{one_if};
ghost use Rattle.capn_lines.specs.Lines as spec;

use crate::line::Line;
use crate::seen::{Seen, is_alike, seen_at};
use capn_cover::Covered;
use capn_target::segment_length;
use capn_words::{Place, Space};

/// Returns the line that begins at the place `at` of the message `space`. `words` has what covers each word, as
/// `cover` finds it, and element `s` of `before` is the number of words before segment `s`.
///
/// The first line of a segment begins at word 0, and each other line at the end of the line before it. If no line
/// begins at `at`, the result is what is left of a line from `at` on. Reads each word of the line, and one more. (Our
/// own.)
pub fn line_at<S: Space>(space: &S, before: &[u32], words: &[Covered], at: Place) -> Line
    requires message { IsMessage (S.message space.now) }
    requires counts { CountsBefore (S.message space.now) before.now }
    requires each { length words.now ≡ total (S.message space.now) }
    requires place { IsPlace (S.message space.now) at }
    // The words from `at` on to the next line. If a line begins at `at`, this is that line.
    ensures exact { result ≡ spec.line_at (S.message space.now) words.now at }
    ensures some { 0 < result.words }
    // The line stays within its segment, and the next line begins at its end.
    ensures within { at.word + result.words ≤ length (segment_at (S.message space.now) at.segment) }
    ensures next { at.word + result.words < length (segment_at (S.message space.now) at.segment)
        → IsTrue (spec.begins (S.message space.now) words.now at.segment (at.word + result.words)) }
{
    let mut previous = seen_at(space, before, words, at);
    let mut line = first_line(at, previous);
    for word in at.word + 1..segment_length(space, at.segment) {
        let place = Place {
            segment: at.segment,
            word,
        };
        let next = seen_at(space, before, words, place);
        if !is_alike(previous, next) {
            return line;
        }
        line = longer(line, next);
        previous = next;
    }
    line
}

/// Returns the line of the word `first` at `at`, which has no other word.
fn first_line(at: Place, first: Seen) -> Line
    ensures { result ≡ record {
      place = at;
      words = 1;
      times = first.covered.times;
      kind = first.kind;
      slot = first.covered.slot;
      cut = one_if first.covered.cut;
      not_zero = one_if (not (first.word == 0));
      overlap = first.covered.overlap;
    } }
{
    Line {
        place: at,
        words: 1,
        times: first.covered.times,
        kind: first.kind,
        slot: first.covered.slot,
        cut: if first.covered.cut { 1 } else { 0 },
        not_zero: if first.word == 0 { 0 } else { 1 },
        overlap: first.covered.overlap,
    }
}

/// Returns `line` and the word `next` behind it.
fn longer(line: Line, next: Seen) -> Line
    requires words { line.words + 1 < 2 ^ 32 }
    requires cut { line.cut ≤ line.words }
    requires not_zero { line.not_zero ≤ line.words }
    ensures { result ≡ record line {
      words = line.words + 1;
      cut = line.cut + one_if next.covered.cut;
      not_zero = line.not_zero + one_if (not (next.word == 0));
    } }
{
    Line {
        words: line.words + 1,
        cut: line.cut + if next.covered.cut { 1 } else { 0 },
        not_zero: line.not_zero + if next.word == 0 { 0 } else { 1 },
        ..line
    }
}
