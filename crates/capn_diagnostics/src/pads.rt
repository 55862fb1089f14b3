//! The landing pad of a slot's pointer, as the command `explain` shows it.

ghost use Rattle.std.specs.Prelude.{◌≡◌};
ghost use Rattle.capn_diagnostics.specs.Slot as spec;

use crate::examined::{Pad, Stretch};
use crate::slot_text::SlotText;
use crate::telling::has_words;
use capn_target::segment_length;
use capn_words::{Place, Pointer, Space};

/// Returns the `count` words of `segment` that begin at word number `word`.
fn words_at<S: Space>(space: &S, segment: u32, word: u32, count: u32) -> Stretch
    ensures { result ≡ spec.words_at (S.message space.now) segment word count }
{
    Stretch {
        segment,
        start: word as i64,
        end: word as i64 + count as i64,
        length: segment_length(space, segment),
    }
}

/// Returns the words of the landing pad of `pointer`, even if they are not inside their segment. Returns `None` if
/// `pointer` is not far.
pub(crate) fn pad_stretch<S: Space>(space: &S, pointer: Pointer) -> Option<Stretch>
    ensures { result ≡ spec.pad_stretch (S.message space.now) pointer }
{
    match pointer {
        Pointer::Far {
            double,
            word,
            segment,
        } => {
            if double {
                Some(words_at(space, segment, word, 2))
            } else {
                Some(words_at(space, segment, word, 1))
            }
        }
        _ => None,
    }
}

/// Returns the landing pad of `pointer`. Returns `Absent` if `pointer` is not far, or if the pad is not inside its
/// segment.
pub(crate) fn pad_by<S: Space>(space: &S, offset: u64, table: u32, pointer: Pointer) -> Pad
    ensures { result ≡ spec.pad_by (S.message space.now) offset table pointer }
{
    match pointer {
        Pointer::Far {
            double,
            word,
            segment,
        } => {
            if double {
                two_words(space, offset, table, segment, word)
            } else {
                one_word(space, offset, table, segment, word)
            }
        }
        _ => Pad::Absent,
    }
}

/// Returns the landing pad of one word at `word` of `segment`, or `Absent` if the word is not inside the segment.
fn one_word<S: Space>(space: &S, offset: u64, table: u32, segment: u32, word: u32) -> Pad
    ensures { result ≡ spec.pad_of_one (S.message space.now) offset table segment word }
{
    if has_words(space, segment, word as u64, 1) {
        Pad::One(SlotText::at(space, offset, table, Place { segment, word }))
    } else {
        Pad::Absent
    }
}

/// Returns the landing pad of two words at `word` of `segment`, or `Absent` if the words are not both inside the
/// segment.
fn two_words<S: Space>(space: &S, offset: u64, table: u32, segment: u32, word: u32) -> Pad
    ensures { result ≡ spec.pad_of_two (S.message space.now) offset table segment word }
{
    if has_words(space, segment, word as u64, 2) {
        let next = Place {
            segment,
            word: word + 1,
        };
        let first = SlotText::at(space, offset, table, Place { segment, word });
        Pad::Two(first, SlotText::at(space, offset, table, next))
    } else {
        Pad::Absent
    }
}
