//! The elements of a list that the words of a line have.

ghost use Rattle.std.specs.Prelude.{◌≡◌, ◌<◌, ◌≤◌, ◌+◌, ◌^◌, length};
ghost use Rattle.capn_words.specs.Message.{IsMessage, IsPlace, segment_at};
ghost use Rattle.capn_target.specs.Target as target_spec;
ghost use Rattle.capn_cover.specs.Numbers.{CountsBefore};
ghost use Rattle.capn_lines.specs.Lists as spec;

use crate::line::Line;
use capn_cover::place_of;
use capn_target::content_words;
use capn_walk::{Shape, Target, resolve};
use capn_words::{Place, Space, Width};

/// The part of a list that lies in the words of a line. (Our own.)
#[derive(Clone, Copy, Debug, PartialEq, Eq)]
pub struct ListPart {
    /// The width of the list's elements, `W0` if the line's slot leads to no list.
    pub width: Width,
    /// The index in the list of the first element in these words.
    pub first: u64,
    /// The number of elements in these words.
    pub count: u64,
    /// Set if the last of these words is the list's last word.
    pub last: bool,
    /// The number of bits behind the last element of the list, 0 to 63. If the list's last word is not among these
    /// words, 0.
    pub padding: u32,
    /// Set if one of these bits is 1.
    pub padding_not_zero: bool,
}

/// The elements of a list.
#[derive(Clone, Copy, Debug, PartialEq, Eq)]
pub struct Elements {
    /// The place of the list's first word.
    pub place: Place,
    /// The width of an element.
    pub width: Width,
    /// The number of elements.
    pub count: u32,
}

/// Returns what the words of `line`, which is of kind `List`, have of their list. Element `s` of `before` is the number
/// of words before segment `s` of the message `space`.
///
/// The line has to be within its segment, as `line_at` makes it. Reads at most four words to find the list, and the
/// last word of the line. If the slot of the line leads to no list, there are no elements. (Page: lists.)
pub fn list_part<S: Space>(space: &S, before: &[u32], line: &Line) -> ListPart
    requires message { IsMessage (S.message space.now) }
    requires counts { CountsBefore (S.message space.now) before.now }
    requires some { 0 < line.now.words }
    requires within { line.now.place.word + line.now.words
        ≤ length (segment_at (S.message space.now) line.now.place.segment) }
    ensures { result ≡ spec.list_part (S.message space.now) line.now }
{
    match list_of(space, before, line.slot) {
        Some(elements) => {
            let last = Place {
                segment: line.place.segment,
                word: line.place.word + (line.words - 1),
            };
            part_of(elements, line.place.word, line.words, space.word(last))
        }
        None => ListPart {
            width: Width::W0,
            first: 0,
            count: 0,
            last: false,
            padding: 0,
            padding_not_zero: false,
        },
    }
}

/// Tests whether the word `word` at `at` is the last word of the list to which the slot with the number `slot` leads,
/// and a bit behind the list's last element is 1.
pub fn hides_padding<S: Space>(space: &S, before: &[u32], slot: u32, at: Place, word: u64) -> bool
    requires message { IsMessage (S.message space.now) }
    requires counts { CountsBefore (S.message space.now) before.now }
    requires place { IsPlace (S.message space.now) at }
    requires word { word < 2 ^ 64 }
    ensures { result ≡ spec.hides_padding (S.message space.now) slot at word }
{
    match list_of(space, before, slot) {
        Some(elements) => is_last(elements, at.word) && has_bits_behind(elements, word),
        None => false,
    }
}

/// Returns the list to which the slot with the number `slot` leads.
fn list_of<S: Space>(space: &S, before: &[u32], slot: u32) -> Option<Elements>
    requires message { IsMessage (S.message space.now) }
    requires counts { CountsBefore (S.message space.now) before.now }
    ensures { result ≡ spec.list_of (S.message space.now) slot }
{
    match place_of(space, before, slot) {
        Some(at) => list_at(space, at),
        None => None,
    }
}

/// Returns the list to which the slot at `at` leads.
fn list_at<S: Space>(space: &S, at: Place) -> Option<Elements>
    requires { IsPlace (S.message space.now) at }
    ensures { result ≡ spec.elements_of (target_spec.target (S.message space.now) at) }
{
    match resolve(space, at) {
        Ok(target) => match target {
            Target::Content {
                segment,
                start,
                shape,
                pads: _,
            } => match shape {
                Shape::Many { width, count } => Some(Elements {
                    place: Place {
                        segment,
                        word: start,
                    },
                    width,
                    count,
                }),
                Shape::Node { .. } => None,
                Shape::Rows { .. } => None,
            },
            Target::Nil => None,
            Target::Cap(_) => None,
        },
        Err(_) => None,
    }
}

/// Returns what `words` words from the word `first` on have of the list. The last of them is `word`.
fn part_of(elements: Elements, first: u32, words: u32, word: u64) -> ListPart
    requires some { 0 < words }
    requires fits { first + words < 2 ^ 32 }
    requires word { word < 2 ^ 64 }
    ensures { result ≡ spec.part_of elements first words word }
{
    let each = elements_in_word(elements.width);
    let start = first.saturating_sub(elements.place.word);
    let begin = start as u64 * each;
    let end = (start as u64 + words as u64) * each;
    let last = is_last(elements, first + (words - 1));
    ListPart {
        width: elements.width,
        first: begin,
        count: end.min(elements.count as u64).saturating_sub(begin),
        last,
        padding: if last { padding_bits(elements) } else { 0 },
        padding_not_zero: last && has_bits_behind(elements, word),
    }
}

/// Tests whether the word with the index `word` in its segment is the list's last word.
fn is_last(elements: Elements, word: u32) -> bool
    ensures { result ≡ spec.is_last elements word }
{
    word as u64 + 1 == elements.place.word as u64 + content_words(elements.width, elements.count)
}

/// Tests whether a bit of the list's last word, `word`, behind the last element is 1.
fn has_bits_behind(elements: Elements, word: u64) -> bool
    requires { word < 2 ^ 64 }
    ensures { result ≡ spec.has_bits_behind elements word }
{
    let padding = padding_bits(elements);
    padding != 0 && word >> (64 - padding) != 0
}

/// Returns the number of bits of the list's last word behind the last element.
fn padding_bits(elements: Elements) -> u32
    ensures value { result ≡ spec.padding_bits elements }
    ensures few { result ≤ 64 }
{
    let bits = 64 * content_words(elements.width, elements.count);
    (bits - bits_of(elements.width) * elements.count as u64) as u32
}

/// Returns the number of bits of an element.
fn bits_of(width: Width) -> u64
    ensures { result ≡ target_spec.bits_of width }
{
    match width {
        Width::W0 => 0,
        Width::W1 => 1,
        Width::W8 => 8,
        Width::W16 => 16,
        Width::W32 => 32,
        Width::W64 | Width::Link | Width::Rows => 64,
    }
}

/// Returns the number of elements that a word has.
fn elements_in_word(width: Width) -> u64
    ensures value { result ≡ spec.elements_in_word width }
    ensures few { result ≤ 64 }
{
    match width {
        Width::W0 => 0,
        Width::W1 => 64,
        Width::W8 => 8,
        Width::W16 => 4,
        Width::W32 => 2,
        Width::W64 | Width::Link | Width::Rows => 1,
    }
}
