//! The lines of a message as C reads them, with numbers alone.

ghost use Rattle.std.specs.Prelude.{◌≡◌, ◌<◌, ◌≤◌, ◌+◌, length};
ghost use Rattle.capn_words.specs.Message.{IsMessage, IsPlace, segment_at};
ghost use Rattle.capn_cover.specs.Numbers.{CountsBefore};
ghost use Rattle.capn_lines.specs.Kinds.{code_of};
ghost use Rattle.capn_answers.specs.LineRecords as spec;

use capn_cover::{number_of, place_of};
use capn_lines::{Kind, Line, list_part};
use capn_words::{Place, Space};

/// A line of a message: words one after another in one segment that are alike. A line has 48 bytes in C.
#[derive(Clone, Copy)]
#[repr(C)]
pub struct CapnLine {
    /// The byte at which the first word begins, counted from the start of the bytes. In the packed form, it is counted
    /// in the bytes that the packed bytes unpack to.
    pub offset: u64,
    /// The segment of the words.
    pub segment: u32,
    /// The first word of the line in its segment.
    pub word: u32,
    /// The number of words, 1 or more.
    pub words: u32,
    /// The number of times that the visits of the message cover each of the words.
    pub times: u32,
    /// The segment of the pointer to whose object the words belong. For the root's pointer, and for words that nothing
    /// covers, 0.
    pub slot_segment: u32,
    /// The word of that pointer in its segment.
    pub slot_word: u32,
    /// The number of the words that canonical bytes leave out of the object to which they belong.
    pub cut: u32,
    /// The number of the words that are not zero.
    pub not_zero: u32,
    /// The kind of the words: 0 is a pointer, 1 a null pointer, 2 a word of a landing pad, 3 the tag of a list of
    /// structs, 4 data of a struct, 5 elements of a list of numbers, 6 words behind the structs of a list, and 7 words
    /// that nothing covers.
    pub kind: u32,
    /// 1 if objects or landing pads overlap in these words, plus 2 if the padding of a list in these words is not zero.
    pub flags: u32,
}

/// Returns the number that C has for `kind`.
fn number_of_kind(kind: Kind) -> u32
    ensures { result ≡ code_of kind }
{
    match kind {
        Kind::Pointer => 0,
        Kind::Null => 1,
        Kind::Pad => 2,
        Kind::Tag => 3,
        Kind::Data => 4,
        Kind::List => 5,
        Kind::Slack => 6,
        Kind::Unreached => 7,
    }
}

/// Tests whether the padding of a list in the words of `line` is not zero. Element `s` of `before` is the number of
/// words before segment `s` of the message `space`.
fn hides_padding<S: Space>(space: &S, before: &[u32], line: Line) -> bool
    requires message { IsMessage (S.message space.now) }
    requires counts { CountsBefore (S.message space.now) before.now }
    requires some { 0 < line.words }
    requires within { line.place.word + line.words ≤ length (segment_at (S.message space.now) line.place.segment) }
    ensures { result ≡ spec.hides_padding (S.message space.now) line.kind line }
{
    match line.kind {
        Kind::List => list_part(space, before, &line).padding_not_zero,
        Kind::Pointer => false,
        Kind::Null => false,
        Kind::Pad => false,
        Kind::Tag => false,
        Kind::Data => false,
        Kind::Slack => false,
        Kind::Unreached => false,
    }
}

/// Returns the place of the word with the number `number`, or the root's if the message has no such word.
fn slot_place<S: Space>(space: &S, before: &[u32], number: u32) -> Place
    requires message { IsMessage (S.message space.now) }
    requires counts { CountsBefore (S.message space.now) before.now }
    ensures { result ≡ spec.slot_place (S.message space.now) number }
{
    match place_of(space, before, number) {
        Some(at) => at,
        None => Place::ROOT,
    }
}

/// Returns `line` as C reads it. The message follows a segment table of `table` bytes.
pub(crate) fn record_of<S: Space>(space: &S, before: &[u32], table: u32, line: Line) -> CapnLine
    requires message { IsMessage (S.message space.now) }
    requires counts { CountsBefore (S.message space.now) before.now }
    requires place { IsPlace (S.message space.now) line.place }
    requires exists { line.place.segment < length (S.message space.now) }
    requires some { 0 < line.words }
    requires within { line.place.word + line.words ≤ length (segment_at (S.message space.now) line.place.segment) }
    ensures { result ≡ spec.c_line table (S.message space.now) line }
{
    let number = number_of(space, before, line.place.segment, line.place.word);
    let slot = slot_place(space, before, line.slot);
    let padding = hides_padding(space, before, line);
    let overlap = if line.overlap { 1 } else { 0 };
    let hidden = if padding { 2 } else { 0 };
    CapnLine {
        offset: table as u64 + 8 * (number as u64),
        segment: line.place.segment,
        word: line.place.word,
        words: line.words,
        times: line.times,
        slot_segment: slot.segment,
        slot_word: slot.word,
        cut: line.cut,
        not_zero: line.not_zero,
        kind: number_of_kind(line.kind),
        flags: overlap + hidden,
    }
}
