//! One line of a message.

ghost use Rattle.std.specs.Prelude.{◌≡◌, ◌≤◌, ◌<◌, ◌+◌, ◌++◌, ◌^◌, IfOk, IsOk, OnOk, length, string_bytes};
ghost use Rattle.capn_words.specs.Message.{IsMessage, segment_at, word_at};
ghost use Rattle.capn_cover.specs.Numbers.{CountsBefore};
ghost use Rattle.capn_annotate.specs.Columns.{way_column};
ghost use Rattle.capn_annotate.specs.LineTexts as spec;
ghost use Rattle.capn_annotate.specs.Ways as ways;

use crate::columns::Columns;
use crate::lead::{content_place, has_one_pad, leads_to};
use crate::parts_of_bytes::front;
use crate::quotation::put_quotation;
use crate::saying::Saying;
use crate::tail::{PaddingText, Tail};
use crate::way_column::WayColumn;
use crate::ways::way_of;
use capn_cover::{Covered, number_of};
use capn_lines::{Kind, Line, ListPart, list_part};
use capn_walk::{Shape, Target};
use capn_words::{Place, Space, Width, split};
use std::alloc::{AllocError, Allocator};

/// Returns the columns of `line` before its way. The message's first word lies at the byte `start` of the stream.
fn columns_of<S: Space>(space: &S, before: &[u32], start: u128, line: &Line) -> Columns
    requires message { IsMessage (S.message space.now) }
    requires counts { CountsBefore (S.message space.now) before.now }
    requires start { start < 2 ^ 66 }
    requires some { 0 < line.now.words }
    requires within { line.now.place.word + line.now.words
        ≤ length (segment_at (S.message space.now) line.now.place.segment) }
    ensures { result ≡ spec.columns_record (S.message space.now) start line.now }
{
    let number = number_of(space, before, line.place.segment, line.place.word);
    Columns {
        byte: start + 8 * u128::from(number),
        place: line.place,
        words: line.words,
        word: space.word(line.place),
        times: line.times,
        kind: line.kind,
    }
}

/// Returns what is said of the word of a landing pad or of a slot at `at`. `shows` says whether the place is shown to
/// which it leads.
fn pointer_saying<S: Space>(space: &S, shows: bool, at: Place) -> Saying
    requires { at.word < length (segment_at (S.message space.now) at.segment) }
    ensures { result ≡ spec.pad_saying (S.message space.now) shows at }
{
    let pointer = split(space.word(at));
    let to = if shows {
        content_place(at, pointer)
    } else {
        None
    };
    Saying::Pointer { pointer, to }
}

/// Returns what is said of the elements of the list `target`.
fn elements_of(target: Target) -> Saying
    ensures { result ≡ spec.elements_of target }
{
    match target {
        Target::Content {
            segment: _,
            start: _,
            shape,
            pads: _,
        } => match shape {
            Shape::Many { width, count } => Saying::Elements { width, count },
            _ => Saying::Elements {
                width: Width::W0,
                count: 0,
            },
        },
        _ => Saying::Elements {
            width: Width::W0,
            count: 0,
        },
    }
}

/// Returns what `line` says of its words.
fn saying_of<S: Space>(space: &S, before: &[u32], line: &Line) -> Saying
    requires message { IsMessage (S.message space.now) }
    requires counts { CountsBefore (S.message space.now) before.now }
    requires some { 0 < line.now.words }
    requires within { line.now.place.word + line.now.words
        ≤ length (segment_at (S.message space.now) line.now.place.segment) }
    ensures { result ≡ spec.saying_of (S.message space.now) line.now }
{
    match line.kind {
        Kind::Pointer => pointer_saying(space, true, line.place),
        Kind::Null => Saying::Slots(line.words),
        Kind::Pad => pointer_saying(space, has_one_pad(space, before, line.slot), line.place),
        Kind::Tag => Saying::Tag(space.word(line.place)),
        Kind::Data => Saying::Words(line.words),
        Kind::List => elements_of(leads_to(space, before, line.slot)),
        Kind::Slack => Saying::Unread {
            words: line.words,
            not_zero: line.not_zero,
        },
        Kind::Unreached => Saying::Unread {
            words: line.words,
            not_zero: line.not_zero,
        },
    }
}

/// Appends the quotation of a line of a list to `out`, if the list is one of bytes. The line has `part` of the list.
fn put_line_quotation<S: Space, A: Allocator>(
    out: &mut Vec<u8, A>,
    space: &S,
    line: &Line,
    part: &ListPart,
) -> Result<(), AllocError>
    requires message { IsMessage (S.message space.now) }
    requires some { 0 < line.now.words }
    requires within { line.now.place.word + line.now.words
        ≤ length (segment_at (S.message space.now) line.now.place.segment) }
    ensures { OnOk result (out.new.items ≡ out.old.items
        ++ spec.line_quotation (S.message space.now) part.now.width line.now part.now) }
{
    match part.width {
        Width::W8 => {
            let all = space.bytes(line.place, 8 * line.words as usize);
            put_quotation(out, part.last, front(all, part.count as usize))
        }
        _ => Ok(()),
    }
}

/// Returns the text of the padding of the list of which a line has `part`.
fn padding_of<A: Allocator>(alloc: A, part: &ListPart) -> Result<String<A>, AllocError>
    ensures { IfOk result (λ text. string_bytes text
        ≡ spec.padding_text part.now.width part.now.padding part.now.padding_not_zero) }
{
    let padding = PaddingText {
        width: part.width,
        bits: part.padding,
        not_zero: part.padding_not_zero,
    };
    format!(in alloc; "{padding}")
}

/// Appends to `out` what follows of a line of a list: the quotation and the padding. The line has `part` of the list.
fn put_list<S: Space, A: Allocator + Copy>(
    alloc: A,
    out: &mut Vec<u8, A>,
    space: &S,
    line: &Line,
    part: &ListPart,
) -> Result<(), AllocError>
    requires message { IsMessage (S.message space.now) }
    requires some { 0 < line.now.words }
    requires within { line.now.place.word + line.now.words
        ≤ length (segment_at (S.message space.now) line.now.place.segment) }
    ensures { OnOk result (out.new.items ≡ out.old.items ++ spec.list_text (S.message space.now) line.now part.now) }
{
    put_line_quotation(out, space, line, part)?;
    let padding = padding_of(alloc, part)?;
    out.extend_from_slice(padding.as_bytes())
}

/// Appends to `out` what follows of `line` behind what it says of its words, which is nothing but for a list.
fn put_rest<S: Space, A: Allocator + Copy>(
    alloc: A,
    out: &mut Vec<u8, A>,
    space: &S,
    before: &[u32],
    line: &Line,
) -> Result<(), AllocError>
    requires message { IsMessage (S.message space.now) }
    requires counts { CountsBefore (S.message space.now) before.now }
    requires some { 0 < line.now.words }
    requires within { line.now.place.word + line.now.words
        ≤ length (segment_at (S.message space.now) line.now.place.segment) }
    ensures { OnOk result (out.new.items ≡ out.old.items
        ++ spec.rest_text (S.message space.now) line.now.kind line.now) }
{
    match line.kind {
        Kind::List => {
            let part = list_part(space, before, line);
            put_list(alloc, out, space, line, &part)
        }
        _ => Ok(()),
    }
}

/// Returns the columns, the way and what a line says of its words.
fn front_of<A: Allocator>(
    alloc: A,
    columns: Columns,
    path: &[u32],
    saying: Saying,
) -> Result<String<A>, AllocError>
    ensures { IfOk result (λ text. string_bytes text ≡ spec.front_text columns path.now saying) }
{
    let way = WayColumn {
        kind: columns.kind,
        path,
    };
    format!(in alloc; "{columns}{way}\t{saying}")
}

/// Returns the end of a line.
fn tail_of<A: Allocator>(alloc: A, cut: u32, overlap: bool) -> Result<String<A>, AllocError>
    ensures { IfOk result (λ text. string_bytes text ≡ spec.tail_text cut overlap) }
{
    let tail = Tail { cut, overlap };
    format!(in alloc; "{tail}")
}

/// Returns the text of `line`, with its newline. The message's first word lies at the byte `start` of the stream, and
/// no slot is more than `levels` objects deep. `words` has what the visits make of each word of the message, and
/// element `s` of `before` is the number of words before segment `s`.
///
/// The memory is that of the line and of one way.
pub fn line_text<S: Space, A: Allocator + Copy>(
    alloc: A,
    space: &S,
    before: &[u32],
    words: &[Covered],
    start: u128,
    levels: u32,
    line: &Line,
) -> Result<Vec<u8, A>, AllocError>
    requires message { IsMessage (S.message space.now) }
    requires counts { CountsBefore (S.message space.now) before.now }
    requires start { start < 2 ^ 66 }
    requires some { 0 < line.now.words }
    requires within { line.now.place.word + line.now.words
        ≤ length (segment_at (S.message space.now) line.now.place.segment) }
    ensures { IfOk result (λ text. text.items
        ≡ spec.line_text (S.message space.now) words.now start levels line.now) }
{
    let path = way_of(alloc, space, before, words, levels, line)?;
    let columns = columns_of(space, before, start, line);
    let front = front_of(alloc, columns, &path, saying_of(space, before, line))?;
    let tail = tail_of(alloc, line.cut, line.overlap)?;
    let mut text = Vec::new(alloc);
    text.extend_from_slice(front.as_bytes())?;
    put_rest(alloc, &mut text, space, before, line)?;
    text.extend_from_slice(tail.as_bytes())?;
    Ok(text)
}
