//! The text of a list of bytes, either as digits or as a text between quotes.

ghost use Rattle.std.specs.Prelude.{◌<◌, ◌+◌, ◌^◌, IfErr, OnOk};
ghost use Rattle.capn_words.specs.Message.{IsMessage};
ghost use Rattle.capn_words.specs.declared.pointer.Width.TheVariants as widths;
ghost use Rattle.capn_value.specs.NumberWidth as kinds;
ghost use Rattle.capn_target.specs.Shapes.{IsContent};
ghost use Rattle.capn_target.specs.Target.{content_words};
ghost use Rattle.capn_show.specs.Outgoing.{Adds, BreaksOff, outgoing};
ghost use Rattle.capn_show.specs.Emitted as spec;
ghost use Rattle.capn_show.specs.Quoting as quoting;
ghost use Rattle.capn_show.specs.ReadyPlaces as places;
ghost use Rattle.capn_show.specs.ReadyPlaces.{NumbersShown};

use crate::byte_digits::show_bytes;
use crate::emitter::Emitter;
use crate::fault::Broken;
use crate::lines::{indent, put_number};
use crate::output::put;
use crate::piece::Piece;
use crate::quoted::put_between_quotes;
use capn_words::{Place, Space, Watched};
use std::alloc::Allocator;
use std::io::Write;

/// Appends the front of a line with bytes between quotes to `text`. The front is the indent of `level`, the word
/// `bytes`, the number `count` and the first quote.
fn quoted_front<W: Write, A: Allocator>(
    text: &mut Vec<u8, A>,
    writer: &mut Watched<W>,
    level: u32,
    count: usize,
) -> Result<(), Broken>
    ensures shown { OnOk result (Adds (outgoing W.contents writer.old text.old.items)
        (outgoing W.contents writer.new text.new.items) (places.quoted_front level count)) }
    ensures cut { IfErr result (λ e. BreaksOff (outgoing W.contents writer.old text.old.items)
        (outgoing W.contents writer.new text.new.items) e (places.quoted_front level count)) }
{
    indent(text, writer, level)?;
    put(text, writer, b"bytes ")?;
    put_number(text, writer, count as u64, b' ')?;
    put(text, writer, b"\"")
}

/// Appends the list `bytes` to `text`, as one line at this `level`, with the bytes between quotes.
pub fn show_quoted<W: Write, A: Allocator>(
    text: &mut Vec<u8, A>,
    writer: &mut Watched<W>,
    bytes: &[u8],
    level: u32,
) -> Result<(), Broken>
    ensures shown { OnOk result (Adds (outgoing W.contents writer.old text.old.items)
        (outgoing W.contents writer.new text.new.items) (quoting.quoted_line level bytes.now)) }
    ensures cut { IfErr result (λ e. BreaksOff (outgoing W.contents writer.old text.old.items)
        (outgoing W.contents writer.new text.new.items) e (quoting.quoted_line level bytes.now)) }
{
    quoted_front(text, writer, level, bytes.len())?;
    put_between_quotes(text, writer, bytes)?;
    put(text, writer, b"\"\n")
}

/// Appends the list of `count` bytes at `start` to `text` in digits, at this `level`. The mark that `emitter` puts
/// before the list is already written.
fn show_digits<S: Space, W: Write, A: Allocator, E: Emitter>(
    text: &mut Vec<u8, A>,
    writer: &mut Watched<W>,
    emitter: &E,
    space: &S,
    start: Place,
    count: u32,
    level: u32,
) -> Result<(), Broken>
    requires message { IsMessage (S.message space.now) }
    requires of { E.is_of emitter.now (S.message space.now) }
    requires content { IsContent (S.message space.now) start (content_words widths.W8 count) }
    requires room { level + 1 < 2 ^ 32 }
    ensures shown { OnOk result (NumbersShown (S.message space.now) start.segment start.word widths.W8 count
        (spec.digit_lines (E.rule emitter.now) level (E.path emitter.now)
        ((E.rule emitter.now).lies (S.message space.now) start))
        (Adds (outgoing W.contents writer.old text.old.items) (outgoing W.contents writer.new text.new.items))) }
    ensures cut { IfErr result (λ e. NumbersShown (S.message space.now) start.segment start.word widths.W8 count
        (spec.digit_lines (E.rule emitter.now) level (E.path emitter.now)
        ((E.rule emitter.now).lies (S.message space.now) start))
        (BreaksOff (outgoing W.contents writer.old text.old.items) (outgoing W.contents writer.new text.new.items) e)) }
{
    emitter.put_piece(text, writer, level, Piece::Bytes(count))?;
    show_bytes(text, writer, emitter, space, start, count, level + 1)
}

/// Appends the list of `count` bytes at `start` to `text`, at this `level`. The list is written as a text if
/// `emitter.is_text` accepts its bytes, and in digits otherwise. The mark that `emitter` puts before the list is
/// already written.
pub fn show_byte_list<S: Space, W: Write, A: Allocator, E: Emitter>(
    text: &mut Vec<u8, A>,
    writer: &mut Watched<W>,
    emitter: &E,
    space: &S,
    start: Place,
    count: u32,
    level: u32,
) -> Result<(), Broken>
    requires message { IsMessage (S.message space.now) }
    requires of { E.is_of emitter.now (S.message space.now) }
    requires content { IsContent (S.message space.now) start (content_words widths.W8 count) }
    requires room { level + 1 < 2 ^ 32 }
    ensures shown { OnOk result (NumbersShown (S.message space.now) start.segment start.word widths.W8 count
        (spec.emitted_numbers (E.rule emitter.now) kinds.byte level (E.path emitter.now)
        ((E.rule emitter.now).lies (S.message space.now) start))
        (Adds (outgoing W.contents writer.old text.old.items) (outgoing W.contents writer.new text.new.items))) }
    ensures cut { IfErr result (λ e. NumbersShown (S.message space.now) start.segment start.word widths.W8 count
        (spec.emitted_numbers (E.rule emitter.now) kinds.byte level (E.path emitter.now)
        ((E.rule emitter.now).lies (S.message space.now) start))
        (BreaksOff (outgoing W.contents writer.old text.old.items) (outgoing W.contents writer.new text.new.items) e)) }
{
    let bytes = space.bytes(start, count as usize);
    if emitter.is_text(bytes) {
        emitter.put_text(text, writer, level, bytes)
    } else {
        show_digits(text, writer, emitter, space, start, count, level)
    }
}
