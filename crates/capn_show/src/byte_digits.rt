//! Lists of bytes, whose digits are written on one line.

ghost use Rattle.std.specs.Prelude.{length, IfErr, OnOk};
ghost use Rattle.hex.specs.Hex.{encode_lower};
ghost use Rattle.capn_words.specs.Message.{IsMessage};
ghost use Rattle.capn_words.specs.declared.pointer.Width.TheVariants as widths;
ghost use Rattle.capn_value.specs.Text as form;
ghost use Rattle.capn_target.specs.Shapes.{IsContent};
ghost use Rattle.capn_target.specs.Target.{content_words};
ghost use Rattle.capn_show.specs.Emitted as spec;
ghost use Rattle.capn_show.specs.ReadyPlaces.{NumbersShown};
ghost use Rattle.capn_show.specs.Outgoing.{Adds, BreaksOff, outgoing};

use crate::emitter::Emitter;
use crate::fault::Broken;
use crate::lines::word_digits;
use crate::numbers::{begin_digits, number_at};
use crate::output::put;
use crate::piece::Piece;
use capn_words::{Place, Space, Watched, Width};
use std::alloc::Allocator;
use std::io::Write;

/// Appends the digits of the `count` bytes at `start` to `text`, as one line at this `level`: a mark, the piece
/// `Digits`, the digits and the piece `EndDigits`. If `count` is 0, only the piece `NoDigits` is appended.
pub fn show_bytes<S: Space, W: Write, A: Allocator, E: Emitter>(
    text: &mut Vec<u8, A>,
    writer: &mut Watched<W>,
    emitter: &E,
    space: &S,
    start: Place,
    count: u32,
    level: u32,
) -> Result<(), Broken>
    requires message { IsMessage (S.message space.now) }
    requires of { E.is_of emitter.now (S.message space.now) }
    requires content { IsContent (S.message space.now) start (content_words widths.W8 count) }
    ensures shown { OnOk result (NumbersShown (S.message space.now) start.segment start.word widths.W8 count
        (λ xs. spec.emitted_digits (E.rule emitter.now) level (E.path emitter.now)
        ((E.rule emitter.now).lies (S.message space.now) start) (length xs) (encode_lower xs))
        (Adds (outgoing W.contents writer.old text.old.items) (outgoing W.contents writer.new text.new.items))) }
    ensures cut { IfErr result (λ e. NumbersShown (S.message space.now) start.segment start.word widths.W8 count
        (λ xs. spec.emitted_digits (E.rule emitter.now) level (E.path emitter.now)
        ((E.rule emitter.now).lies (S.message space.now) start) (length xs) (encode_lower xs))
        (BreaksOff (outgoing W.contents writer.old text.old.items) (outgoing W.contents writer.new text.new.items) e)) }
{
    if count == 0 {
        return emitter.put_piece(text, writer, level, Piece::NoDigits);
    }
    let first = emitter.byte_of(space, start);
    begin_digits(text, writer, emitter, first, level)?;
    push_bytes(text, writer, space, start, count)?;
    emitter.put_piece(text, writer, level, Piece::EndDigits)
}

/// Appends the digits of the list of `count` bytes at `start` to `text`, a word of the message at a time.
pub fn push_bytes<S: Space, W: Write, A: Allocator>(
    text: &mut Vec<u8, A>,
    writer: &mut Watched<W>,
    space: &S,
    start: Place,
    count: u32,
) -> Result<(), Broken>
    requires message { IsMessage (S.message space.now) }
    requires content { IsContent (S.message space.now) start (content_words widths.W8 count) }
    ensures shown { OnOk result (NumbersShown (S.message space.now) start.segment start.word widths.W8
        count encode_lower
        (Adds (outgoing W.contents writer.old text.old.items) (outgoing W.contents writer.new text.new.items))) }
    ensures cut { IfErr result (λ e. NumbersShown (S.message space.now) start.segment start.word widths.W8
        count encode_lower
        (BreaksOff (outgoing W.contents writer.old text.old.items) (outgoing W.contents writer.new text.new.items) e)) }
{
    for i in 0..count / 8 {
        let word = number_at(space, start, Width::W64, i);
        put(text, writer, &word_digits(word))?;
    }
    let left = count % 8;
    if left == 0 {
        return Ok(());
    }
    let last = number_at(space, start, Width::W64, count / 8);
    put(text, writer, &word_digits(last)[..2 * left as usize])
}
