//! The output of a piece in lines: a line, some bytes of a line, or nothing.

ghost use Rattle.std.specs.Prelude.{IfErr, OnOk};
ghost use Rattle.capn_show.specs.Emitted.{line_piece};
ghost use Rattle.capn_show.specs.Outgoing.{Adds, BreaksOff, outgoing};

use crate::fault::Broken;
use crate::lines::{body_line, end_line, indent, named_line, number_line, plain_line, word_line};
use crate::piece::Piece;
use capn_words::Watched;
use std::alloc::Allocator;
use std::io::Write;

/// Appends the text that `piece` has in lines to `text`, at this `level`. The pieces `EndWords`, `EndItems` and
/// `NoDigits` add nothing.
#[inline(always)]
pub fn put_line_piece<W: Write, A: Allocator>(
    text: &mut Vec<u8, A>,
    writer: &mut Watched<W>,
    level: u32,
    piece: Piece,
) -> Result<(), Broken>
    ensures shown { OnOk result (Adds (outgoing W.contents writer.old text.old.items)
        (outgoing W.contents writer.new text.new.items) (line_piece level piece)) }
    ensures cut { IfErr result (λ e. BreaksOff (outgoing W.contents writer.old text.old.items)
        (outgoing W.contents writer.new text.new.items) e (line_piece level piece)) }
{
    match piece {
        Piece::Nil => plain_line(text, writer, level, "null"),
        Piece::Cap(index) => named_line(text, writer, level, "capability", index),
        Piece::Body(words, slots) => body_line(text, writer, level, words, slots),
        Piece::Word(word) => word_line(text, writer, level, word),
        Piece::Links(count) => named_line(text, writer, level, "pointers", count),
        Piece::Rows(count) => named_line(text, writer, level, "rows", count),
        Piece::Voids(count) => named_line(text, writer, level, "void", count),
        Piece::Bits(count) => named_line(text, writer, level, "bits", count),
        Piece::Bytes(count) => named_line(text, writer, level, "bytes", count),
        Piece::Pairs(count) => named_line(text, writer, level, "u16", count),
        Piece::Quads(count) => named_line(text, writer, level, "u32", count),
        Piece::Octs(count) => named_line(text, writer, level, "u64", count),
        Piece::Number(_, n) => number_line(text, writer, level, n),
        Piece::Digits => indent(text, writer, level),
        Piece::EndDigits => end_line(text, writer),
        Piece::EndWords | Piece::EndItems | Piece::NoDigits => Ok(()),
    }
}
