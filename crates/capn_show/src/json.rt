//! The emitter of JSON, which writes a value as one line of JSON.

ghost use Rattle.std.specs.Prelude.{[], ⊤, IfErr, OnOk};
ghost use Rattle.capn_show.specs.inner.JsonRule.{json_piece, json_rule};
ghost use Rattle.capn_show.specs.Outgoing.{Adds, BreaksOff, outgoing};

use crate::emitter::Emitter;
use crate::fault::Broken;
use crate::json_items::{is_quoted, put_member, put_value, put_word, separate};
use crate::json_texts::json_text;
use crate::output::put;
use crate::piece::Piece;
use capn_quoted::is_clear_text;
use capn_words::{Place, Space, Watched};
use std::alloc::Allocator;
use std::io::Write;

/// The emitter of JSON. `QUOTED` says whether a list of bytes that is a text is written as a string. The type has no
/// fields, so an emitter takes no memory.
#[derive(Drop)]
pub struct Json<const QUOTED: bool>;

/// Appends the JSON of `piece` to `text`.
#[inline(always)]
fn put_json_piece<W: Write, A: Allocator>(
    text: &mut Vec<u8, A>,
    writer: &mut Watched<W>,
    piece: Piece,
) -> Result<(), Broken>
    ensures shown { OnOk result (Adds (outgoing W.contents writer.old text.old.items)
        (outgoing W.contents writer.new text.new.items) (json_piece piece)) }
    ensures cut { IfErr result (λ e. BreaksOff (outgoing W.contents writer.old text.old.items)
        (outgoing W.contents writer.new text.new.items) e (json_piece piece)) }
{
    match piece {
        Piece::Nil => put(text, writer, b"null"),
        Piece::Cap(index) => put_member(text, writer, b"{\"capability\":", index),
        Piece::Body(_, _) => put(text, writer, b"{\"words\":["),
        Piece::Word(word) => put_word(text, writer, word),
        Piece::EndWords => put(text, writer, b"],\"slots\":["),
        Piece::EndItems => put(text, writer, b"]}"),
        Piece::Links(_) => put(text, writer, b"{\"pointers\":["),
        Piece::Rows(_) => put(text, writer, b"{\"rows\":["),
        Piece::Voids(count) => put_member(text, writer, b"{\"void\":", count),
        Piece::Bits(_) => put(text, writer, b"{\"bits\":\""),
        Piece::Bytes(_) => put(text, writer, b"{\"bytes\":\""),
        Piece::Pairs(_) => put(text, writer, b"{\"u16\":["),
        Piece::Quads(_) => put(text, writer, b"{\"u32\":["),
        Piece::Octs(_) => put(text, writer, b"{\"u64\":["),
        Piece::Number(width, n) => put_value(text, writer, is_quoted(width), n),
        Piece::Digits => Ok(()),
        Piece::EndDigits | Piece::NoDigits => put(text, writer, b"\"}"),
    }
}

impl<const QUOTED: bool> Emitter for Json<QUOTED> {
    ghost rule = { λ e. json_rule QUOTED };

    ghost path = { λ e. [] };

    ghost is_of = { λ e m. ⊤ };

    #[inline(always)]
    fn is_text(&self, bytes: &[u8]) -> bool {
        QUOTED && is_clear_text(bytes)
    }

    #[inline(always)]
    fn put_text<W: Write, A: Allocator>(
        &self,
        text: &mut Vec<u8, A>,
        writer: &mut Watched<W>,
        _level: u32,
        bytes: &[u8],
    ) -> Result<(), Broken> {
        json_text(text, writer, bytes)
    }

    #[inline(always)]
    fn put_piece<W: Write, A: Allocator>(
        &self,
        text: &mut Vec<u8, A>,
        writer: &mut Watched<W>,
        _level: u32,
        piece: Piece,
    ) -> Result<(), Broken> {
        put_json_piece(text, writer, piece)
    }

    #[inline(always)]
    fn byte_of<S: Space>(&self, _space: &S, _at: Place) -> u128 {
        0
    }

    #[inline(always)]
    fn put_mark<W: Write, A: Allocator>(
        &self,
        text: &mut Vec<u8, A>,
        writer: &mut Watched<W>,
        number: u32,
        _byte: u128,
    ) -> Result<(), Broken> {
        separate(text, writer, number)
    }

    #[inline(always)]
    fn path_length(&self) -> usize {
        0
    }

    #[inline(always)]
    fn step_below(&mut self, _number: u32) -> Result<(), Broken> {
        Ok(())
    }

    #[inline(always)]
    fn step_back(&mut self, _length: usize) {}
}
