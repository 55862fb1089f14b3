//! The text of lists of numbers and of data words, made from the words of the message.

ghost use Rattle.std.specs.Prelude.{◌≡◌, ◌+◌, ◌/◌, ◌++◌, IfErr, OnOk};
ghost use Rattle.capn_words.specs.Message.{IsMessage};
ghost use Rattle.capn_walk.specs.ValueAt.{words_from};
ghost use Rattle.capn_target.specs.Shapes.{IsContent};
ghost use Rattle.capn_target.specs.Target.{content_words};
ghost use Rattle.capn_walk.specs.View as seen;
ghost use Rattle.capn_show.specs.Emitted as spec;
ghost use Rattle.capn_show.specs.declared.piece.Piece.TheVariants as pieces;
ghost use Rattle.capn_show.specs.EmittedPlaces.{WordsEmitted};
ghost use Rattle.capn_show.specs.ReadyPlaces.{HasNumbers, NumbersShown};
ghost use Rattle.capn_show.specs.Outgoing.{Adds, BreaksOff, outgoing};

use crate::emitter::Emitter;
use crate::fault::Broken;
use crate::piece::Piece;
use capn_walk::{digit, per_word};
use capn_words::{Place, Space, Watched, Width};
use std::alloc::Allocator;
use std::io::Write;

/// Returns element `i` of the list whose content starts at `start`. Each element has this `width`: 1, 8, 16, 32 or 64
/// bits.
pub fn number_at<S: Space>(space: &S, start: Place, width: Width, i: u32) -> u64
    requires message { IsMessage (S.message space.now) }
    requires there { IsContent (S.message space.now) start (i / seen.per_word width + 1) }
    requires plain { HasNumbers width }
    ensures { result ≡ seen.number_in width (words_from (S.message space.now) start.segment start.word) i }
{
    let many = per_word(width);
    let word = space.word(Place {
        segment: start.segment,
        word: start.word + i / many,
    });
    digit(width, word, i % many)
}

/// Appends the mark of an item to `text`, and then `piece`, at this `level`. `number` is the number of items of the
/// same kind before this one in the same object, and `byte` is the offset of the item.
#[inline(always)]
fn put_item<W: Write, A: Allocator, E: Emitter>(
    text: &mut Vec<u8, A>,
    writer: &mut Watched<W>,
    emitter: &E,
    number: u32,
    byte: u128,
    level: u32,
    piece: Piece,
) -> Result<(), Broken>
    ensures shown { OnOk result (Adds (outgoing W.contents writer.old text.old.items)
        (outgoing W.contents writer.new text.new.items)
        ((E.rule emitter.now).mark number byte (E.path emitter.now) ++ (E.rule emitter.now).piece level piece)) }
    ensures cut { IfErr result (λ e. BreaksOff (outgoing W.contents writer.old text.old.items)
        (outgoing W.contents writer.new text.new.items) e
        ((E.rule emitter.now).mark number byte (E.path emitter.now) ++ (E.rule emitter.now).piece level piece)) }
{
    emitter.put_mark(text, writer, number, byte)?;
    emitter.put_piece(text, writer, level, piece)
}

/// Appends the mark of a line of digits to `text`, and then the piece `Digits`, at this `level`. The first element of
/// the list lies at the offset `byte`.
#[inline(always)]
pub fn begin_digits<W: Write, A: Allocator, E: Emitter>(
    text: &mut Vec<u8, A>,
    writer: &mut Watched<W>,
    emitter: &E,
    byte: u128,
    level: u32,
) -> Result<(), Broken>
    ensures shown { OnOk result (Adds (outgoing W.contents writer.old text.old.items)
        (outgoing W.contents writer.new text.new.items)
        ((E.rule emitter.now).mark 0 byte (E.path emitter.now) ++ (E.rule emitter.now).piece level pieces.Digits)) }
    ensures cut { IfErr result (λ e. BreaksOff (outgoing W.contents writer.old text.old.items)
        (outgoing W.contents writer.new text.new.items) e
        ((E.rule emitter.now).mark 0 byte (E.path emitter.now) ++ (E.rule emitter.now).piece level pieces.Digits)) }
{
    put_item(text, writer, emitter, 0, byte, level, Piece::Digits)
}

/// Appends a mark and a piece for each of the `count` data words at `start` to `text`, at this `level`. Then appends
/// the piece `EndWords`.
pub fn show_words<S: Space, W: Write, A: Allocator, E: Emitter>(
    text: &mut Vec<u8, A>,
    writer: &mut Watched<W>,
    emitter: &E,
    space: &S,
    start: Place,
    count: u16,
    level: u32,
) -> Result<(), Broken>
    requires message { IsMessage (S.message space.now) }
    requires of { E.is_of emitter.now (S.message space.now) }
    requires content { IsContent (S.message space.now) start count }
    ensures shown { OnOk result (WordsEmitted (S.message space.now) start.segment start.word count
        (spec.emitted_words (E.rule emitter.now) level (E.path emitter.now)
        ((E.rule emitter.now).lies (S.message space.now) start))
        (Adds (outgoing W.contents writer.old text.old.items) (outgoing W.contents writer.new text.new.items))) }
    ensures cut { IfErr result (λ e. WordsEmitted (S.message space.now) start.segment start.word count
        (spec.emitted_words (E.rule emitter.now) level (E.path emitter.now)
        ((E.rule emitter.now).lies (S.message space.now) start))
        (BreaksOff (outgoing W.contents writer.old text.old.items) (outgoing W.contents writer.new text.new.items) e)) }
{
    let first = emitter.byte_of(space, start);
    for i in 0..count as u32 {
        let at = Place {
            segment: start.segment,
            word: start.word + i,
        };
        let word = space.word(at);
        let byte = first + 8 * i as u128;
        put_item(text, writer, emitter, i, byte, level, Piece::Word(word))?;
    }
    emitter.put_piece(text, writer, level, Piece::EndWords)
}

/// Returns the size in bytes of an element of this `width`. The element has at least 8 bits.
fn element_bytes(width: Width) -> u128
    ensures is { result ≡ 8 / seen.per_word width }
{
    8 / per_word(width) as u128
}

/// Appends a mark and a piece for each of the `count` numbers of this `width` at `start` to `text`, at this `level`.
/// Then appends the piece `EndItems`.
pub fn show_numbers<S: Space, W: Write, A: Allocator, E: Emitter>(
    text: &mut Vec<u8, A>,
    writer: &mut Watched<W>,
    emitter: &E,
    space: &S,
    start: Place,
    width: Width,
    count: u32,
    level: u32,
) -> Result<(), Broken>
    requires message { IsMessage (S.message space.now) }
    requires of { E.is_of emitter.now (S.message space.now) }
    requires content { IsContent (S.message space.now) start (content_words width count) }
    requires plain { HasNumbers width }
    ensures shown { OnOk result (NumbersShown (S.message space.now) start.segment start.word width count
        (spec.emitted_each (E.rule emitter.now) width (8 / seen.per_word width) level (E.path emitter.now)
        ((E.rule emitter.now).lies (S.message space.now) start))
        (Adds (outgoing W.contents writer.old text.old.items) (outgoing W.contents writer.new text.new.items))) }
    ensures cut { IfErr result (λ e. NumbersShown (S.message space.now) start.segment start.word width count
        (spec.emitted_each (E.rule emitter.now) width (8 / seen.per_word width) level (E.path emitter.now)
        ((E.rule emitter.now).lies (S.message space.now) start))
        (BreaksOff (outgoing W.contents writer.old text.old.items) (outgoing W.contents writer.new text.new.items) e)) }
{
    let first = emitter.byte_of(space, start);
    let size = element_bytes(width);
    for i in 0..count {
        let number = number_at(space, start, width, i);
        let byte = first + i as u128 * size;
        let piece = Piece::Number(width, number);
        put_item(text, writer, emitter, i, byte, level, piece)?;
    }
    emitter.put_piece(text, writer, level, Piece::EndItems)
}
