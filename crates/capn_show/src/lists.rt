//! The text of lists whose elements are not pointers or structs.

ghost use Rattle.std.specs.Prelude.{◌≡◌, ℕ, ◌+◌, ◌<◌, ◌^◌, IfErr, OnOk};
ghost use Rattle.capn_words.specs.Message.{IsMessage};
ghost use Rattle.capn_target.specs.declared.target.Target.TheVariants as targets;
ghost use Rattle.capn_target.specs.declared.target.Shape.TheVariants as shapes;
ghost use Rattle.capn_target.specs.Shapes.{IsContent, IsPlain};
ghost use Rattle.capn_target.specs.Target.{content_words};
ghost use Rattle.capn_show.specs.EmittedPlaces.{IsFoundEmitted};
ghost use Rattle.capn_show.specs.Outgoing.{Adds, BreaksOff, outgoing};

use crate::bits::show_bits;
use crate::bytes::show_byte_list;
use crate::emitter::Emitter;
use crate::fault::Broken;
use crate::numbers::show_numbers;
use crate::piece::Piece;
use capn_words::{Place, Space, Watched, Width};
use std::alloc::Allocator;
use std::io::Write;

/// Appends the text of the list of `count` elements of this `width` at `start` to `text`. The elements are neither
/// pointers nor structs. The mark that `emitter` puts before the list is already written.
pub fn show_list<S: Space, W: Write, A: Allocator, E: Emitter>(
    text: &mut Vec<u8, A>,
    writer: &mut Watched<W>,
    emitter: &E,
    space: &S,
    start: Place,
    width: Width,
    count: u32,
    level: u32,
) -> Result<(), Broken>
    requires message { IsMessage (S.message space.now) }
    requires of { E.is_of emitter.now (S.message space.now) }
    requires content { IsContent (S.message space.now) start (content_words width count) }
    requires plain { IsPlain width }
    requires room { level + 1 < 2 ^ 32 }
    ensures shown { OnOk result ((pads : ℕ)
        → IsFoundEmitted (S.message space.now) (E.rule emitter.now) level (E.path emitter.now)
        (targets.Content start.segment start.word (shapes.Many width count) pads)
        (Adds (outgoing W.contents writer.old text.old.items) (outgoing W.contents writer.new text.new.items))) }
    ensures cut { IfErr result (λ e. (pads : ℕ)
        → IsFoundEmitted (S.message space.now) (E.rule emitter.now) level (E.path emitter.now)
        (targets.Content start.segment start.word (shapes.Many width count) pads)
        (BreaksOff (outgoing W.contents writer.old text.old.items) (outgoing W.contents writer.new text.new.items) e)) }
{
    let below = level + 1;
    match width {
        Width::W0 => emitter.put_piece(text, writer, level, Piece::Voids(count)),
        Width::W1 => {
            emitter.put_piece(text, writer, level, Piece::Bits(count))?;
            show_bits(text, writer, emitter, space, start, count, below)
        }
        Width::W8 => show_byte_list(text, writer, emitter, space, start, count, level),
        Width::W16 => {
            emitter.put_piece(text, writer, level, Piece::Pairs(count))?;
            show_numbers(text, writer, emitter, space, start, width, count, below)
        }
        Width::W32 => {
            emitter.put_piece(text, writer, level, Piece::Quads(count))?;
            show_numbers(text, writer, emitter, space, start, width, count, below)
        }
        Width::W64 => {
            emitter.put_piece(text, writer, level, Piece::Octs(count))?;
            show_numbers(text, writer, emitter, space, start, width, count, below)
        }
        Width::Link | Width::Rows => unreachable!(),
    }
}
