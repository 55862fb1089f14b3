//! The walk that writes the text of the value in a slot, with everything below the value.

ghost use Rattle.std.specs.Prelude.{◌≡◌, ℕ, ◌<◌, ◌+◌, ◌*◌, ◌^◌, IfErr, OnOk};
ghost use Rattle.capn_words.specs.Message.{IsMessage, IsPlace};
ghost use Rattle.capn_target.specs.Shapes.{IsContent, IsInMessage};
ghost use Rattle.capn_show.specs.Outgoing.{Adds, BreaksOff, outgoing};
ghost use Rattle.capn_show.specs.EmittedPlaces.{IsBodyEmitted, IsEmitted, IsFoundEmitted, Keeps};
ghost use Rattle.capn_show.specs.ReadyPlaces.{IsBody, IsFound, IsReady};

use crate::emitter::Emitter;
use crate::fault::Broken;
use crate::lists::show_list;
use crate::numbers::show_words;
use crate::piece::Piece;
use crate::rows::{Size, show_rows, show_slots};
use capn_walk::laws::views_show_values;
use capn_walk::{Shape, Target, resolve};
use capn_words::{Place, Space, Watched, Width};
use std::alloc::Allocator;
use std::io::Write;

/// Appends the mark and the text of the value in the slot at `at` to `text`, at this `level`. The slot has this
/// `number` in its object, and the path of `emitter` already leads to the slot.
#[cycle(slots)]
#[inline(always)]
pub fn show_slot<S: Space, W: Write, A: Allocator, E: Emitter>(
    text: &mut Vec<u8, A>,
    writer: &mut Watched<W>,
    emitter: &mut E,
    space: &S,
    number: u32,
    at: Place,
    level: u32,
    depth: u32,
) -> Result<(), Broken>
    requires message { IsMessage (S.message space.now) }
    requires of { E.is_of emitter.old (S.message space.now) }
    requires place { IsPlace (S.message space.now) at }
    requires ready { IsReady (S.message space.now) at depth }
    requires room { level + 2 * depth < 2 ^ 32 }
    ensures shown { OnOk result
        (IsEmitted (S.message space.now) (E.rule emitter.old) level number (E.path emitter.old) at
        (Adds (outgoing W.contents writer.old text.old.items) (outgoing W.contents writer.new text.new.items))) }
    ensures cut { IfErr result (λ e.
        IsEmitted (S.message space.now) (E.rule emitter.old) level number (E.path emitter.old) at
        (BreaksOff (outgoing W.contents writer.old text.old.items) (outgoing W.contents writer.new text.new.items) e)) }
    ensures kept { OnOk result (Keeps E.rule E.path E.is_of emitter.old emitter.new) }
{
    let byte = emitter.byte_of(space, at);
    emitter.put_mark(text, writer, number, byte)?;
    views_show_values();
    match resolve(space, at) {
        Ok(found) => show_found(text, writer, emitter, space, found, level, depth),
        // The precondition says that there is a value at `at`, so the pointer has a target.
        Err(_) => unreachable!(),
    }
}

/// Appends the text of the value with the target `found` to `text`, at this `level`. The mark that `emitter` puts
/// before the value is already written, and the path of `emitter` leads to the value.
#[cycle(slots)]
#[inline(always)]
pub fn show_found<S: Space, W: Write, A: Allocator, E: Emitter>(
    text: &mut Vec<u8, A>,
    writer: &mut Watched<W>,
    emitter: &mut E,
    space: &S,
    found: Target,
    level: u32,
    depth: u32,
) -> Result<(), Broken>
    requires message { IsMessage (S.message space.now) }
    requires of { E.is_of emitter.old (S.message space.now) }
    requires inside { IsInMessage (S.message space.now) found }
    requires ready { IsFound (S.message space.now) found depth }
    requires room { level + 2 * depth < 2 ^ 32 }
    ensures shown { OnOk result
        (IsFoundEmitted (S.message space.now) (E.rule emitter.old) level (E.path emitter.old) found
        (Adds (outgoing W.contents writer.old text.old.items) (outgoing W.contents writer.new text.new.items))) }
    ensures cut { IfErr result (λ e.
        IsFoundEmitted (S.message space.now) (E.rule emitter.old) level (E.path emitter.old) found
        (BreaksOff (outgoing W.contents writer.old text.old.items) (outgoing W.contents writer.new text.new.items) e)) }
    ensures kept { OnOk result (Keeps E.rule E.path E.is_of emitter.old emitter.new) }
{
    match found {
        Target::Nil => emitter.put_piece(text, writer, level, Piece::Nil),
        Target::Cap(index) => emitter.put_piece(text, writer, level, Piece::Cap(index)),
        Target::Content {
            segment,
            start,
            shape,
            pads: _,
        } => {
            let start = Place {
                segment,
                word: start,
            };
            match shape {
                Shape::Node { words, slots } => show_body(
                    text,
                    writer,
                    emitter,
                    space,
                    start,
                    Size { words, slots },
                    level,
                    depth - 1,
                ),
                Shape::Many { width, count } => match width {
                    Width::Link => {
                        emitter.put_piece(text, writer, level, Piece::Links(count))?;
                        show_slots(
                            text,
                            writer,
                            emitter,
                            space,
                            start,
                            count,
                            level + 1,
                            depth - 1,
                        )
                    }
                    _ => show_list(text, writer, emitter, space, start, width, count, level),
                },
                Shape::Rows {
                    count,
                    words,
                    slots,
                    span: _,
                } => {
                    emitter.put_piece(text, writer, level, Piece::Rows(count))?;
                    let first = Place {
                        segment,
                        word: start.word + 1,
                    };
                    show_rows(
                        text,
                        writer,
                        emitter,
                        space,
                        first,
                        count,
                        Size { words, slots },
                        level + 1,
                        depth - 1,
                    )
                }
            }
        }
    }
}

/// Appends the text of the struct of this `size` that starts at `start` to `text`, at this `level`. The mark that
/// `emitter` puts before the struct is already written.
#[cycle(slots)]
#[inline(always)]
pub fn show_body<S: Space, W: Write, A: Allocator, E: Emitter>(
    text: &mut Vec<u8, A>,
    writer: &mut Watched<W>,
    emitter: &mut E,
    space: &S,
    start: Place,
    size: Size,
    level: u32,
    depth: u32,
) -> Result<(), Broken>
    requires message { IsMessage (S.message space.now) }
    requires of { E.is_of emitter.old (S.message space.now) }
    requires content { IsContent (S.message space.now) start (size.words + size.slots) }
    requires ready { IsBody (S.message space.now) start.segment start.word size.words size.slots depth }
    requires room { level + 1 + 2 * depth < 2 ^ 32 }
    ensures shown { OnOk result (IsBodyEmitted (S.message space.now) (E.rule emitter.old) level (E.path emitter.old)
        start.segment start.word size.words size.slots
        (Adds (outgoing W.contents writer.old text.old.items) (outgoing W.contents writer.new text.new.items))) }
    ensures cut { IfErr result (λ e.
        IsBodyEmitted (S.message space.now) (E.rule emitter.old) level (E.path emitter.old)
        start.segment start.word size.words size.slots
        (BreaksOff (outgoing W.contents writer.old text.old.items) (outgoing W.contents writer.new text.new.items) e)) }
    ensures kept { OnOk result (Keeps E.rule E.path E.is_of emitter.old emitter.new) }
{
    let head = Piece::Body(size.words, size.slots);
    emitter.put_piece(text, writer, level, head)?;
    show_words(text, writer, emitter, space, start, size.words, level + 1)?;
    let first = Place {
        segment: start.segment,
        word: start.word + size.words as u32,
    };
    show_slots(
        text,
        writer,
        emitter,
        space,
        first,
        size.slots as u32,
        level + 1,
        depth,
    )
}
