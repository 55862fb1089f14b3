//! The text of slots that lie one after the other, and of the rows of a list of structs.

ghost use Rattle.std.specs.Prelude.{◌≡◌, ℕ, ◌<◌, ◌+◌, ◌*◌, ◌^◌, IfErr, OnOk};
ghost use Rattle.capn_words.specs.Message.{IsMessage, IsPlace};
ghost use Rattle.capn_target.specs.Shapes.{IsContent};
ghost use Rattle.capn_show.specs.Outgoing.{Adds, BreaksOff, outgoing};
ghost use Rattle.capn_show.specs.EmittedPlaces.{AreEmitted, IsEmitted, IsRowEmitted, Keeps, RowsEmitted};
ghost use Rattle.capn_show.specs.ReadyPlaces.{AreReady, AreRows, IsBody, IsReady};

use crate::emitter::Emitter;
use crate::fault::Broken;
use crate::piece::Piece;
use crate::slots::{show_body, show_slot};
use capn_words::{Place, Space, Watched};
use std::alloc::Allocator;
use std::io::Write;

/// The size of a struct, in words.
#[derive(Clone, Copy)]
pub struct Size {
    /// The number of data words.
    pub words: u16,
    /// The number of slots.
    pub slots: u16,
}

/// Appends the marks and texts of the values in `count` consecutive slots to `text`, and then the piece `EndItems`. The
/// first slot is at `first`.
#[cycle(slots)]
#[inline(always)]
pub fn show_slots<S: Space, W: Write, A: Allocator, E: Emitter>(
    text: &mut Vec<u8, A>,
    writer: &mut Watched<W>,
    emitter: &mut E,
    space: &S,
    first: Place,
    count: u32,
    level: u32,
    depth: u32,
) -> Result<(), Broken>
    requires message { IsMessage (S.message space.now) }
    requires of { E.is_of emitter.old (S.message space.now) }
    requires content { IsContent (S.message space.now) first count }
    requires ready { AreReady (S.message space.now) first.segment first.word count depth }
    requires room { level + 2 * depth < 2 ^ 32 }
    ensures shown { OnOk result (AreEmitted (S.message space.now) (E.rule emitter.old) level (E.path emitter.old)
        first.segment first.word count
        (Adds (outgoing W.contents writer.old text.old.items) (outgoing W.contents writer.new text.new.items))) }
    ensures cut { IfErr result (λ e. AreEmitted (S.message space.now) (E.rule emitter.old) level (E.path emitter.old)
        first.segment first.word count
        (BreaksOff (outgoing W.contents writer.old text.old.items) (outgoing W.contents writer.new text.new.items) e)) }
    ensures kept { OnOk result (Keeps E.rule E.path E.is_of emitter.old emitter.new) }
{
    for i in 0..count {
        let at = Place {
            segment: first.segment,
            word: first.word + i,
        };
        show_below(text, writer, emitter, space, i, at, level, depth)?;
    }
    emitter.put_piece(text, writer, level, Piece::EndItems)
}

/// Appends the mark and the text of the value in the slot at `at` to `text`. The slot has this `number` in its object,
/// and `number` ends the path of `emitter` while the value is written.
#[cycle(slots)]
fn show_below<S: Space, W: Write, A: Allocator, E: Emitter>(
    text: &mut Vec<u8, A>,
    writer: &mut Watched<W>,
    emitter: &mut E,
    space: &S,
    number: u32,
    at: Place,
    level: u32,
    depth: u32,
) -> Result<(), Broken>
    requires message { IsMessage (S.message space.now) }
    requires of { E.is_of emitter.old (S.message space.now) }
    requires place { IsPlace (S.message space.now) at }
    requires ready { IsReady (S.message space.now) at depth }
    requires room { level + 2 * depth < 2 ^ 32 }
    ensures shown { OnOk result (IsEmitted (S.message space.now) (E.rule emitter.old) level number
        ((E.rule emitter.old).below (E.path emitter.old) number) at
        (Adds (outgoing W.contents writer.old text.old.items) (outgoing W.contents writer.new text.new.items))) }
    ensures cut { IfErr result (λ e. IsEmitted (S.message space.now) (E.rule emitter.old) level number
        ((E.rule emitter.old).below (E.path emitter.old) number) at
        (BreaksOff (outgoing W.contents writer.old text.old.items) (outgoing W.contents writer.new text.new.items) e)) }
    ensures kept { OnOk result (Keeps E.rule E.path E.is_of emitter.old emitter.new) }
{
    let above = emitter.path_length();
    emitter.step_below(number)?;
    show_slot(text, writer, emitter, space, number, at, level, depth)?;
    emitter.step_back(above);
    Ok(())
}

/// Appends the marks and texts of `count` rows of this `size` to `text`, and then the piece `EndItems`. The first row
/// is at `first`.
#[cycle(slots)]
pub fn show_rows<S: Space, W: Write, A: Allocator, E: Emitter>(
    text: &mut Vec<u8, A>,
    writer: &mut Watched<W>,
    emitter: &mut E,
    space: &S,
    first: Place,
    count: u32,
    size: Size,
    level: u32,
    depth: u32,
) -> Result<(), Broken>
    requires message { IsMessage (S.message space.now) }
    requires of { E.is_of emitter.old (S.message space.now) }
    requires content { IsContent (S.message space.now) first (count * (size.words + size.slots)) }
    requires ready { AreRows (S.message space.now) first.segment first.word count size.words size.slots depth }
    requires room { level + 1 + 2 * depth < 2 ^ 32 }
    ensures shown { OnOk result (RowsEmitted (S.message space.now) (E.rule emitter.old) level (E.path emitter.old)
        first.segment first.word count size.words size.slots
        (Adds (outgoing W.contents writer.old text.old.items) (outgoing W.contents writer.new text.new.items))) }
    ensures cut { IfErr result (λ e. RowsEmitted (S.message space.now) (E.rule emitter.old) level (E.path emitter.old)
        first.segment first.word count size.words size.slots
        (BreaksOff (outgoing W.contents writer.old text.old.items) (outgoing W.contents writer.new text.new.items) e)) }
    ensures kept { OnOk result (Keeps E.rule E.path E.is_of emitter.old emitter.new) }
{
    let mut next = first.word;
    for row in 0..count {
        let start = Place {
            segment: first.segment,
            word: next,
        };
        show_row(text, writer, emitter, space, row, start, size, level, depth)?;
        next += size.words as u32 + size.slots as u32;
    }
    emitter.put_piece(text, writer, level, Piece::EndItems)
}

/// Appends the mark and the text of the row that starts at `start` to `text`. The row has this `number` in its list,
/// and `number` ends the path of `emitter` while the row is written.
#[cycle(slots)]
#[inline(always)]
fn show_row<S: Space, W: Write, A: Allocator, E: Emitter>(
    text: &mut Vec<u8, A>,
    writer: &mut Watched<W>,
    emitter: &mut E,
    space: &S,
    number: u32,
    start: Place,
    size: Size,
    level: u32,
    depth: u32,
) -> Result<(), Broken>
    requires message { IsMessage (S.message space.now) }
    requires of { E.is_of emitter.old (S.message space.now) }
    requires content { IsContent (S.message space.now) start (size.words + size.slots) }
    requires ready { IsBody (S.message space.now) start.segment start.word size.words size.slots depth }
    requires room { level + 1 + 2 * depth < 2 ^ 32 }
    ensures shown { OnOk result (IsRowEmitted (S.message space.now) (E.rule emitter.old) level number
        ((E.rule emitter.old).below (E.path emitter.old) number) start.segment start.word size.words size.slots
        (Adds (outgoing W.contents writer.old text.old.items) (outgoing W.contents writer.new text.new.items))) }
    ensures cut { IfErr result (λ e. IsRowEmitted (S.message space.now) (E.rule emitter.old) level number
        ((E.rule emitter.old).below (E.path emitter.old) number) start.segment start.word size.words size.slots
        (BreaksOff (outgoing W.contents writer.old text.old.items) (outgoing W.contents writer.new text.new.items) e)) }
    ensures kept { OnOk result (Keeps E.rule E.path E.is_of emitter.old emitter.new) }
{
    let above = emitter.path_length();
    emitter.step_below(number)?;
    let byte = emitter.byte_of(space, start);
    emitter.put_mark(text, writer, number, byte)?;
    show_body(text, writer, emitter, space, start, size, level, depth)?;
    emitter.step_back(above);
    Ok(())
}
