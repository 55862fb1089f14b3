//! The text with marks of the value at a path of numbers from the root.

ghost use Rattle.std.specs.Prelude.{◌≡◌, [], ◌∷◌, ◌+◌, ◌*◌, ◌<◌, ◌^◌, IfErr, IfOk, IfSome, OnOk, if◌then◌else◌};
ghost use Rattle.capn_words.specs.Message.{IsMessage, IsPlace};
ghost use Rattle.capn_value.specs.Tree.{Tree};
ghost use Rattle.capn_walk.specs.Accepted.{root};
ghost use Rattle.capn_walk.specs.ValueAt.{IsAt};
ghost use Rattle.capn_target.specs.Shapes.{IsContent, IsInMessage};
ghost use Rattle.capn_show.specs.declared.fault.Broken.TheVariants as broken;
ghost use Rattle.capn_marks.specs.MarkedPart.{marked_at, none_line};
ghost use Rattle.capn_show.specs.Outgoing.{Adds, BreaksOff, outgoing};
ghost use Rattle.capn_show.specs.Written.{IsWritten, IsUnwritten};
ghost use Rattle.capn_marks.specs.MarkedPlaces.{IsLed, IsLedMarked, IsPartMarked, IsThereMarked, CountsBefore};
ghost use Rattle.capn_show.specs.ReadyPlaces.{Holds, IsFound, IsReady};

use crate::annotated::Annotated;
use crate::marks::{Marks, push_number};
use crate::starts::words_before;
use capn_show::{
    Broken, Emitter, Part, ShowFault, fault_of, named, plain_line, put, show_found, step_down,
};
use capn_walk::laws::values;
use capn_walk::{Limits, survey};
use capn_words::{Place, Space, Watched};
use std::alloc::Allocator;
use std::io::Write;

/// Appends to `text` the text of the value to which the numbers `path` lead from the root of `message`. Each line has
/// `marks` before it.
///
/// Without the marks, the text is what `capn_show::show_part` writes in lines. The message is surveyed within `limits`
/// first. The caller can use one `text` for several calls. Whenever `text` has 65,536 bytes or more, it is written to
/// `writer` and emptied. The path to the current value is allocated on `alloc`. If the message has several segments, a
/// vector with 4 bytes for each segment is allocated too.
pub fn show_marked<S: Space, W: Write, A: Allocator + Copy>(
    alloc: A,
    text: &mut Vec<u8, A>,
    writer: &mut Watched<W>,
    message: &S,
    limits: Limits,
    marks: Marks,
    path: &[u64],
) -> Result<(), ShowFault>
    // If `result` is `Ok`, the message is accepted, and the text of the value at `path` was added.
    ensures shown { OnOk result (IsWritten (S.message message.now) limits
        (marked_at (S.message message.now) marks path.now)
        (outgoing W.contents writer.old text.old.items) (outgoing W.contents writer.new text.new.items)) }
    // If `result` is `Stopped`, the message is refused, its field is the stop of the walk, and nothing was added. If
    // `result` is `Io` or `Memory`, the message is accepted, and the text breaks off: the writer failed, or an
    // allocation was refused.
    ensures refused { IfErr result (λ fault. IsUnwritten (S.message message.now) limits
        (marked_at (S.message message.now) marks path.now) fault
        (outgoing W.contents writer.old text.old.items) (outgoing W.contents writer.new text.new.items)) }
{
    values();
    let _bounds = message.segments();
    survey(alloc, message, limits)?;
    match mark_part(alloc, text, writer, message, &marks, path, limits.depth()) {
        Ok(()) => Ok(()),
        Err(broken) => Err(fault_of(broken)),
    }
}

/// Appends to `text` the text with `marks` of the value to which `numbers` lead from the root. If `numbers` lead to no
/// value, the line `none` is appended.
fn mark_part<S: Space, W: Write, A: Allocator + Copy>(
    alloc: A,
    text: &mut Vec<u8, A>,
    writer: &mut Watched<W>,
    space: &S,
    marks: &Marks,
    numbers: &[u64],
    depth: u32,
) -> Result<(), Broken>
    requires message { IsMessage (S.message space.now) }
    requires place { IsPlace (S.message space.now) root }
    requires ready { IsReady (S.message space.now) root depth }
    requires room { 2 * depth < 2 ^ 32 }
    ensures shown { OnOk result (IsPartMarked (S.message space.now) marks.now numbers.now (Adds
        (outgoing W.contents writer.old text.old.items) (outgoing W.contents writer.new text.new.items))) }
    ensures cut { IfErr result (λ e. IsPartMarked (S.message space.now) marks.now numbers.now (BreaksOff
        (outgoing W.contents writer.old text.old.items) (outgoing W.contents writer.new text.new.items) e)) }
{
    if space.segments() == 1 {
        return mark_counted(alloc, text, writer, space, &[0], marks, numbers, depth);
    }
    let Ok(before) = words_before(alloc, space) else {
        return Err(Broken::Memory);
    };
    mark_counted(alloc, text, writer, space, &before, marks, numbers, depth)
}

/// Appends to `text` the text with `marks` of the value to which `numbers` lead from the root. If `numbers` lead to no
/// value, the line `none` is appended. Element `s` of `before` is the number of words before segment `s`.
fn mark_counted<S: Space, W: Write, A: Allocator>(
    alloc: A,
    text: &mut Vec<u8, A>,
    writer: &mut Watched<W>,
    space: &S,
    before: &[u32],
    marks: &Marks,
    numbers: &[u64],
    depth: u32,
) -> Result<(), Broken>
    requires message { IsMessage (S.message space.now) }
    requires counts { CountsBefore (S.message space.now) before.now }
    requires place { IsPlace (S.message space.now) root }
    requires ready { IsReady (S.message space.now) root depth }
    requires room { 2 * depth < 2 ^ 32 }
    ensures shown { OnOk result (IsPartMarked (S.message space.now) marks.now numbers.now (Adds
        (outgoing W.contents writer.old text.old.items) (outgoing W.contents writer.new text.new.items))) }
    ensures cut { IfErr result (λ e. IsPartMarked (S.message space.now) marks.now numbers.now (BreaksOff
        (outgoing W.contents writer.old text.old.items) (outgoing W.contents writer.new text.new.items) e)) }
{
    let mut path = Vec::new(alloc);
    match lead(&mut path, space, numbers) {
        Ok(found) => {
            let marks = *marks;
            let mut annotated = Annotated {
                marks,
                before,
                path,
            };
            mark_led(text, writer, &mut annotated, space, found, depth)
        }
        Err(broken) => Err(broken),
    }
}

/// Appends to `text` the text with marks of the value `found`, or the line `none` if `found` is `None`. The path of
/// `annotated` leads to the value.
fn mark_led<S: Space, W: Write, A: Allocator>(
    text: &mut Vec<u8, A>,
    writer: &mut Watched<W>,
    annotated: &mut Annotated<A>,
    space: &S,
    found: Option<Part>,
    depth: u32,
) -> Result<(), Broken>
    requires message { IsMessage (S.message space.now) }
    requires counts { CountsBefore (S.message space.now) annotated.old.before.now }
    requires place { IfSome found (λ p. IsContent (S.message space.now) p.at 0) }
    requires inside { IfSome found (λ p. IsInMessage (S.message space.now) p.found) }
    requires ready { IfSome found (λ p. IsFound (S.message space.now) p.found depth) }
    requires room { 2 * depth < 2 ^ 32 }
    ensures shown { OnOk result
        (IsLedMarked (S.message space.now) annotated.old.marks annotated.old.path.items found (Adds
        (outgoing W.contents writer.old text.old.items) (outgoing W.contents writer.new text.new.items))) }
    ensures cut { IfErr result (λ e.
        IsLedMarked (S.message space.now) annotated.old.marks annotated.old.path.items found (BreaksOff
        (outgoing W.contents writer.old text.old.items) (outgoing W.contents writer.new text.new.items) e)) }
{
    match found {
        Some(part) => mark_there(text, writer, annotated, space, part, depth),
        None => mark_none(text, writer, &annotated.marks),
    }
}

/// Follows `numbers` from the root, and writes each number that leads to a value to `path`, which is empty at first.
/// Returns the value to which `numbers` lead, or `None` if a number leads nowhere.
fn lead<S: Space, A: Allocator>(
    path: &mut Vec<u8, A>,
    space: &S,
    numbers: &[u64],
) -> Result<Option<Part>, Broken>
    requires message { IsMessage (S.message space.now) }
    requires place { IsPlace (S.message space.now) root }
    requires value { Holds (S.message space.now) root }
    requires empty { path.old.items ≡ [] }
    ensures inside { IfOk result (λ found. IfSome found (λ p. IsInMessage (S.message space.now) p.found)) }
    ensures counts { IfOk result (λ found. IfSome found (λ p. IsContent (S.message space.now) p.at 0)) }
    ensures there { IfOk result (λ found. (v : Tree) → IsAt (S.message space.now) root v
        → IsLed (S.message space.now) numbers.now v path.new.items found) }
    ensures memory { IfErr result (λ e. e ≡ broken.Memory) }
{
    let found = named(space, Place::ROOT);
    let mut part = Part {
        at: Place::ROOT,
        found,
    };
    for i in 0..numbers.len() {
        match step_down(space, part.found, numbers[i]) {
            Some(next) => part = next,
            None => return Ok(None),
        }
        push_number(path, numbers[i])?;
    }
    Ok(Some(part))
}

/// Appends the text of the value `part`, with marks, to `text`. The path of `annotated` leads to the value.
fn mark_there<S: Space, W: Write, A: Allocator>(
    text: &mut Vec<u8, A>,
    writer: &mut Watched<W>,
    annotated: &mut Annotated<A>,
    space: &S,
    part: Part,
    depth: u32,
) -> Result<(), Broken>
    requires message { IsMessage (S.message space.now) }
    requires counts { CountsBefore (S.message space.now) annotated.old.before.now }
    requires place { IsContent (S.message space.now) part.at 0 }
    requires inside { IsInMessage (S.message space.now) part.found }
    requires ready { IsFound (S.message space.now) part.found depth }
    requires room { 2 * depth < 2 ^ 32 }
    ensures shown { OnOk result
        (IsThereMarked (S.message space.now) annotated.old.marks annotated.old.path.items part.at part.found (Adds
        (outgoing W.contents writer.old text.old.items) (outgoing W.contents writer.new text.new.items))) }
    ensures cut { IfErr result (λ e.
        IsThereMarked (S.message space.now) annotated.old.marks annotated.old.path.items part.at part.found
        (BreaksOff
        (outgoing W.contents writer.old text.old.items) (outgoing W.contents writer.new text.new.items) e)) }
{
    let byte = annotated.byte_of(space, part.at);
    annotated.put_mark(text, writer, 0, byte)?;
    show_found(text, writer, annotated, space, part.found, 0, depth)
}

/// Appends a tab to `text` if `marked` is true.
fn put_tab<W: Write, A: Allocator>(
    text: &mut Vec<u8, A>,
    writer: &mut Watched<W>,
    marked: bool,
) -> Result<(), Broken>
    ensures shown { OnOk result (Adds (outgoing W.contents writer.old text.old.items)
        (outgoing W.contents writer.new text.new.items) (if marked then 9 ∷ [] else [])) }
    ensures cut { IfErr result (λ e. BreaksOff (outgoing W.contents writer.old text.old.items)
        (outgoing W.contents writer.new text.new.items) e (if marked then 9 ∷ [] else [])) }
{
    if marked {
        put(text, writer, b"\t")
    } else {
        Ok(())
    }
}

/// Appends the line `none` to `text`, and before it a tab for each kind of mark that `marks` asks for.
fn mark_none<W: Write, A: Allocator>(
    text: &mut Vec<u8, A>,
    writer: &mut Watched<W>,
    marks: &Marks,
) -> Result<(), Broken>
    ensures shown { OnOk result (Adds (outgoing W.contents writer.old text.old.items)
        (outgoing W.contents writer.new text.new.items) (none_line marks.now)) }
    ensures cut { IfErr result (λ e. BreaksOff (outgoing W.contents writer.old text.old.items)
        (outgoing W.contents writer.new text.new.items) e (none_line marks.now)) }
{
    put_tab(text, writer, marks.offsets)?;
    put_tab(text, writer, marks.ways)?;
    plain_line(text, writer, 0, "none")
}
