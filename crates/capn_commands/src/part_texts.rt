//! The service of `show`, and the end of its runs. The service writes the value at a path of each message, in a style
//! or in lines with offsets or paths.

ghost use Rattle.std.specs.Prelude.{◌≡◌, ◌||◌, false};
ghost use Rattle.capn_words.specs.Message.{total};
ghost use Rattle.capn_words.specs.Watched.{has_failed};
ghost use Rattle.capn_marks.specs.MarkedPart.{marked_at};
ghost use Rattle.capn_show.specs.Outgoing.{outgoing};
ghost use Rattle.capn_show.specs.Style.{end_of, styled};
ghost use Rattle.capn_commands.specs.MessageMarks as marking;
ghost use Rattle.capn_commands.specs.PartTexts as spec;
ghost use Rattle.capn_commands.specs.inner.AddedParts.{AddsEnd, AddsPart, IsFaultOf};

use crate::message_marks::{add_marked_end, marks_of};
use capn_canon::{Form, Refusal};
use capn_marks::{Marks, show_marked};
use capn_serve::{Begun, Finish, Position, RunFault, ServeFault, Service, flush_long};
use capn_show::{ShowFault, Style, show_part};
use capn_walk::Limits;
use capn_words::{Space, Watched, total_words};
use std::alloc::Allocator;
use std::io::Write;

/// The service that writes, for each message of an input, the text of the value at a path, and then a line `end` unless
/// the text is JSON. A message that exceeds the limits is refused.
#[derive(Drop)]
pub struct PartTexts<'w> {
    /// The numbers of the path.
    pub path: &'w [u64],
    /// The encoding of the input.
    pub form: Form,
    /// The limits of a message.
    pub limits: Limits,
    /// The style of the text. With offsets or paths, lines are written even if the style is JSON.
    pub style: Style,
    /// True if each line of a value begins with the byte offset of the slot, row, word or elements that the line shows.
    pub offsets: bool,
    /// True if each line of a value begins, after any offset, with the path to the slot or row of that line.
    pub ways: bool,
}

/// Maps the fault of a message that is refused, or whose text is not complete, to a `ServeFault`.
pub(crate) fn fault_of(fault: ShowFault) -> ServeFault
    ensures { IsFaultOf fault result }
{
    match fault {
        ShowFault::Stopped(stopped) => ServeFault::Refused(Refusal::Walk(stopped)),
        ShowFault::Io => ServeFault::Io,
        ShowFault::Memory => ServeFault::Memory,
    }
}

/// Appends `end` to `text`, or nothing if an allocation is refused. Writes `text` if `text` then has at least
/// 65,536 bytes.
pub(crate) fn add_end<W: Write, A: Allocator>(
    end: &[u8],
    text: &mut Vec<u8, A>,
    writer: &mut Watched<W>,
) -> Result<(), ServeFault>
    requires fine { has_failed writer.old ≡ false }
    ensures { AddsEnd end.now (outgoing W.contents writer.old text.old.items)
        (outgoing W.contents writer.new text.new.items) result }
{
    text.extend_from_slice(end)?;
    flush_long(text, writer)
}

/// Adds the text of the value at `path` from a message's root, in `style`, and the line `end` if the style has one. A
/// long text is written before it is complete.
fn add_part<S: Space, W: Write, A: Allocator + Copy>(
    alloc: A,
    message: &S,
    limits: Limits,
    style: Style,
    path: &[u64],
    text: &mut Vec<u8, A>,
    writer: &mut Watched<W>,
) -> Result<(), ServeFault>
    requires fine { has_failed writer.old ≡ false }
    ensures { AddsPart (S.message message.now) limits (styled style path.now) (end_of style)
        (outgoing W.contents writer.old text.old.items) (outgoing W.contents writer.new text.new.items) result }
{
    match show_part(alloc, text, writer, message, limits, style, path) {
        Ok(()) => add_end(style.end(), text, writer),
        Err(fault) => Err(fault_of(fault)),
    }
}

/// Adds the text of the value at `path` from a message's root, with `marks`, and then the line `end`.
fn add_marked<S: Space, W: Write, A: Allocator + Copy>(
    alloc: A,
    message: &S,
    limits: Limits,
    marks: Marks,
    path: &[u64],
    text: &mut Vec<u8, A>,
    writer: &mut Watched<W>,
) -> Result<(), ServeFault>
    requires fine { has_failed writer.old ≡ false }
    ensures { AddsPart (S.message message.now) limits (marked_at (S.message message.now) marks path.now)
        (marking.marked_end marks (total (S.message message.now))) (outgoing W.contents writer.old text.old.items)
        (outgoing W.contents writer.new text.new.items) result }
{
    match show_marked(alloc, text, writer, message, limits, marks, path) {
        Ok(()) => add_marked_end(alloc, marks, total_words(message), text, writer),
        Err(fault) => Err(fault_of(fault)),
    }
}

/// Tests whether `texts` asks for offsets or paths.
fn has_marks(texts: &PartTexts) -> bool
    ensures { result ≡ (texts.now.offsets || texts.now.ways) }
{
    texts.offsets || texts.ways
}

/// Adds the text of the value at `texts.path` from the message's root: with marks if `texts` asks for offsets or paths,
/// and otherwise in `texts.style`. Then adds the line `end`, except after JSON.
fn add_text<S: Space, W: Write, A: Allocator + Copy>(
    alloc: A,
    texts: &PartTexts,
    at: Position,
    message: &S,
    text: &mut Vec<u8, A>,
    writer: &mut Watched<W>,
) -> Result<(), ServeFault>
    requires fine { has_failed writer.old ≡ false }
    ensures { AddsPart (S.message message.now) texts.now.limits (spec.part_of texts.now at (S.message message.now))
        (spec.part_end texts.now at (S.message message.now)) (outgoing W.contents writer.old text.old.items)
        (outgoing W.contents writer.new text.new.items) result }
{
    let (limits, path) = (texts.limits, texts.path);
    if has_marks(texts) {
        let marks = marks_of(texts, at, message);
        add_marked(alloc, message, limits, marks, path, text, writer)
    } else {
        add_part(alloc, message, limits, texts.style, path, text, writer)
    }
}

impl<'w> Service for PartTexts<'w> {
    ghost use Rattle.capn_commands.specs.PartTexts as spec;
    ghost use Rattle.capn_serve.specs.Fold.{never};

    ghost serves = { spec.serves };

    ghost refuses = { spec.refuses };

    ghost done = { never };

    #[inline(always)]
    fn is_done(&self, _at: Position) -> bool {
        false
    }

    fn serve<S: Space, W: Write, A: Allocator + Copy>(
        &mut self,
        alloc: A,
        at: Position,
        _frame: &[u8],
        message: &S,
        text: &mut Vec<u8, A>,
        writer: &mut Watched<W>,
    ) -> Result<(), ServeFault> {
        add_text(alloc, self, at, message, text, writer)
    }
}

impl<'w> Finish for PartTexts<'w> {
    ghost use Rattle.capn_serve.specs.Finish.{no_closing, nothing_found, nothing_told, same_fault};

    type Found = ();

    type Fault = RunFault;

    ghost closing = { no_closing };

    ghost told = { nothing_told };

    ghost outcome = { nothing_found };

    ghost stops = { same_fault };

    fn write_closing<W: Write, A: Allocator + Copy>(
        &self,
        _alloc: A,
        _at: Position,
        _writer: &mut Watched<W>,
    ) -> Result<(), RunFault> {
        Ok(())
    }

    fn write_told<W: Write, A: Allocator + Copy>(
        &self,
        _alloc: A,
        _at: Position,
        _refusal: &Refusal,
        _begun: &Begun<A>,
        _writer: &mut Watched<W>,
    ) -> Result<(), RunFault> {
        Ok(())
    }

    fn outcome(&self, _at: Position) -> Result<(), RunFault> {
        Ok(())
    }

    fn stops(&self, _at: Position, stopped: RunFault) -> RunFault {
        stopped
    }
}
