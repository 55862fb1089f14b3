//! The service of `show`, `check` and `hash`, message by message.

ghost use Rattle.std.specs.Prelude.{◌≡◌, List, ℕ, false};
ghost use Rattle.capn_words.specs.Watched.{inner_of, has_failed};
ghost use Rattle.capn_value.specs.Text.{show_text};
ghost use Rattle.capn_show.specs.Outgoing.{outgoing};
ghost use Rattle.capn_show.specs.Style.{end_of};
ghost use Rattle.capn_show.specs.declared.style.Style.TheVariants as styles;
ghost use Rattle.capn_serve.specs.Outgoing as sent;
ghost use Rattle.capn_serve.specs.Service.{DoesService, PutsMessage};
ghost use Rattle.capn_serve.specs.declared.position.Position.{Position};
ghost use Rattle.capn_commands.specs.MessageText.{PutsMessageText};
ghost use Rattle.capn_commands.specs.inner.AddedParts.{AddsPart};
ghost use Rattle.capn_commands.specs.inner.MessageTexts as spec;
ghost use Rattle.capn_commands.specs.declared.plan.MessageText.TheVariants as kinds;
ghost use Rattle.capn_commands.specs.declared.message_texts.MessageTexts.{MessageTexts};

use crate::fault::ToolFault;
use crate::message_text::{put_digest, put_price};
use crate::part_texts::{add_end, fault_of};
use crate::plan::MessageText;
use capn_serve::{Position, Run, ServeFault, Service, flush_long};
use capn_show::show_message;
use capn_walk::Limits;
use capn_words::{Space, Watched};
use std::alloc::Allocator;
use std::io::Write;

/// The service that writes a text for each message, and remembers nothing of earlier messages.
#[derive(Clone, Copy)]
pub struct MessageTexts {
    /// The kind of text that is written for each message.
    pub piece: MessageText,
    /// The limits of a message.
    pub limits: Limits,
}

/// Returns the state of a run before its first message. The run writes the text of the kind `piece` for each message.
pub(crate) fn first_run(piece: MessageText, limits: Limits) -> Run<MessageTexts>
    ensures { result ≡ spec.first_run piece limits }
{
    Run::new(MessageTexts { piece, limits })
}

/// Adds the text of the value of `message`, and the line `end`. A long text is written before it is complete. This
/// function is not inlined, so that the loop over messages stays short for prices.
#[inline(never)]
fn add_shown<S: Space, W: Write, A: Allocator + Copy>(
    alloc: A,
    message: &S,
    limits: Limits,
    text: &mut Vec<u8, A>,
    writer: &mut Watched<W>,
) -> Result<(), ServeFault>
    requires fine { has_failed writer.old ≡ false }
    ensures { AddsPart (S.message message.now) limits show_text (end_of styles.Lines)
        (outgoing W.contents writer.old text.old.items) (outgoing W.contents writer.new text.new.items) result }
{
    match show_message(alloc, text, writer, message, limits) {
        Ok(()) => add_end(b"end\n", text, writer),
        Err(fault) => Err(fault_of(fault)),
    }
}

/// Maps the fault of one message's text to a `ServeFault`.
fn served_fault(fault: ToolFault) -> ServeFault
    ensures { result ≡ spec.served_fault fault }
{
    match fault {
        ToolFault::Refused(refusal) => ServeFault::Refused(refusal),
        ToolFault::Memory | ToolFault::Io | ToolFault::InputTooLong | ToolFault::NotWhole(_) => {
            ServeFault::Memory
        }
    }
}

/// Maps `put`, the outcome of appending a message's text, to the outcome of serving the message.
#[inline(always)]
fn served(put: Result<(), ToolFault>) -> Result<(), ServeFault>
    ensures { (s : MessageTexts) (at : Position) (frame : List ℕ) (message : List (List ℕ)) (old new : List ℕ)
        → PutsMessageText s.piece message s.limits old new put
        → PutsMessage spec.serves spec.refuses s at frame message old new result s }
{
    match put {
        Ok(()) => Ok(()),
        Err(fault) => Err(served_fault(fault)),
    }
}

/// Maps `put`, the outcome of appending a message's text, to the outcome of serving the message. If `put` is `Ok`,
/// writes a `text` of at least 65,536 bytes.
#[inline(always)]
fn end_piece<W: Write, A: Allocator>(
    put: Result<(), ToolFault>,
    text: &mut Vec<u8, A>,
    writer: &mut Watched<W>,
) -> Result<(), ServeFault>
    requires fine { has_failed writer.old ≡ false }
    ensures { (s : MessageTexts) (at : Position) (frame : List ℕ) (message : List (List ℕ)) (before : List ℕ)
        → PutsMessageText s.piece message s.limits before text.old.items put
        → DoesService spec.serves spec.refuses s at frame message
        (sent.outgoing (W.contents (inner_of writer.old)) before)
        (sent.outgoing (W.contents (inner_of writer.new)) text.new.items) (has_failed writer.new) result s }
{
    served(put)?;
    flush_long(text, writer)
}

/// Adds the digest line of `message` for `service`. This function is not inlined, so that the loop over messages stays
/// short for prices.
#[inline(never)]
fn add_digest<S: Space, W: Write, A: Allocator + Copy>(
    alloc: A,
    service: MessageTexts,
    message: &S,
    text: &mut Vec<u8, A>,
    writer: &mut Watched<W>,
) -> Result<(), ServeFault>
    requires fine { has_failed writer.old ≡ false }
    requires digest { service.piece ≡ kinds.Digest }
    ensures { (at : Position) (frame : List ℕ)
        → DoesService spec.serves spec.refuses service at frame (S.message message.now)
        (sent.outgoing (W.contents (inner_of writer.old)) text.old.items)
        (sent.outgoing (W.contents (inner_of writer.new)) text.new.items) (has_failed writer.new) result service }
{
    let put = put_digest(alloc, message, service.limits, text);
    end_piece(put, text, writer)
}

impl Service for MessageTexts {
    ghost use Rattle.capn_serve.specs.Fold.{never};
    ghost use Rattle.capn_commands.specs.inner.MessageTexts as spec;

    ghost serves = { spec.serves };

    ghost refuses = { spec.refuses };

    ghost done = { never };

    #[inline(always)]
    fn is_done(&self, _at: Position) -> bool {
        false
    }

    #[inline(always)]
    fn serve<S: Space, W: Write, A: Allocator + Copy>(
        &mut self,
        alloc: A,
        _at: Position,
        _frame: &[u8],
        message: &S,
        text: &mut Vec<u8, A>,
        writer: &mut Watched<W>,
    ) -> Result<(), ServeFault> {
        match self.piece {
            MessageText::Text => add_shown(alloc, message, self.limits, text, writer),
            MessageText::Price => {
                let put = put_price(alloc, message, self.limits, text);
                end_piece(put, text, writer)
            }
            MessageText::Digest => add_digest(alloc, *self, message, text, writer),
        }
    }
}
