//! Runs over exactly one message: the complete input is its frame.

ghost use Rattle.std.specs.Prelude.{◌≡◌, ◌≤◌, false};
ghost use Rattle.capn_words.specs.Message.{most_message_words};
ghost use Rattle.capn_words.specs.Watched.{inner_of, has_failed};
ghost use Rattle.capn_serve.specs.StreamRun.{start};
ghost use Rattle.capn_commands.specs.CommandRun.{Runs};
ghost use Rattle.capn_commands.specs.OneMessage.{RefusesOne, Writes, WritesOne};
ghost use Rattle.capn_commands.specs.WholeRun.{RunsWhole};
ghost use Rattle.capn_commands.specs.inner.OneServing.{RefusesFrame, ServesWhole, WritesFrame};
ghost use Rattle.capn_commands.specs.declared.plan.Plan.TheVariants as plans;
ghost use Rattle.capn_commands.specs.declared.plan.Whole.TheVariants as wholes;

use crate::fault::ToolFault;
use crate::message_texts::MessageTexts;
use crate::plan::MessageText;
use crate::whole_input::{START, read_frame};
use capn_canon::Refusal;
use capn_serve::{ServeFault, Service, StreamForm};
use capn_stream::first;
use capn_walk::Limits;
use capn_words::{Space, Watched};
use std::alloc::Allocator;
use std::io::{Read, Write};

/// Serves `message`, whose bytes are `frame`, and writes all of the output.
fn serve_message<M: Space, S: Service + Drop, W: Write, A: Allocator + Copy>(
    alloc: A,
    service: S,
    frame: &[u8],
    message: &M,
    writer: &mut Watched<W>,
) -> Result<(), ToolFault>
    requires { has_failed writer.old ≡ false }
    ensures { ServesWhole (Writes S.serves service frame.now (M.message message.now))
        (S.refuses service start frame.now (M.message message.now))
        (W.contents (inner_of writer.old)) (W.contents (inner_of writer.new)) (has_failed writer.new) result }
{
    let mut service = service;
    let mut text = Vec::new(alloc);
    match service.serve(alloc, START, frame, message, &mut text, writer) {
        Ok(()) => match writer.write_all(&text) {
            Ok(()) => Ok(()),
            Err(_) => Err(ToolFault::Io),
        },
        Err(ServeFault::Memory) => Err(ToolFault::Memory),
        Err(ServeFault::Io) => Err(ToolFault::Io),
        Err(ServeFault::Refused(refusal)) => Err(ToolFault::Refused(refusal)),
    }
}

/// Serves the message in `frame`, and writes all of the output. Bytes after the message are refused.
fn serve_frame<S: Service + Drop, W: Write, A: Allocator + Copy>(
    alloc: A,
    service: S,
    most: u32,
    frame: &[u8],
    writer: &mut Watched<W>,
) -> Result<(), ToolFault>
    requires small { most ≤ most_message_words }
    requires fine { has_failed writer.old ≡ false }
    ensures { ServesWhole (WritesFrame (Writes S.serves service) most frame.now)
        (RefusesFrame (S.refuses service start) most frame.now)
        (W.contents (inner_of writer.old)) (W.contents (inner_of writer.new)) (has_failed writer.new) result }
{
    match first(alloc, frame, most) {
        Ok((message, taken)) => {
            if taken < frame.len() {
                return Err(ToolFault::Refused(Refusal::Trailing(taken as u64)));
            }
            serve_message(alloc, service, frame, &message, writer)
        }
        Err(fault) => Err(ToolFault::from(Refusal::from(fault))),
    }
}

/// Serves the one message of an input, and writes all of the output. The input is the frame of the message, packed or
/// not. A message of more than `most` words is refused.
///
/// All of the input is read first. An input that is not exactly one message is refused with the refusal that
/// [`canonicalise`](capn_canon::canonicalise) gives for the same bytes. Otherwise the service may refuse the message.
/// If the input or its message is refused, nothing is written. `InputTooLong` is returned if the input has more than
/// 2^32 bytes, `Io` if and only if the reader or the writer failed, and `Memory` if an allocation was refused. Of a
/// stream the run holds at most the longest frame and one byte. Of a packed input the run holds at most the words of
/// the longest frame and an unfinished group.
pub fn serve_one<S: Service + Drop, R: Read, W: Write, A: Allocator + Copy>(
    alloc: A,
    service: S,
    form: StreamForm,
    most: u32,
    reader: &mut Watched<R>,
    writer: &mut Watched<W>,
) -> Result<(), ToolFault>
    requires small { most ≤ most_message_words }
    requires reader_fine { has_failed reader.old ≡ false }
    requires writer_fine { has_failed writer.old ≡ false }
    ensures { RunsWhole (WritesOne S.serves S.refuses service most form)
        (RefusesOne S.serves S.refuses service most form)
        (R.remaining (inner_of reader.old)) (R.remaining (inner_of reader.new))
        (W.contents (inner_of writer.old)) (W.contents (inner_of writer.new)) (has_failed reader.new)
        (has_failed writer.new) result }
{
    let frame = read_frame(alloc, reader, form, most)?;
    serve_frame(alloc, service, most, &frame, writer)
}

/// Writes the text, the price or the digest of an input that is one message in a frame.
pub(crate) fn run_framed<R: Read, W: Write, A: Allocator + Copy>(
    alloc: A,
    piece: MessageText,
    form: StreamForm,
    limits: Limits,
    reader: &mut Watched<R>,
    writer: &mut Watched<W>,
) -> Result<(), ToolFault>
    requires reader_fine { has_failed reader.old ≡ false }
    requires writer_fine { has_failed writer.old ≡ false }
    ensures { Runs (plans.Whole (wholes.One piece form limits)) (R.remaining (inner_of reader.old))
        (R.remaining (inner_of reader.new))
        (W.contents (inner_of writer.old)) (W.contents (inner_of writer.new)) (has_failed reader.new)
        (has_failed writer.new) result }
{
    let texts = MessageTexts { piece, limits };
    let most = limits.message_words();
    serve_one(alloc, texts, form, most, reader, writer)
}
