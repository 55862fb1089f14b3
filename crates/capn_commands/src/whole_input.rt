//! The outputs of commands that read their complete input first.

ghost use Rattle.std.specs.Prelude.{◌≡◌, ◌≤◌, false};
ghost use Rattle.capn_words.specs.Message.{most_message_words};
ghost use Rattle.capn_words.specs.Watched.{inner_of, has_failed};
ghost use Rattle.capn_commands.specs.Plan.{form_of};
ghost use Rattle.capn_commands.specs.inner.OneServing.{HoldsFrame};
ghost use Rattle.capn_commands.specs.inner.ReadInput.{TakesAll};
ghost use Rattle.capn_commands.specs.WholeInput.{Gives};
ghost use Rattle.capn_canon.specs.declared.form.Form.TheVariants as forms;
ghost use Rattle.capn_commands.specs.declared.plan.MessageText.TheVariants as kinds;
ghost use Rattle.capn_commands.specs.declared.plan.Whole.TheVariants as wholes;

use crate::fault::ToolFault;
use crate::message_text::put_verdict;
use crate::pending::read_words;
use capn_canon::{Form, Refusal, canonicalise};
use capn_pack::{PackFault, pack};
use capn_serve::{MOST_INPUT, Position, StreamForm, read_all, read_bare};
use capn_stream::MOST_TABLE_WORDS;
use capn_walk::Limits;
use capn_words::{Bare, Watched};
use std::alloc::Allocator;
use std::io::Read;

/// The position of the one message of an input.
pub(crate) const START: Position = Position {
    index: 0,
    offset: 0,
};

/// Returns the packed text of `bytes`, or `NotWhole` if `bytes` are not complete words.
fn packed<A: Allocator + Copy>(alloc: A, bytes: &[u8]) -> Result<Vec<u8, A>, ToolFault>
    ensures { Gives wholes.Packed bytes.now result }
{
    match pack(alloc, bytes) {
        Ok(text) => Ok(text),
        Err(PackFault::Memory) => Err(ToolFault::Memory),
        Err(PackFault::NotWhole(length)) => Err(ToolFault::NotWhole(length)),
    }
}

/// Returns the verdict line of the bare message `bytes`: the price, the number of visits, and whether the bytes are
/// canonical.
fn verdict<A: Allocator + Copy>(
    alloc: A,
    bytes: &[u8],
    limits: Limits,
) -> Result<Vec<u8, A>, ToolFault>
    ensures { Gives (wholes.Bare kinds.Price limits) bytes.now result }
{
    match Bare::new(bytes) {
        Ok(space) => {
            let mut text = Vec::new(alloc);
            put_verdict(alloc, &space, limits, &mut text)?;
            Ok(text)
        }
        Err(fault) => Err(ToolFault::Refused(Refusal::Bare(fault))),
    }
}

/// Reads all of an input that should be one frame, and returns the bytes that the command may need. For a stream these
/// are the first bytes, at most one byte more than the longest frame of a message of `most` words. For a packed input
/// these are the words that the input unpacks to. A packed input is refused if it unpacks to more words than the
/// longest frame has.
pub(crate) fn read_frame<R: Read, A: Allocator>(
    alloc: A,
    reader: &mut Watched<R>,
    form: StreamForm,
    most: u32,
) -> Result<Vec<u8, A>, ToolFault>
    requires small { most ≤ most_message_words }
    requires fine { has_failed reader.old ≡ false }
    ensures { TakesAll (HoldsFrame form most) (R.remaining (inner_of reader.old))
        (R.remaining (inner_of reader.new)) (has_failed reader.new) result }
{
    let words = most + MOST_TABLE_WORDS;
    match form {
        StreamForm::Stream => {
            let input = read_all(alloc, reader, 8 * words as usize + 1)?;
            Ok(input.bytes)
        }
        StreamForm::Packed => read_words(alloc, reader, words),
    }
}

/// Reads an input that is one message in a frame, and returns the canonical bytes of that message.
fn make_framed<R: Read, A: Allocator + Copy>(
    alloc: A,
    reader: &mut Watched<R>,
    form: StreamForm,
    limits: Limits,
) -> Result<Vec<u8, A>, ToolFault>
    requires { has_failed reader.old ≡ false }
    ensures { TakesAll (Gives (wholes.Canonical (form_of form) limits)) (R.remaining (inner_of reader.old))
        (R.remaining (inner_of reader.new)) (has_failed reader.new) result }
{
    let frame = read_frame(alloc, reader, form, limits.message_words())?;
    let canonical = canonicalise(alloc, Form::Stream, &frame, limits)?;
    Ok(canonical.bytes)
}

/// Reads all of the input of `reader`, and returns the packed text of its words. The complete input is held. `NotWhole`
/// is returned if the number of bytes is no multiple of eight, and `InputTooLong` if that number is above 2^32.
pub fn make_text<R: Read, A: Allocator + Copy>(
    alloc: A,
    reader: &mut Watched<R>,
) -> Result<Vec<u8, A>, ToolFault>
    requires { has_failed reader.old ≡ false }
    ensures { TakesAll (Gives wholes.Packed) (R.remaining (inner_of reader.old)) (R.remaining (inner_of reader.new))
        (has_failed reader.new) result }
{
    let input = read_all(alloc, reader, MOST_INPUT)?;
    packed(alloc, &input.bytes)
}

/// Reads a bare input, which is one message, and returns the canonical bytes of that message.
fn make_trimmed<R: Read, A: Allocator + Copy>(
    alloc: A,
    reader: &mut Watched<R>,
    limits: Limits,
) -> Result<Vec<u8, A>, ToolFault>
    requires { has_failed reader.old ≡ false }
    ensures { TakesAll (Gives (wholes.Canonical forms.Bare limits)) (R.remaining (inner_of reader.old))
        (R.remaining (inner_of reader.new)) (has_failed reader.new) result }
{
    let bytes = read_bare(alloc, START, reader)?;
    let canonical = canonicalise(alloc, Form::Bare, &bytes, limits)?;
    Ok(canonical.bytes)
}

/// Reads a bare input from `reader`, and returns a line that states the price of its message, the number of visits, and
/// whether the bytes are canonical. The message is refused if it exceeds `limits`.
pub fn make_verdict<R: Read, A: Allocator + Copy>(
    alloc: A,
    reader: &mut Watched<R>,
    limits: Limits,
) -> Result<Vec<u8, A>, ToolFault>
    requires { has_failed reader.old ≡ false }
    ensures { TakesAll (Gives (wholes.Bare kinds.Price limits)) (R.remaining (inner_of reader.old))
        (R.remaining (inner_of reader.new)) (has_failed reader.new) result }
{
    let bytes = read_bare(alloc, START, reader)?;
    verdict(alloc, &bytes, limits)
}

/// Reads an input in `form`, which is one message, and returns the canonical bytes of that message.
pub fn make_canonical<R: Read, A: Allocator + Copy>(
    alloc: A,
    reader: &mut Watched<R>,
    form: Form,
    limits: Limits,
) -> Result<Vec<u8, A>, ToolFault>
    requires { has_failed reader.old ≡ false }
    ensures { TakesAll (Gives (wholes.Canonical form limits)) (R.remaining (inner_of reader.old))
        (R.remaining (inner_of reader.new)) (has_failed reader.new) result }
{
    match form {
        Form::Stream => make_framed(alloc, reader, StreamForm::Stream, limits),
        Form::Packed => make_framed(alloc, reader, StreamForm::Packed, limits),
        Form::Bare => make_trimmed(alloc, reader, limits),
    }
}
