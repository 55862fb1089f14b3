//! The plan of a command: its output, and whether it reads its complete input first or reads message by message.

ghost use Rattle.std.specs.Prelude.{◌≡◌};
ghost use Rattle.capn_commands.specs.Plan as spec;

use crate::command::Command;
use capn_canon::Form;
use capn_serve::StreamForm;
use capn_walk::Limits;

/// The kind of text that is written for a message.
#[derive(Clone, Copy, Debug, PartialEq, Eq)]
pub enum MessageText {
    /// The text of the message's value, and a line `end`.
    Text,
    /// The line with the price and the number of visits of the message's walk.
    Price,
    /// The line with the digest of the message's canonical bytes.
    Digest,
}

/// The output of a command that reads its complete input first.
#[derive(Clone, Copy)]
pub enum Whole {
    /// The packed text of the input's words.
    Packed,
    /// The words that the input unpacks to. The number is the greatest number of words that are accepted.
    Unpacked(u32),
    /// The canonical bytes of the input, which has to be one message.
    Canonical(Form, Limits),
    /// The text, price or digest of the input, which has to be one bare message.
    Bare(MessageText, Limits),
    /// The text, price or digest of the input, which has to be exactly the frame of one message.
    One(MessageText, StreamForm, Limits),
}

/// The way in which a command reads its input.
#[derive(Clone, Copy)]
pub enum Plan {
    /// Reads the complete input before anything is written.
    Whole(Whole),
    /// Reads a stream message by message.
    Each(MessageText, Limits),
    /// Reads a packed stream message by message.
    Packed(MessageText, Limits),
}

/// Returns the plan that writes the text of the kind `piece` for each message of an input in `form`.
fn pieces(piece: MessageText, form: Form, limits: Limits) -> Plan
    ensures { result ≡ spec.pieces_of piece form limits }
{
    match form {
        Form::Bare => Plan::Whole(Whole::Bare(piece, limits)),
        Form::Stream => Plan::Each(piece, limits),
        Form::Packed => Plan::Packed(piece, limits),
    }
}

/// Returns the plan that writes the text of the kind `piece` for an input in `form`, which has to be one message.
fn one_piece(piece: MessageText, form: Form, limits: Limits) -> Plan
    ensures { result ≡ spec.one_piece_of piece form limits }
{
    match form {
        Form::Bare => Plan::Whole(Whole::Bare(piece, limits)),
        Form::Stream => Plan::Whole(Whole::One(piece, StreamForm::Stream, limits)),
        Form::Packed => Plan::Whole(Whole::One(piece, StreamForm::Packed, limits)),
    }
}

/// Returns the plan of `command`.
pub fn plan_of(command: Command) -> Plan
    ensures { result ≡ spec.plan_of command }
{
    match command {
        Command::Show(form, limits) => pieces(MessageText::Text, form, limits),
        Command::Check(form, limits) => pieces(MessageText::Price, form, limits),
        Command::Hash(form, limits) => pieces(MessageText::Digest, form, limits),
        Command::Pack => Plan::Whole(Whole::Packed),
        Command::Unpack(most) => Plan::Whole(Whole::Unpacked(most)),
        Command::Canonical(form, limits) => Plan::Whole(Whole::Canonical(form, limits)),
        Command::One(piece, form, limits) => one_piece(piece, form, limits),
    }
}
