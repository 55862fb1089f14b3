//! The options of `pick`, and the ranges of message numbers.

ghost use Rattle.std.specs.Prelude.{◌≡◌};
ghost use Rattle.capn_serve.specs.FormRun.{form_of};

use capn_canon::{Form, Limits};

/// The encoding of a stream of messages.
#[derive(Clone, Copy, Debug, PartialEq, Eq)]
pub enum StreamForm {
    /// Frames, one after the other.
    Stream,
    /// Frames, one after the other, packed.
    Packed,
}

impl StreamForm {
    /// Returns the `Form` of an input that holds a stream in this encoding.
    pub fn form(self) -> Form
        ensures { result ≡ form_of self }
    {
        match self {
            StreamForm::Stream => Form::Stream,
            StreamForm::Packed => Form::Packed,
        }
    }
}

/// The options of `pick`, which writes messages of a stream by their numbers. (Our own.)
#[derive(Clone, Copy, Debug, PartialEq, Eq)]
pub struct Pick {
    /// The encoding of the input.
    pub form: StreamForm,
    /// The limits of a message. Only the greatest number of words is used.
    pub limits: Limits,
    /// The number of the first message that is picked, counted from 1. The number 0 is taken as 1.
    pub from: u64,
    /// The number of the last message that is picked. If this number is 0 or less than `from`, no message is picked.
    pub to: u64,
}

/// A range of message numbers, which are counted from 1. Both ends belong to the range.
#[derive(Clone, Copy, Debug, PartialEq, Eq)]
pub struct Range {
    /// The number of the first message.
    pub from: u64,
    /// The number of the last message.
    pub to: u64,
}
