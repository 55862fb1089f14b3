//! The reasons why a message has no canonical bytes, or why they are not written into a buffer.

use crate::refusal::Refusal;
use capn_walk::Stopped;
use std::error::Error;
use std::fmt;

/// The reason why a message has no canonical bytes within the limits. The variants stand in the order of the tests.
/// (Our own.)
///
/// There is no variant `Memory`, since no memory is allocated. A walk that makes a tree may stop with the fault
/// `Memory`, so the type of the fault in `Walk` has that variant. The clauses of the calls exclude it here.
#[derive(Clone, Copy, Debug, PartialEq, Eq)]
pub enum MessageRefusal {
    /// The stop of the walk, with its place and its fault, if the message is not accepted. The fault is never `Memory`.
    Walk(Stopped),
    /// The index of the first capability in preorder, if the value has any: a capability has no canonical form.
    Capability(u32),
}

/// The reason why canonical bytes are not written into a buffer. The variants stand in the order of the tests. (Our
/// own.)
#[derive(Clone, Copy, Debug, PartialEq, Eq)]
pub enum IntoRefusal {
    /// The stop of the walk, with its place and its fault, if the message is not accepted. The fault is never `Memory`.
    Walk(Stopped),
    /// The index of the first capability in preorder, if the value has any: a capability has no canonical form.
    Capability(u32),
    /// The buffer is too short.
    NoRoom {
        /// The length of the canonical bytes.
        needed: usize,
        /// The number of words that the walk of the message pays.
        paid: u32,
    },
}

impl From<MessageRefusal> for IntoRefusal {
    ghost use Rattle.capn_canon.specs.RefusalOf.{IsOfMessageInto};

    ghost from_gives = { IsOfMessageInto };

    fn from(refusal: MessageRefusal) -> IntoRefusal {
        match refusal {
            MessageRefusal::Walk(stopped) => IntoRefusal::Walk(stopped),
            MessageRefusal::Capability(index) => IntoRefusal::Capability(index),
        }
    }
}

impl From<MessageRefusal> for Refusal {
    ghost use Rattle.capn_canon.specs.RefusalOf.{IsOfMessage};

    ghost from_gives = { IsOfMessage };

    fn from(refusal: MessageRefusal) -> Refusal {
        match refusal {
            MessageRefusal::Walk(stopped) => Refusal::Walk(stopped),
            MessageRefusal::Capability(index) => Refusal::Capability(index),
        }
    }
}

impl fmt::Display for MessageRefusal {
    ghost use Rattle.std.specs.Prelude.{Some};
    ghost use Rattle.capn_canon.specs.Display.{message_refusal_text};

    ghost output = { λ refusal. Some (message_refusal_text refusal) };

    fn fmt<W: fmt::Write>(&self, f: &mut fmt::Formatter<W>) -> fmt::Result {
        match self {
            MessageRefusal::Walk(stopped) => write!(f, "{stopped}"),
            MessageRefusal::Capability(index) => write!(f, "capability {index}"),
        }
    }
}

impl fmt::Display for IntoRefusal {
    ghost use Rattle.std.specs.Prelude.{Some};
    ghost use Rattle.capn_canon.specs.Display.{into_refusal_text};

    ghost output = { λ refusal. Some (into_refusal_text refusal) };

    fn fmt<W: fmt::Write>(&self, f: &mut fmt::Formatter<W>) -> fmt::Result {
        match self {
            IntoRefusal::Walk(stopped) => write!(f, "{stopped}"),
            IntoRefusal::Capability(index) => write!(f, "capability {index}"),
            IntoRefusal::NoRoom { needed, paid: _ } => write!(f, "no room for {needed} bytes"),
        }
    }
}

impl Error for MessageRefusal {}

impl Error for IntoRefusal {}
