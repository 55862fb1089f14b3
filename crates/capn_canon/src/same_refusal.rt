//! The refusal of a comparison of two messages: the message that is refused, and the reason.

use crate::refusal::Refusal;

/// One of two messages.
#[derive(Clone, Copy, Debug, PartialEq, Eq)]
pub enum Side {
    /// The first message.
    First,
    /// The second message, named only if the first isn't refused.
    Second,
}

/// The reason why two messages are not compared: one of them is refused. (Our own.)
#[derive(Clone, Copy, Debug, PartialEq, Eq)]
pub struct SameRefusal {
    /// The message that is refused, first or second.
    pub side: Side,
    /// The refusal that [`canonical_of`](crate::canonical_of) returns for that message. The clauses allow only `Walk`
    /// and `Capability`.
    pub refusal: Refusal,
}
