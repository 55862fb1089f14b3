//! The options of a run that explains one message.

use capn_canon::{Form, Limits};

/// The options of a run that explains one message of an input.
#[derive(Clone, Copy, Debug, PartialEq, Eq)]
pub struct Explain {
    /// The encoding of the input.
    pub form: Form,
    /// The limits of each message.
    pub limits: Limits,
    /// The number of the message to explain, counted from 1. `None` selects the first refused message, or the only
    /// message if it is accepted.
    pub number: Option<u64>,
}
