//! The options of a run that explains every refused message.

use capn_canon::{Form, Limits};

/// The options of a run that explains every refused message of an input.
#[derive(Clone, Copy, Debug, PartialEq, Eq)]
pub struct ExplainRefused {
    /// The encoding of the input.
    pub form: Form,
    /// The limits of each message.
    pub limits: Limits,
}
