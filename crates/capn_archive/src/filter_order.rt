//! The options of `filter`.

use capn_canon::{Form, Limits};

/// The options of a run of `filter`, which copies the frames of accepted messages unchanged.
#[derive(Clone, Copy, Debug, PartialEq, Eq)]
pub struct FilterOrder {
    /// The encoding of the input.
    pub form: Form,
    /// The limits of each message.
    pub limits: Limits,
    /// True if a message that is not let through is skipped, so that the run continues with the next one.
    pub keep_going: bool,
    /// True if only accepted messages that are canonical are let through.
    pub canonical: bool,
}
