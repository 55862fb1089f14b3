//! The options of `uniq`.

use capn_canon::{Form, Limits};

/// The options of a run of `uniq`, which leaves out each message whose canonical bytes equal an earlier message's.
/// Canonical bytes are compared by their SHA-256.
#[derive(Clone, Copy, Debug, PartialEq, Eq)]
pub struct UniqOrder {
    /// The encoding of the input.
    pub form: Form,
    /// The limits of each message.
    pub limits: Limits,
    /// True if a refused message is skipped, so that the run continues with the next one.
    pub keep_going: bool,
    /// True if messages are only counted: no frame is written, and one line is written at the end.
    pub count: bool,
}
