//! The options of `annotate`.

use capn_canon::Form;
use capn_walk::Limits;

/// The options of a run of `annotate`, which is also the service that writes the lines of each message.
///
/// A message that exceeds the limits is refused, and nothing is written for it.
#[derive(Clone, Copy, Debug, PartialEq, Eq)]
pub struct AnnotateOrder {
    /// The encoding of the input.
    pub form: Form,
    /// The limits of each message.
    pub limits: Limits,
    /// True if only the counts of each message are written, in one line.
    pub summary: bool,
}
