//! The task and the options of a run over an archive.

use capn_canon::{Form, Limits};

/// The work that a run carries out for the messages of an archive.
#[derive(Clone, Copy, Debug, PartialEq, Eq)]
pub enum Task {
    /// Writes a line for each message, with the position, size and cost of the message, and whether it is canonical.
    List,
    /// Writes the lines of `List`, each with the SHA-256 of the canonical bytes, or with `-` if the value has a
    /// capability.
    Digests,
    /// Writes the limits that the accepted messages need, at the end.
    Limits,
    /// Writes the canonical bytes of each message, as a frame of one segment.
    Canonical,
}

/// The task of a run over an archive, and its options.
#[derive(Clone, Copy, Debug, PartialEq, Eq)]
pub struct ArchiveOrder {
    /// The work that the run carries out for each message.
    pub task: Task,
    /// The encoding of the input.
    pub form: Form,
    /// The limits of each message.
    pub limits: Limits,
    /// True if a refused message is skipped, so that the run continues with the next one.
    pub keep_going: bool,
}
