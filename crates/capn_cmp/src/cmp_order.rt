//! The options of `cmp`.

use capn_serve::StreamForm;
use capn_walk::Limits;

/// The options of a run of `cmp`, which compares the messages of a stream with the first one.
#[derive(Clone, Copy, Debug, PartialEq, Eq)]
pub struct CmpOrder {
    /// The encoding of the input.
    pub form: StreamForm,
    /// The limits of each message.
    pub limits: Limits,
}
