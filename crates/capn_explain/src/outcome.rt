//! The type `Outcome`, which says which messages a run has explained so far.

ghost use Rattle.std.specs.Prelude.{◌≡◌};
ghost use Rattle.capn_explain.specs.Reports as spec;

use capn_serve::{Position, SkippedSoFar};
use capn_walk::Stopped;

/// The messages that have been explained so far, if there are any.
#[derive(Clone, Copy, Debug, PartialEq, Eq)]
pub enum Outcome {
    /// No message has been explained.
    Nothing,
    /// The message at this position is refused, and has been explained. The second field has the reason and the place
    /// at which its walk stopped.
    Refused(Position, Stopped),
    /// An accepted message has been explained.
    Accepted,
    /// All refused messages so far have been explained, and this is their count. The run goes on.
    Skipped(SkippedSoFar),
}

/// Returns the count of the explained messages, if every refused message is explained and there are any so far.
pub(crate) fn skipped_in(outcome: Outcome) -> Option<SkippedSoFar>
    ensures { result ≡ spec.skipped_in outcome }
{
    match outcome {
        Outcome::Skipped(skipped) => Some(skipped),
        Outcome::Nothing | Outcome::Refused(_, _) | Outcome::Accepted => None,
    }
}
