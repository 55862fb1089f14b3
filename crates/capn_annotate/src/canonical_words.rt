//! The number of words of a message's canonical bytes.

ghost use Rattle.std.specs.Prelude.{◌≡◌};
ghost use Rattle.capn_walk.specs.Surveyed.{IsSurvey};
ghost use Rattle.capn_annotate.specs.Summary.{HasCanonicalWords};

use capn_layout::surveyed_length;
use capn_walk::{Limits, Surveyed};
use capn_words::Space;

/// Returns the number of words of the canonical bytes of the message `space`, or `None` if the message has a
/// capability. The message is accepted within `limits`, with the given `survey`. It isn't surveyed again. The words are
/// counted, and not made.
pub fn canonical_words<S: Space>(space: &S, limits: Limits, survey: Surveyed) -> Option<u64>
    requires survey { IsSurvey (S.message space.now) limits survey }
    ensures { HasCanonicalWords (S.message space.now) limits result }
{
    // The prover learns from these two calls how large a message and limits may be.
    let _segments = space.segments();
    let _budget = limits.budget();
    match survey.capability {
        Some(_) => None,
        None => Some(surveyed_length(space, limits.depth()) as u64),
    }
}
