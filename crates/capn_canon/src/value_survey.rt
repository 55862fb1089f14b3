//! The survey of a message whose canonical bytes are wanted.

ghost use Rattle.std.specs.Prelude.{◌≡◌, ◌+◌, ◌*◌, ◌≤◌, None, IfOk, IfErr, MatchResult};
ghost use Rattle.capn_walk.specs.Accepted.{IsBounded};
ghost use Rattle.capn_walk.specs.Surveyed.{IsSurvey};
ghost use Rattle.capn_canon.specs.MessageRefusal.{HasNoBytes, IsMessagePaidWithin};

use crate::message_refusal::MessageRefusal;
use capn_target::counted::{CountedSpace, Reads};
use capn_walk::{Limits, Surveyed, survey_counted};
use capn_words::Space;
use std::sync::ledger::Ledger;

/// Surveys the message `space` within `limits`. Returns the survey, or the reason why the message has no canonical
/// bytes.
pub(crate) fn survey_value<S: Space, L: Ledger>(
    space: &CountedSpace<'_, S, L>,
    limits: Limits,
    reads: &mut Reads<L>,
) -> Result<Surveyed, MessageRefusal>
    ensures found { IfOk result (λ s. IsSurvey space.now limits s × (s.capability ≡ None)) }
    ensures refused { IfErr result (λ e. HasNoBytes space.now limits e) }
    ensures bounded { MatchResult result (λ s. IsBounded limits.budget s.paid s.visits)
        (λ e. IsMessagePaidWithin limits.budget e) }
    ensures reads { IfOk result (λ s. reads.new ≤ reads.old + 14 * s.visits + 1) }
    ensures work { reads.new ≤ reads.old + 14 * (limits.budget + 1) + 1 }
{
    match survey_counted(space, limits, reads) {
        Ok(surveyed) => match surveyed.capability {
            Some(index) => Err(MessageRefusal::Capability(index)),
            None => Ok(surveyed),
        },
        Err(stopped) => Err(MessageRefusal::Walk(stopped)),
    }
}
