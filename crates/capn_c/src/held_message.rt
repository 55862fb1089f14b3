//! Functions that read a message that is held in segments, and that run a task on it.

ghost use Rattle.std.specs.Prelude.{◌≡◌, ◌≢◌, ◌≤◌, ◌+◌, ◌*◌, Ok, length};
ghost use Rattle.std.specs.Prelude.{IfOk, IfErr, MatchResult};
ghost use Rattle.capn_value.specs.Tree.{Tree as Value};
ghost use Rattle.capn_value.specs.FirstCap.{first_cap};
ghost use Rattle.capn_walk.specs.Accepted.{IsBounded};
ghost use Rattle.capn_canon.specs.Layout.{canon};
ghost use Rattle.capn_canon.specs.Refusal.{IsPaidWithin};
ghost use Rattle.capn_canon.specs.declared.refusal.Refusal.TheVariants as refusals;
ghost use Rattle.capn_stream.specs.Segments.{IsHeld, message_of};
ghost use Rattle.capn_c.specs.Held.{DenotesHeld, IsHeldOr, IsUnacceptedHeld, SurveysHeld};
ghost use Rattle.capn_c.specs.inner.RunHeld.{IsRunHeld};

use capn_canon::{MessageTask, Refusal, survey};
use capn_stream::{FrameFault, Segments, SegmentsFault};
use capn_walk::{Limits, Surveyed};
use capn_words::Space;
use std::alloc::Global;

/// Reads `segments` as a message within `limits`. Segments that are no message are refused with the fault that a frame
/// of the same segments has.
pub fn held<'a>(segments: &'a [&'a [[u8; 8]]], limits: Limits) -> Result<Segments<'a>, Refusal>
    ensures exact { IsHeldOr (message_of segments.now) limits result }
    ensures only { IsHeld (message_of segments.now) limits.message_words → result ≡ Ok (message_of segments.now) }
    ensures bounded { IfErr result (λ e. IsPaidWithin limits.budget e) }
{
    match Segments::new(segments, limits.message_words()) {
        Ok(message) => Ok(message),
        Err(SegmentsFault::Empty) => Err(Refusal::Frame(FrameFault::Empty)),
        Err(SegmentsFault::TooManySegments(count)) => {
            Err(Refusal::Frame(FrameFault::TooManySegments(count)))
        }
        Err(SegmentsFault::TooManyWords(words)) => {
            Err(Refusal::Frame(FrameFault::TooManyWords(words)))
        }
    }
}

/// Does the `task` on the message that is held in `segments`, within `limits`. Segments that are no message are
/// refused, and `task` then stays as it was.
pub fn run_held<T: MessageTask<Global>>(
    alloc: Global,
    task: &mut T,
    segments: &[&[[u8; 8]]],
    limits: Limits,
) -> Result<T::Answer, Refusal>
    ensures { IsRunHeld (message_of segments.now) limits T.answers task.old result task.new }
{
    let message = held(segments, limits)?;
    task.run(alloc, &message, limits)
}

/// Surveys the message that is held in `segments`, within `limits`.
pub fn survey_held(
    alloc: Global,
    segments: &[&[[u8; 8]]],
    limits: Limits,
) -> Result<Surveyed, Refusal>
    ensures found { IfOk result (λ s. SurveysHeld (message_of segments.now) limits s) }
    ensures only { (v : Value) → DenotesHeld (message_of segments.now) limits v
        → MatchResult result (λ s. s.capability ≡ first_cap v) (λ e. e ≡ refusals.Memory) }
    ensures refused { IfErr result (λ e. IsUnacceptedHeld (message_of segments.now) limits e) }
    ensures no_memory { IfErr result (λ e. e ≢ refusals.Memory) }
    ensures bounded { MatchResult result (λ s. IsBounded limits.budget s.paid s.visits)
        (λ e. IsPaidWithin limits.budget e) }
    ensures short { IfOk result (λ s. (v : Value) → DenotesHeld (message_of segments.now) limits v
        → length (canon v) ≤ 8 * (s.paid + 1)) }
{
    let message = held(segments, limits)?;
    // The proof of the contract needs the bounds that these calls promise.
    let _segments = message.segments();
    let _budget = limits.budget();
    let _depth = limits.depth();
    survey(alloc, &message, limits)
}
