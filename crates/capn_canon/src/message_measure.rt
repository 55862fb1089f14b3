//! The call `measure`, which finds the price and depth of a message, and whether it is canonical.

ghost use Rattle.std.specs.Prelude.{◌≡◌, ◌≢◌, [], ◌∷◌, IfOk, IfErr, IsOk, MatchResult};
ghost use Rattle.capn_value.specs.Tree.{Tree as Value};
ghost use Rattle.capn_target.specs.declared.target.Fault.TheVariants as faults;
ghost use Rattle.capn_walk.specs.Accepted.{IsValueOf, IsWalkRefused as IsStopped, IsBounded};
ghost use Rattle.capn_canon.specs.Measure.{IsCanonicalOf, IsMeasure};

use crate::canonical_survey::measure_canonical;
use crate::one_segment::alone;
use crate::surveyed_bare::{MeasuredBare, SurveyedBare};
use capn_walk::{Limits, Stopped, survey_depth};
use capn_words::{Bare, Space};
use std::alloc::Allocator;

/// Surveys the message `space`, which is not canonical, within `limits`.
fn measure_other<S: Space, A: Allocator + Copy>(
    alloc: A,
    space: &S,
    limits: Limits,
) -> Result<MeasuredBare, Stopped>
    requires { (v : Value) → IsValueOf (S.message space.now) limits v → IsCanonicalOf (S.message space.now) v → ⊥ }
    ensures found { IfOk result (λ m. IsMeasure (S.message space.now) limits m) }
    ensures only { (v : Value) → IsValueOf (S.message space.now) limits v → IsOk result }
    ensures refused { IfErr result (λ s. IsStopped (S.message space.now) limits s.fault s.place s.paid s.visits) }
    ensures no_memory { IfErr result (λ s. s.fault ≢ faults.Memory) }
    ensures bounded { MatchResult result (λ m. IsBounded limits.budget m.survey.paid m.survey.visits)
        (λ s. IsBounded limits.budget s.paid s.visits) }
{
    let measured = survey_depth(alloc, space, limits)?;
    Ok(MeasuredBare {
        survey: SurveyedBare {
            paid: measured.survey.paid,
            visits: measured.survey.visits,
            capability: measured.survey.capability,
            is_canonical: false,
        },
        depth: measured.depth,
    })
}

/// Surveys the message `space` of one segment within `limits`. One pass is enough if the bytes are canonical. Otherwise
/// a survey follows.
fn measure_bare<A: Allocator + Copy>(
    alloc: A,
    space: &Bare<'_>,
    limits: Limits,
) -> Result<MeasuredBare, Stopped>
    ensures found { IfOk result (λ m. IsMeasure (space.now ∷ []) limits m) }
    ensures only { (v : Value) → IsValueOf (space.now ∷ []) limits v → IsOk result }
    ensures refused { IfErr result (λ s. IsStopped (space.now ∷ []) limits s.fault s.place s.paid s.visits) }
    ensures no_memory { IfErr result (λ s. s.fault ≢ faults.Memory) }
    ensures bounded { MatchResult result (λ m. IsBounded limits.budget m.survey.paid m.survey.visits)
        (λ s. IsBounded limits.budget s.paid s.visits) }
{
    let _segments = space.segments();
    match measure_canonical(space, limits) {
        Some(measured) => Ok(measured),
        None => measure_other(alloc, space, limits),
    }
}

/// Surveys the message `space` within `limits`. Returns the price, the number of visits, the first capability, the
/// depth, and whether the message is one segment of canonical bytes. The depth is the least limit on depth under which
/// the message is accepted, with the other limits unchanged. (Our own.)
///
/// A message of one segment that is not canonical is walked at most twice. Any other message is walked once. If the
/// walk refuses the message, the error is the stop of the walk. No memory is allocated.
pub fn measure<S: Space, A: Allocator + Copy>(
    alloc: A,
    space: &S,
    limits: Limits,
) -> Result<MeasuredBare, Stopped>
    // If `result` is `Ok`, the message is accepted. `result` has its price, its number of visits, its first capability
    // and its depth, and says whether the message is canonical.
    ensures found { IfOk result (λ m. IsMeasure (S.message space.now) limits m) }
    // If the message is accepted, `result` is `Ok`.
    ensures only { (v : Value) → IsValueOf (S.message space.now) limits v → IsOk result }
    // If `result` is an `Err`, it is the stop of the message's walk.
    ensures refused { IfErr result (λ s. IsStopped (S.message space.now) limits s.fault s.place s.paid s.visits) }
    // The fault is never `Memory`.
    ensures no_memory { IfErr result (λ s. s.fault ≢ faults.Memory) }
    // The walk pays at most the budget, also if the message is refused.
    ensures bounded { MatchResult result (λ m. IsBounded limits.budget m.survey.paid m.survey.visits)
        (λ s. IsBounded limits.budget s.paid s.visits) }
{
    match alone(space) {
        Some(bare) => measure_bare(alloc, &bare, limits),
        None => measure_other(alloc, space, limits),
    }
}
