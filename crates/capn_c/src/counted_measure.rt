//! The measure of a message whose reads are counted, and the number of its words.

ghost use Rattle.std.specs.Prelude.{◌≡◌, ◌≢◌, ◌+◌, ◌*◌, ◌≤◌, length, IfOk, IfErr, IsOk, MatchResult};
ghost use Rattle.capn_words.specs.Message.{total};
ghost use Rattle.capn_value.specs.Tree.{Tree as Value};
ghost use Rattle.capn_target.specs.declared.target.Fault.TheVariants as faults;
ghost use Rattle.capn_walk.specs.Accepted.{IsValueOf, IsWalkRefused as IsStopped, IsBounded};
ghost use Rattle.capn_canon.specs.Measure.{IsCanonicalOf, IsMeasure};

use capn_canon::{MeasuredBare, SurveyedBare, measure_canonical_counted};
use capn_target::counted::{CountedSpace, Reads};
use capn_walk::{Limits, Stopped, survey_depth_counted};
use capn_words::Space;
use std::sync::ledger::Ledger;

/// Returns the number of words in all segments of the message `space`, which has `segments` segments. One read and one
/// turn of the loop are counted for each segment.
#[tactic(auto, using(std::proofs::lemmas::List::Sums::sum_by_more_le, std::proofs::lemmas::List::Sums::fold_more))]
pub fn count_words<S: Space, L: Ledger>(
    space: &CountedSpace<'_, S, L>,
    segments: u32,
    reads: &mut Reads<L>,
) -> u32
    requires { segments ≡ length space.now }
    ensures total { result ≡ total space.now }
    ensures reads { reads.new ≤ reads.old + 2 * segments }
{
    space.bounds();
    let mut total = 0;
    for segment in 0..segments {
        reads.tick();
        if let Some(words) = space.words(segment, reads) {
            total += words;
        }
    }
    total
}

/// Surveys the message `space`, which is not canonical, within `limits`, and counts reads and turns in `reads`.
#[inline(always)]
fn measure_other<S: Space, L: Ledger>(
    space: &CountedSpace<'_, S, L>,
    limits: Limits,
    reads: &mut Reads<L>,
) -> Result<MeasuredBare, Stopped>
    requires { (v : Value) → IsValueOf space.now limits v → IsCanonicalOf space.now v → ⊥ }
    ensures found { IfOk result (λ m. IsMeasure space.now limits m) }
    ensures only { (v : Value) → IsValueOf space.now limits v → IsOk result }
    ensures refused { IfErr result (λ s. IsStopped space.now limits s.fault s.place s.paid s.visits) }
    ensures no_memory { IfErr result (λ s. s.fault ≢ faults.Memory) }
    ensures bounded { MatchResult result (λ m. IsBounded limits.budget m.survey.paid m.survey.visits)
        (λ s. IsBounded limits.budget s.paid s.visits) }
    ensures reads { reads.new ≤ reads.old + 14 * (limits.budget + 1) + 1 }
{
    let measured = survey_depth_counted(space, limits, reads)?;
    Ok(MeasuredBare {
        survey: SurveyedBare {
            paid: measured.survey.paid,
            visits: measured.survey.visits,
            capability: measured.survey.capability,
            is_canonical: false,
        },
        depth: measured.depth,
    })
}

/// Surveys the message `space` of one segment within `limits`, and counts reads and turns in `reads`. One pass is
/// enough if the bytes are canonical. Otherwise a survey follows.
#[inline(always)]
fn measure_one<S: Space, L: Ledger>(
    space: &CountedSpace<'_, S, L>,
    limits: Limits,
    reads: &mut Reads<L>,
) -> Result<MeasuredBare, Stopped>
    requires one { length space.now ≡ 1 }
    ensures found { IfOk result (λ m. IsMeasure space.now limits m) }
    ensures only { (v : Value) → IsValueOf space.now limits v → IsOk result }
    ensures refused { IfErr result (λ s. IsStopped space.now limits s.fault s.place s.paid s.visits) }
    ensures no_memory { IfErr result (λ s. s.fault ≢ faults.Memory) }
    ensures bounded { MatchResult result (λ m. IsBounded limits.budget m.survey.paid m.survey.visits)
        (λ s. IsBounded limits.budget s.paid s.visits) }
    ensures reads { reads.new + 1 ≤ reads.old + 24 * (limits.budget + 1) }
{
    match measure_canonical_counted(space, limits, reads) {
        Some(measured) => Ok(measured),
        None => measure_other(space, limits, reads),
    }
}

/// Surveys the message `space` within `limits`, and counts reads and turns of loops in `reads`. Returns the result of
/// [`measure`](capn_canon::measure).
pub fn measure_counted<S: Space, L: Ledger>(
    space: &CountedSpace<'_, S, L>,
    limits: Limits,
    reads: &mut Reads<L>,
) -> Result<MeasuredBare, Stopped>
    ensures found { IfOk result (λ m. IsMeasure space.now limits m) }
    ensures only { (v : Value) → IsValueOf space.now limits v → IsOk result }
    ensures refused { IfErr result (λ s. IsStopped space.now limits s.fault s.place s.paid s.visits) }
    ensures no_memory { IfErr result (λ s. s.fault ≢ faults.Memory) }
    ensures bounded { MatchResult result (λ m. IsBounded limits.budget m.survey.paid m.survey.visits)
        (λ s. IsBounded limits.budget s.paid s.visits) }
    ensures reads { reads.new ≤ reads.old + 24 * (limits.budget + 1) + 2 }
{
    match space.only_segment(reads) {
        Some(only) => measure_one(&only.space(), limits, reads),
        None => measure_other(space, limits, reads),
    }
}
