//! The one pass that accepts only canonical bytes. It finds the number of words that the walk pays, and the depth. Any
//! change here that alters which bytes it accepts makes a new version of the canonical form.

ghost use Rattle.std.specs.Prelude.{◌≡◌, ◌+◌, ◌*◌, ◌<◌, ◌≤◌, [], ◌∷◌, length, IsTrue, IfSome, IsSome, None};
ghost use Rattle.capn_words.specs.Message.{IsMessage, bytes, segment_at};
ghost use Rattle.capn_value.specs.Tree.{Tree as Value};
ghost use Rattle.capn_value.specs.FirstCap.{first_cap};
ghost use Rattle.capn_walk.specs.Accepted.{IsValueOf, IsBounded};
ghost use Rattle.capn_walk.specs.Depth.{IsDepth};
ghost use Rattle.capn_canon.specs.BareVerdict.{IsBareSurvey};
ghost use Rattle.capn_layout.specs.Layout.{canon};

use crate::counted_words::{CountedWords, words_of};
use crate::one_pass::check_object;
use crate::progress::Pass;
use crate::surveyed_bare::{MeasuredBare, SurveyedBare};
use capn_target::counted::{CountedSpace, Reads, count_reads};
use capn_walk::Limits;
use capn_words::{Bare, Space};
use std::marker::Brand;
use std::sync::ledger::{Blank, Ledger};

/// Surveys the bare message `space` within `limits`. Returns `None` if the message is not accepted, the value has a
/// capability, or the bytes are not canonical. (Our own.)
///
/// No memory is allocated. [`survey_bare`](crate::survey_bare) gives the reason for a `None`.
pub fn survey_canonical(space: &Bare<'_>, limits: Limits) -> Option<SurveyedBare>
    requires { IsMessage (space.now ∷ []) }
    ensures found { IfSome result (λ c. IsBareSurvey space.now limits c) }
    ensures only { (v : Value) → IsValueOf (space.now ∷ []) limits v → first_cap v ≡ None → canon v ≡ bytes space.now
        → IsSome result }
    ensures bounded { IfSome result (λ c. IsBounded limits.budget c.paid c.visits) }
{
    survey_with_ledger::<Brand>(space, limits, Blank::new(1))
}

/// Surveys `space` within `limits` for [`survey_canonical`], with a count in the new ledger `blank`.
fn survey_with_ledger<L: Ledger>(
    space: &Bare<'_>,
    limits: Limits,
    blank: Blank,
) -> Option<SurveyedBare>
    requires name { blank.name ≡ L.name }
    requires parts { blank.parts ≡ L.parts }
    requires one { 0 < blank.parts }
    ensures found { IfSome result (λ c. IsBareSurvey space.now limits c) }
    ensures only { (v : Value) → IsValueOf (space.now ∷ []) limits v → first_cap v ≡ None → canon v ≡ bytes space.now
        → IsSome result }
    ensures bounded { IfSome result (λ c. IsBounded limits.budget c.paid c.visits) }
{
    let (space, mut reads) = count_reads::<Bare<'_>, L>(space, blank);
    survey_canonical_counted(&space, limits, &mut reads)
}

/// Surveys the message `space` of one segment within `limits`, and counts reads and loop turns in `reads`. Returns the
/// result of [`survey_canonical`].
///
/// There are at most ten reads and turns for each word paid, and eight more. A `None` costs at most ten for each word
/// of the budget, and eight more. So the budget bounds the work, whatever the words are. No memory is allocated.
pub fn survey_canonical_counted<S: Space, L: Ledger>(
    space: &CountedSpace<'_, S, L>,
    limits: Limits,
    reads: &mut Reads<L>,
) -> Option<SurveyedBare>
    requires one { length space.now ≡ 1 }
    ensures found { IfSome result (λ c. IsBareSurvey (segment_at space.now 0) limits c) }
    ensures only { (v : Value) → IsValueOf space.now limits v → first_cap v ≡ None
        → canon v ≡ bytes (segment_at space.now 0) → IsSome result }
    ensures bounded { IfSome result (λ c. IsBounded limits.budget c.paid c.visits) }
    // The pass does at most ten reads and turns of loops for each word paid, and eight more.
    ensures reads { IfSome result (λ c. reads.new ≤ reads.old + 10 * c.paid + 8) }
    // The budget bounds the number of reads and turns, whatever the message and the result are.
    ensures work { reads.new ≤ reads.old + 10 * limits.budget + 8 }
{
    let words = CountedWords::of(space);
    match measure_root::<S, L, false>(&words, limits, reads) {
        Some(measured) => {
            if measured.survey.is_canonical {
                return Some(measured.survey);
            }
            None
        }
        None => None,
    }
}

/// Surveys the bare message `space` within `limits`, and finds its depth. Returns `None` if [`survey_canonical`] does.
/// The depth is the least limit on depth under which the message is accepted. It is the greatest number of objects on a
/// path from the root, including the root object. (Our own.)
///
/// No memory is allocated. If the result is `None`, [`survey_bare`](crate::survey_bare) and
/// [`survey_depth`](capn_walk::survey_depth) report more.
pub fn measure_canonical(space: &Bare<'_>, limits: Limits) -> Option<MeasuredBare>
    requires { IsMessage (space.now ∷ []) }
    ensures found { IfSome result (λ m. IsBareSurvey space.now limits m.survey) }
    // The depth returned is the least limit on depth under which the message is accepted.
    ensures depth { IfSome result (λ m. IsDepth (space.now ∷ []) limits m.depth) }
    ensures within { IfSome result (λ m. m.depth ≤ limits.depth) }
    ensures only { (v : Value) → IsValueOf (space.now ∷ []) limits v → first_cap v ≡ None → canon v ≡ bytes space.now
        → IsSome result }
    ensures bounded { IfSome result (λ m. IsBounded limits.budget m.survey.paid m.survey.visits) }
{
    measure_with_ledger::<Brand>(space, limits, Blank::new(1))
}

/// Measures `space` within `limits` for [`measure_canonical`], with a count in the new ledger `blank`.
fn measure_with_ledger<L: Ledger>(
    space: &Bare<'_>,
    limits: Limits,
    blank: Blank,
) -> Option<MeasuredBare>
    requires name { blank.name ≡ L.name }
    requires parts { blank.parts ≡ L.parts }
    requires one { 0 < blank.parts }
    ensures found { IfSome result (λ m. IsBareSurvey space.now limits m.survey) }
    // The depth returned is the least limit on depth under which the message is accepted.
    ensures depth { IfSome result (λ m. IsDepth (space.now ∷ []) limits m.depth) }
    ensures within { IfSome result (λ m. m.depth ≤ limits.depth) }
    ensures only { (v : Value) → IsValueOf (space.now ∷ []) limits v → first_cap v ≡ None → canon v ≡ bytes space.now
        → IsSome result }
    ensures bounded { IfSome result (λ m. IsBounded limits.budget m.survey.paid m.survey.visits) }
{
    let (space, mut reads) = count_reads::<Bare<'_>, L>(space, blank);
    measure_canonical_counted(&space, limits, &mut reads)
}

/// Surveys the message `space` of one segment within `limits` and finds the depth. Returns the result of
/// [`measure_canonical`]. The counts in `reads` have the bounds of [`survey_canonical_counted`]. No memory is
/// allocated.
pub fn measure_canonical_counted<S: Space, L: Ledger>(
    space: &CountedSpace<'_, S, L>,
    limits: Limits,
    reads: &mut Reads<L>,
) -> Option<MeasuredBare>
    requires one { length space.now ≡ 1 }
    ensures found { IfSome result (λ m. IsBareSurvey (segment_at space.now 0) limits m.survey) }
    // The depth returned is the least limit on depth under which the message is accepted.
    ensures depth { IfSome result (λ m. IsDepth space.now limits m.depth) }
    ensures within { IfSome result (λ m. m.depth ≤ limits.depth) }
    ensures only { (v : Value) → IsValueOf space.now limits v → first_cap v ≡ None
        → canon v ≡ bytes (segment_at space.now 0) → IsSome result }
    ensures bounded { IfSome result (λ m. IsBounded limits.budget m.survey.paid m.survey.visits) }
    // The pass does at most ten reads and turns of loops for each word paid, and eight more.
    ensures reads { IfSome result (λ m. reads.new ≤ reads.old + 10 * m.survey.paid + 8) }
    // The budget bounds the number of reads and turns, whatever the message and the result are.
    ensures work { reads.new ≤ reads.old + 10 * limits.budget + 8 }
{
    let words = CountedWords::of(space);
    match measure_root::<S, L, true>(&words, limits, reads) {
        Some(measured) => {
            if measured.survey.is_canonical {
                return Some(measured);
            }
            None
        }
        None => None,
    }
}

/// Makes the one pass over the words of `space` within `limits`, and counts the reads in `reads`. Returns `None` if the
/// words do not begin with canonical bytes of a value within `limits`. If words follow the canonical bytes, these words
/// cost nothing, and `is_canonical` is `false`. If `DEEP` is set, the pass also finds the depth of the objects.
/// Otherwise the depth returned is 0.
#[inline(always)]
pub fn measure_root<S: Space, L: Ledger, const DEEP: bool>(
    space: &CountedWords<'_, S, L>,
    limits: Limits,
    reads: &mut Reads<L>,
) -> Option<MeasuredBare>
    requires { IsMessage (space.now ∷ []) }
    ensures found { IfSome result (λ m. IsBareSurvey space.now limits m.survey) }
    ensures depth { IsTrue DEEP → IfSome result (λ m. IsTrue m.survey.is_canonical
        → IsDepth (space.now ∷ []) limits m.depth) }
    ensures within { IfSome result (λ m. m.depth ≤ limits.depth) }
    ensures only { (v : Value) → IsValueOf (space.now ∷ []) limits v → first_cap v ≡ None → canon v ≡ bytes space.now
        → IsSome result }
    ensures bounded { IfSome result (λ m. IsBounded limits.budget m.survey.paid m.survey.visits) }
    ensures reads { IfSome result (λ m. reads.new ≤ reads.old + 10 * m.survey.paid + 8) }
    ensures work { reads.new ≤ reads.old + 10 * limits.budget + 8 }
{
    let size = words_of(space, reads);
    if size == 0 {
        return None;
    }
    let budget = limits.budget();
    let depth = limits.depth();
    let root = Pass {
        from: 0,
        end: 1,
        depth,
        next: 1,
        left: budget,
        visits: 1,
    };
    let mut least = depth;
    match check_object::<S, L, DEEP>(
        space.again(),
        limits.tariff().base(),
        root,
        &mut least,
        reads,
    ) {
        Some(progress) => {
            let survey = SurveyedBare {
                paid: budget - progress.left,
                visits: progress.visits,
                capability: None,
                is_canonical: progress.next == size,
            };
            Some(MeasuredBare {
                survey,
                depth: if DEEP { depth - least } else { 0 },
            })
        }
        None => None,
    }
}
