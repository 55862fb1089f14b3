//! The call `mismatch_and_survey_in`, which finds the first reason, if any, why a message in any form is not canonical.

ghost use Rattle.std.specs.Prelude.{◌≡◌, ◌≤◌, ◌*◌, length, ⊤, IfOk, IfErr, IsErrOf, MatchResult};
ghost use Rattle.capn_value.specs.Tree.{Tree as Value};
ghost use Rattle.capn_walk.specs.Accepted.{IsBounded};
ghost use Rattle.capn_canon.specs.Denotes.{Denotes};
ghost use Rattle.capn_canon.specs.Refusal.{IsPaidWithin, IsUnacceptedIn};
ghost use Rattle.capn_canon.specs.SurveyedBytes.{Surveys};
ghost use Rattle.capn_canon.specs.declared.refusal.Refusal.TheVariants as refusals;
ghost use Rattle.capn_answers.specs.Mismatches.{IsMismatchIn, MayNeedMismatch, path_of};
ghost use Rattle.capn_answers.specs.inner.Answered.{IsMismatchSurveyed};

use capn_canon::{Form, MessageTask, Refusal, run_task, survey};
use capn_mismatch::{Mismatch, mismatch};
use capn_walk::{Limits, Surveyed};
use capn_words::Space;
use std::alloc::{Allocator, Global};

/// The mismatch of a message with its canonical bytes, and the survey of the message.
#[derive(Debug, Drop)]
pub struct SurveyedMismatch<A: Allocator = Global> {
    /// `Canonical`, or the first reason why the message is not canonical.
    pub mismatch: Mismatch<A>,
    /// The survey that [`capn_canon::survey_bytes`] returns for the message.
    pub survey: Surveyed,
}

/// The task of `mismatch_and_survey_in`: surveys a message, and finds the first reason, if any, why the message is not
/// canonical.
#[derive(Clone, Copy)]
struct MismatchTask;

impl<A: Allocator + Copy> MessageTask<A> for MismatchTask {
    type Answer = SurveyedMismatch<A>;

    ghost answers = { λ _ m limits r _. IsMismatchSurveyed m limits r };

    fn run<S: Space>(
        &mut self,
        alloc: A,
        message: &S,
        limits: Limits,
    ) -> Result<SurveyedMismatch<A>, Refusal> {
        let survey = survey(alloc, message, limits)?;
        match mismatch(alloc, message, limits) {
            Ok(mismatch) => Ok(SurveyedMismatch { mismatch, survey }),
            Err(_) => Err(Refusal::Memory),
        }
    }
}

/// Tests whether the message that `bytes` encode in `form` is canonical within `limits`. If the message is not
/// canonical, finds the first reason: several segments, the first capability, or the first word that differs from the
/// canonical bytes. Returns the mismatch, and the survey that [`capn_canon::survey_bytes`] returns. A path has at most
/// two numbers for each level of the depth limit. The bytes are unpacked or unframed at most once.
///
/// The errors are those of [`capn_canon::survey_bytes`]. `Memory` is returned only if an allocation on `alloc` was
/// refused. Memory is allocated for a stream of more than 64 segments, and for the words that a packed text unpacks to.
/// A message of one segment that is not canonical also needs memory for its canonical bytes and for the path.
/// (Our own.)
pub fn mismatch_and_survey_in<A: Allocator + Copy>(
    alloc: A,
    form: Form,
    bytes: &[u8],
    limits: Limits,
) -> Result<SurveyedMismatch<A>, Refusal>
    // If `result` is `Ok`, `mismatch` is the first reason why the message is not canonical, or `Canonical`.
    ensures found { IfOk result (λ d. IsMismatchIn form bytes.now limits d.mismatch) }
    // If `result` is `Ok`, the bytes are an accepted message, and `survey` is the survey of that message.
    ensures surveyed { IfOk result (λ d. Surveys form bytes.now limits d.survey) }
    // If the bytes denote a value, `result` is `Ok` or `Memory`.
    ensures only { (v : Value) → Denotes form bytes.now limits v
        → MatchResult result (λ d. ⊤) (λ e. e ≡ refusals.Memory) }
    // A path has at most two numbers for each level of the depth limit.
    ensures short { IfOk result (λ d. length (path_of d.mismatch) ≤ 2 * limits.depth) }
    // If `result` is `Err(e)`, the reason that `e` gives is true.
    ensures refused { IfErr result (λ e. IsUnacceptedIn form bytes.now limits e) }
    // `Memory` is returned only for a stream of more than 64 segments, for the unpacked words, or for a message of one
    // segment that is not canonical.
    ensures memory { IsErrOf result refusals.Memory → MayNeedMismatch form bytes.now limits }
    // The price, in the survey or in a refusal by the walk, is at most the budget. The number of visits is at most the
    // price plus 1.
    ensures bounded { MatchResult result (λ d. IsBounded limits.budget d.survey.paid d.survey.visits)
        (λ e. IsPaidWithin limits.budget e) }
{
    run_task(alloc, &mut MismatchTask, form, bytes, limits)
}
