//! The call `survey_bytes`, which surveys a message in any of the three forms.

ghost use Rattle.std.specs.Prelude.{◌≡◌, ◌≤◌, ◌+◌, ◌*◌, length, IfOk, IfErr, IsErrOf, MatchResult};
ghost use Rattle.capn_value.specs.Tree.{Tree as Value};
ghost use Rattle.capn_value.specs.FirstCap.{first_cap};
ghost use Rattle.capn_walk.specs.Accepted.{IsBounded};
ghost use Rattle.capn_canon.specs.Denotes.{Denotes};
ghost use Rattle.capn_layout.specs.Layout.{canon};
ghost use Rattle.capn_canon.specs.Refusal.{IsUnacceptedIn, IsPaidWithin};
ghost use Rattle.capn_canon.specs.inner.Outcomes.{IsSurveyed};
ghost use Rattle.capn_canon.specs.SurveyedBytes.{Surveys};
ghost use Rattle.capn_canon.specs.MemoryNeed.{MayNeedMemory};
ghost use Rattle.capn_canon.specs.declared.refusal.Refusal.TheVariants as refusals;

use crate::asked_input::{AskedInput, InputTask};
use crate::form::Form;
use crate::refusal::Refusal;
use capn_target::counted::Asked;
use capn_walk::{Limits, Surveyed, survey_of};
use std::alloc::Allocator;

/// The task of `survey_bytes_of`: surveys the message that was read.
#[derive(Clone, Copy)]
struct Survey;

impl InputTask for Survey {
    type Answer = Surveyed;

    ghost use Rattle.std.specs.Prelude.{◌+◌, ◌*◌};
    ghost use Rattle.capn_canon.specs.inner.Outcomes.{IsSurveyed};

    ghost answers = { λ _ m limits r _. IsSurveyed m limits r };

    ghost most = { λ limits. 14 * (limits.budget + 1) + 1 + 1 };

    #[inline(always)]
    fn run_asked<M: Asked>(&mut self, message: M, limits: Limits) -> Result<Surveyed, Refusal> {
        Ok(survey_of(message, limits)?)
    }
}

/// Surveys the message that `bytes` encode in `form`, within `limits`. Returns the number of words that the walk pays,
/// the number of visits and the first capability.
///
/// The refusals are as for [`crate::canonicalise`], but never `Capability`. `Memory` is returned only if an allocation
/// on `alloc` was refused: for the segments' ends, if there are more than 64 segments, or for the unpacked words.
#[inline(always)]
pub fn survey_bytes<A: Allocator + Copy>(
    alloc: A,
    form: Form,
    bytes: &[u8],
    limits: Limits,
) -> Result<Surveyed, Refusal>
    // If `result` is `Ok`, the bytes are an accepted message, and `result` has its price, its number of visits and its
    // first capability.
    ensures found { IfOk result (λ s. Surveys form bytes.now limits s) }
    // If the bytes denote a value, `result` is `Ok` or `Memory`.
    ensures only { (v : Value) → Denotes form bytes.now limits v
        → MatchResult result (λ s. s.capability ≡ first_cap v) (λ e. e ≡ refusals.Memory) }
    // If `result` is `Err(e)`, the reason that `e` gives is true.
    ensures refused { IfErr result (λ e. IsUnacceptedIn form bytes.now limits e) }
    // `Memory` is returned only if reading the bytes may need memory, for more than 64 segments or for unpacked words.
    ensures memory { IsErrOf result refusals.Memory → MayNeedMemory form bytes.now limits }
    // The walk pays at most the budget, also if the message is refused.
    ensures bounded { MatchResult result (λ s. IsBounded limits.budget s.paid s.visits)
        (λ e. IsPaidWithin limits.budget e) }
    // The value has at most 8 canonical bytes for each word paid, and 8 more.
    ensures short { IfOk result (λ s. (v : Value) → Denotes form bytes.now limits v
        → length (canon v) ≤ 8 * (s.paid + 1)) }
{
    survey_bytes_of(alloc, form, bytes, limits)
}

/// Surveys the message that `bytes` encode in `form`, within `limits`. Returns the result of [`survey_bytes`], which is
/// this call on a slice.
///
/// Here `bytes` are any [`AskedInput`], so the clause `work` bounds how often the message is read. The steps that find
/// the message in the bytes are not counted. (Our own.)
#[inline(always)]
pub fn survey_bytes_of<A: Allocator + Copy, B: AskedInput>(
    alloc: A,
    form: Form,
    bytes: B,
    limits: Limits,
) -> Result<Surveyed, Refusal>
    // The message must allow 14 * (budget + 1) + 1 reads and turns of the loop, and one more to start the count. A
    // slice allows any number.
    requires work { B.allows bytes (14 * (limits.budget + 1) + 1 + 1) }
    // If `result` is `Ok`, the bytes are an accepted message, and `result` has its price, its number of visits and its
    // first capability.
    ensures found { IfOk result (λ s. Surveys form (B.bytes bytes) limits s) }
    // If the bytes denote a value, `result` is `Ok` or `Memory`.
    ensures only { (v : Value) → Denotes form (B.bytes bytes) limits v
        → MatchResult result (λ s. s.capability ≡ first_cap v) (λ e. e ≡ refusals.Memory) }
    // If `result` is `Err(e)`, the reason that `e` gives is true.
    ensures refused { IfErr result (λ e. IsUnacceptedIn form (B.bytes bytes) limits e) }
    // `Memory` is returned only if reading the bytes may need memory, for more than 64 segments or for unpacked words.
    ensures memory { IsErrOf result refusals.Memory → MayNeedMemory form (B.bytes bytes) limits }
    // The walk pays at most the budget, also if the message is refused.
    ensures bounded { MatchResult result (λ s. IsBounded limits.budget s.paid s.visits)
        (λ e. IsPaidWithin limits.budget e) }
    // The value has at most 8 canonical bytes for each word paid, and 8 more.
    ensures short { IfOk result (λ s. (v : Value) → Denotes form (B.bytes bytes) limits v
        → length (canon v) ≤ 8 * (s.paid + 1)) }
{
    // The proof of `short` needs the ranges that these calls promise.
    let _words = limits.message_words();
    let _budget = limits.budget();
    let _depth = limits.depth();
    let (answer, _task) = bytes.ask_message(alloc, Survey, form, limits);
    answer
}
