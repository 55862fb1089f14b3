//! Tests whether bare bytes are canonical, with or without a survey. The tests make no canonical bytes.

ghost use Rattle.std.specs.Prelude.{◌≡◌, ◌↔◌, ◌≢◌, ◌+◌, ◌*◌, ◌<◌, ◌≤◌, [], ◌∷◌, ◌⊎◌, None, IsTrue, IfOk, IfErr};
ghost use Rattle.std.specs.Prelude.{MatchResult, length};
ghost use Rattle.capn_words.specs.Message.{segment_at};
ghost use Rattle.capn_value.specs.Tree.{Tree as Value};
ghost use Rattle.capn_value.specs.FirstCap.{first_cap};
ghost use Rattle.capn_walk.specs.Accepted.{IsValueOf, IsWalkRefused as IsStopped, IsBounded};
ghost use Rattle.capn_target.specs.declared.target.Fault.TheVariants as faults;
ghost use Rattle.capn_canon.specs.Denotes.{Denotes};
ghost use Rattle.capn_layout.specs.Layout.{canon};
ghost use Rattle.capn_canon.specs.Refusal.{IsRefused, IsPaidWithin};
ghost use Rattle.capn_canon.specs.declared.form.Form.TheVariants as forms;
ghost use Rattle.capn_canon.specs.declared.refusal.Refusal.TheVariants as refusals;
ghost use Rattle.capn_canon.specs.BareVerdict.{SaysCanonical, IsBareSurvey};
ghost use Rattle.capn_canon.specs.inner.BareTold.{IsVerdictOf};

use crate::asked_input::{AskedInput, InputTask};
use crate::canonical_survey::measure_root;
use crate::counted_words::CountedWords;
use crate::refusal::Refusal;
use crate::surveyed_bare::SurveyedBare;
use capn_target::Fault;
use capn_target::counted::{Asked, CountedSpace, CountedTask, Reads};
use capn_walk::{Limits, Stopped, survey_counted};
use capn_words::{Bare, Place, Space};
use std::alloc::Allocator;
use std::sync::ledger::Ledger;

/// The task of `survey_bare_of`: surveys a message of one segment, and tests whether the message is canonical.
#[derive(Drop)]
struct BareTask {
    limits: Limits,
}

impl CountedTask for BareTask {
    type Told = Result<SurveyedBare, Stopped>;

    ghost use Rattle.std.specs.Prelude.{◌≡◌, ◌+◌, ◌*◌, length};
    ghost use Rattle.capn_canon.specs.inner.BareTold.{IsBareTold};

    ghost tells = { λ t m r. length m ≡ 1 → IsBareTold m t.limits r };

    ghost most = { λ t. 24 * (t.limits.budget + 1) + 1 };

    fn run<S: Space, L: Ledger>(
        self,
        space: &CountedSpace<'_, S, L>,
        reads: &mut Reads<L>,
    ) -> Result<SurveyedBare, Stopped> {
        if space.segments(reads) != 1 {
            return Err(Stopped {
                fault: Fault::NoRoot,
                place: Place::ROOT,
                paid: 0,
                visits: 0,
            });
        }
        survey_bare_counted(space, self.limits, reads)
    }
}

/// Surveys the message `space` of one segment within `limits`. Returns the result of [`survey_bare`]. `space` is read
/// only through a counter. There is no allocator, so no memory is allocated.
pub fn survey_bare_of<M: Asked>(space: M, limits: Limits) -> Result<SurveyedBare, Stopped>
    requires one { length (M.message space) ≡ 1 }
    // `space` must allow 24 * (budget + 1) + 1 reads and turns of loops, and one more to start the count. A reference
    // to a `Space` allows any number.
    requires work { M.allows space (24 * (limits.budget + 1) + 1 + 1) }
    // If `result` is `Ok`, the message is accepted. `paid` is the number of words that the walk pays, `visits` the
    // number of visits, `capability` the first capability, and `is_canonical` says whether the message is canonical.
    ensures found { IfOk result (λ c. IsBareSurvey (segment_at (M.message space) 0) limits c) }
    // If the message is accepted, `result` is `Ok`, with the first capability (`no_memory` excludes `Memory`).
    ensures only { (v : Value) → IsValueOf (M.message space) limits v
        → MatchResult result (λ c. c.capability ≡ first_cap v) (λ s. s.fault ≡ faults.Memory) }
    // An `Err` is the first stop of the walk (`no_memory` excludes `Memory`).
    ensures refused { IfErr result (λ s. (s.fault ≡ faults.Memory)
        ⊎ IsStopped (M.message space) limits s.fault s.place s.paid s.visits) }
    // The fault is never `Memory`, since nothing is allocated, whatever the depth.
    ensures no_memory { IfErr result (λ s. s.fault ≢ faults.Memory) }
    // The walk pays at most the budget, also if the message is refused.
    ensures bounded { MatchResult result (λ c. IsBounded limits.budget c.paid c.visits)
        (λ s. IsBounded limits.budget s.paid s.visits) }
{
    space.ask(BareTask { limits })
}

/// Surveys the bare message `space` within `limits`. Returns the number of words that the walk pays, the number of
/// visits, the first capability, and whether the bytes are canonical. If `space` begins with canonical bytes, one pass
/// over the words finds all of that. Otherwise a survey follows the pass.
///
/// If the walk refuses the message, the error is the stop of the walk. The allocator is not used.
pub fn survey_bare<A: Allocator + Copy>(
    _alloc: A,
    space: &Bare<'_>,
    limits: Limits,
) -> Result<SurveyedBare, Stopped>
    // If `result` is `Ok`, the message is accepted. `paid` is the number of words that the walk pays, `visits` the
    // number of visits, `capability` the first capability, and `is_canonical` says whether the message is canonical.
    ensures found { IfOk result (λ c. IsBareSurvey space.now limits c) }
    // If the message is accepted, `result` is `Ok`, with the first capability (`no_memory` excludes `Memory`).
    ensures only { (v : Value) → IsValueOf (space.now ∷ []) limits v
        → MatchResult result (λ c. c.capability ≡ first_cap v) (λ s. s.fault ≡ faults.Memory) }
    // An `Err` is the first stop of the walk (`no_memory` excludes `Memory`).
    ensures refused { IfErr result (λ s. (s.fault ≡ faults.Memory)
        ⊎ IsStopped (space.now ∷ []) limits s.fault s.place s.paid s.visits) }
    // The fault is never `Memory`, since nothing is allocated, whatever the depth.
    ensures no_memory { IfErr result (λ s. s.fault ≢ faults.Memory) }
    // The walk pays at most the budget, also if the message is refused.
    ensures bounded { MatchResult result (λ c. IsBounded limits.budget c.paid c.visits)
        (λ s. IsBounded limits.budget s.paid s.visits) }
{
    survey_bare_of(space, limits)
}

/// Surveys the message `space` of one segment within `limits`, and counts reads and loop turns in `reads`. Returns the
/// result of [`survey_bare`]. No memory is allocated.
pub fn survey_bare_counted<S: Space, L: Ledger>(
    space: &CountedSpace<'_, S, L>,
    limits: Limits,
    reads: &mut Reads<L>,
) -> Result<SurveyedBare, Stopped>
    requires one { length space.now ≡ 1 }
    // If `result` is `Ok`, the message is accepted. `paid` is the number of words that the walk pays, `visits` the
    // number of visits, `capability` the first capability, and `is_canonical` says whether the message is canonical.
    ensures found { IfOk result (λ c. IsBareSurvey (segment_at space.now 0) limits c) }
    // If the message is accepted, `result` is `Ok`, with the first capability (`no_memory` excludes `Memory`).
    ensures only { (v : Value) → IsValueOf space.now limits v
        → MatchResult result (λ c. c.capability ≡ first_cap v) (λ s. s.fault ≡ faults.Memory) }
    // An `Err` is the first stop of the walk (`no_memory` excludes `Memory`).
    ensures refused { IfErr result (λ s. (s.fault ≡ faults.Memory)
        ⊎ IsStopped space.now limits s.fault s.place s.paid s.visits) }
    // The fault is never `Memory`, since nothing is allocated, whatever the depth.
    ensures no_memory { IfErr result (λ s. s.fault ≢ faults.Memory) }
    // The walk pays at most the budget, also if the message is refused.
    ensures bounded { MatchResult result (λ c. IsBounded limits.budget c.paid c.visits)
        (λ s. IsBounded limits.budget s.paid s.visits) }
    // The budget bounds the number of reads and loop turns, whatever the result is.
    ensures work { reads.new ≤ reads.old + 24 * (limits.budget + 1) }
{
    let words = CountedWords::of(space);
    if let Some(measured) = measure_root::<S, L, false>(&words, limits, reads) {
        return Ok(measured.survey);
    }
    let told = survey_counted(space, limits, reads)?;
    Ok(SurveyedBare {
        paid: told.paid,
        visits: told.visits,
        capability: told.capability,
        is_canonical: false,
    })
}

/// Returns whether a message of one segment is canonical, by its survey `told`. A value with a capability is refused.
#[inline(always)]
fn verdict_of(told: Result<SurveyedBare, Stopped>) -> Result<bool, Refusal>
    ensures { IsVerdictOf told result }
{
    let checked = told?;
    match checked.capability {
        Some(index) => Err(Refusal::Capability(index)),
        None => Ok(checked.is_canonical),
    }
}

/// The task of `are_canonical_of`: tests whether the message that was read is canonical.
#[derive(Clone, Copy)]
struct Verdict;

impl InputTask for Verdict {
    type Answer = bool;

    ghost use Rattle.std.specs.Prelude.{◌≡◌, ◌+◌, ◌*◌, ℕ, List, [], ◌∷◌};
    ghost use Rattle.capn_canon.specs.inner.BareTold.{IsVerdict};

    ghost answers = { λ _ m limits r _. (words : List ℕ) → m ≡ words ∷ [] → IsVerdict words limits r };

    ghost most = { λ limits. 24 * (limits.budget + 1) + 1 + 1 };

    #[inline(always)]
    fn run_asked<M: Asked>(&mut self, message: M, limits: Limits) -> Result<bool, Refusal> {
        verdict_of(message.ask(BareTask { limits }))
    }
}

/// Tests whether `bytes`, read bare within `limits`, are the canonical bytes of the value that `bytes` denote. There is
/// no allocator, so no memory is allocated.
pub fn are_canonical(bytes: &[u8], limits: Limits) -> Result<bool, Refusal>
    // If `result` is `Ok`, the bytes denote one value, which has no capability, and `result` says whether the bytes are
    // the canonical bytes of that value.
    ensures found { IfOk result (λ yes. SaysCanonical bytes.now limits yes) }
    // If the bytes denote a value without capabilities, `result` is `Ok` (`no_memory` excludes `Memory`).
    ensures only { (v : Value) → Denotes forms.Bare bytes.now limits v → first_cap v ≡ None
        → MatchResult result (λ yes. IsTrue yes ↔ (canon v ≡ bytes.now)) (λ e. e ≡ refusals.Memory) }
    // If `result` is `Err(e)`, the reason that `e` gives is true.
    ensures refused { IfErr result (λ e. IsRefused forms.Bare bytes.now limits e) }
    ensures bounded { IfErr result (λ e. IsPaidWithin limits.budget e) }
    // `Memory` is never returned, whatever the depth.
    ensures no_memory { IfErr result (λ e. e ≢ refusals.Memory) }
{
    are_canonical_of(bytes, limits)
}

/// Tests whether `bytes`, read bare within `limits`, are the canonical bytes of the value that `bytes` denote. Returns
/// the result of [`are_canonical`], which is this call on a slice.
///
/// Here `bytes` are any [`AskedInput`], so the clause `work` bounds how often the message is read. There is no
/// allocator, so no memory is allocated. (Our own.)
#[inline(always)]
pub fn are_canonical_of<B: AskedInput>(bytes: B, limits: Limits) -> Result<bool, Refusal>
    // The message must allow 24 * (budget + 1) + 1 reads and turns of loops, and one more to start the count. A slice
    // allows any number.
    requires work { B.allows bytes (24 * (limits.budget + 1) + 1 + 1) }
    // If `result` is `Ok`, the bytes denote one value, which has no capability, and `result` says whether the bytes are
    // the canonical bytes of that value.
    ensures found { IfOk result (λ yes. SaysCanonical (B.bytes bytes) limits yes) }
    // If the bytes denote a value without capabilities, `result` is `Ok` (`no_memory` excludes `Memory`).
    ensures only { (v : Value) → Denotes forms.Bare (B.bytes bytes) limits v → first_cap v ≡ None
        → MatchResult result (λ yes. IsTrue yes ↔ (canon v ≡ (B.bytes bytes))) (λ e. e ≡ refusals.Memory) }
    // If `result` is `Err(e)`, the reason that `e` gives is true.
    ensures refused { IfErr result (λ e. IsRefused forms.Bare (B.bytes bytes) limits e) }
    ensures bounded { IfErr result (λ e. IsPaidWithin limits.budget e) }
    // `Memory` is never returned, whatever the depth.
    ensures no_memory { IfErr result (λ e. e ≢ refusals.Memory) }
{
    let (answer, _task) = bytes.ask_bare(Verdict, limits);
    answer
}

/// Tests whether `bytes`, read bare within `limits`, are canonical, by [`are_canonical`]. The allocator is not used.
pub fn is_canonical<A: Allocator + Copy>(
    _alloc: A,
    bytes: &[u8],
    limits: Limits,
) -> Result<bool, Refusal>
    // If `result` is `Ok`, the bytes denote one value, which has no capability, and `result` says whether the bytes are
    // the canonical bytes of that value.
    ensures found { IfOk result (λ yes. SaysCanonical bytes.now limits yes) }
    // If the bytes denote a value without capabilities, `result` is `Ok` (`no_memory` excludes `Memory`).
    ensures only { (v : Value) → Denotes forms.Bare bytes.now limits v → first_cap v ≡ None
        → MatchResult result (λ yes. IsTrue yes ↔ (canon v ≡ bytes.now)) (λ e. e ≡ refusals.Memory) }
    // If `result` is `Err(e)`, the reason that `e` gives is true.
    ensures refused { IfErr result (λ e. IsRefused forms.Bare bytes.now limits e) }
    ensures bounded { IfErr result (λ e. IsPaidWithin limits.budget e) }
    // `Memory` is never returned, whatever the depth.
    ensures no_memory { IfErr result (λ e. e ≢ refusals.Memory) }
{
    are_canonical(bytes, limits)
}
