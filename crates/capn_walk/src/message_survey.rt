//! The survey of a message: a walk from the root that does not make the message's value.

ghost use Rattle.std.specs.Prelude.{◌≡◌, ◌≢◌, ◌<◌, ◌≤◌, ◌+◌, ◌*◌, ◌⊎◌, IfOk, IfErr, MatchResult};
ghost use Rattle.capn_walk.specs.Accepted.{IsValueOf, IsWalkRefused, IsBounded};
ghost use Rattle.capn_walk.specs.Depth.{IsDepth};
ghost use Rattle.capn_walk.specs.Surveyed as told;
ghost use Rattle.capn_value.specs.Tree.{Tree};
ghost use Rattle.capn_value.specs.FirstCap.{first_cap};
ghost use Rattle.capn_target.specs.declared.target.Fault.TheVariants.{Memory};

use crate::limits::Limits;
use crate::message_walk::root_target;
use crate::no_memory::NoMemory;
use crate::survey_answer::{Measured, Surveyed};
use crate::survey_loop::survey_root;
use crate::walk_answer::Stopped;
use capn_target::counted::{Asked, CountedSpace, CountedTask, Reads};
use capn_words::Space;
use std::alloc::Allocator;
use std::sync::ledger::Ledger;

/// A task that surveys a message within `limits`.
#[derive(Drop)]
struct SurveyTask {
    limits: Limits,
}

impl CountedTask for SurveyTask {
    type Told = Result<Surveyed, Stopped>;

    ghost use Rattle.std.specs.Prelude.{◌+◌, ◌*◌};
    ghost use Rattle.capn_walk.specs.inner.Told.{IsSurveyTold};

    ghost tells = { λ t m r. IsSurveyTold m t.limits r };

    ghost most = { λ t. 14 * (t.limits.budget + 1) + 1 };

    fn run<S: Space, L: Ledger>(
        self,
        space: &CountedSpace<'_, S, L>,
        reads: &mut Reads<L>,
    ) -> Result<Surveyed, Stopped> {
        survey_counted(space, self.limits, reads)
    }
}

/// Surveys the message `space` within `limits`, without an allocator. The message is read only through calls that count
/// the reads. The results are those of [`survey`]. No memory is allocated.
pub fn survey_of<M: Asked>(space: M, limits: Limits) -> Result<Surveyed, Stopped>
    // The message has to allow 14 * (budget + 1) + 1 reads and turns of the loop, and one more read that starts the
    // count. No more can occur. A reference to a `Space` allows any number.
    requires work { M.allows space (14 * (limits.budget + 1) + 1 + 1) }
    // If `result` is `Ok`, the message is accepted. Then `result` has the number of words that the walk pays, the
    // number of visits, and the first capability of the value.
    ensures found { IfOk result (λ s. told.IsSurvey (M.message space) limits s) }
    // An accepted message gives `Ok`, with the first capability of the value. Any error is the stop of the walk.
    // `only` and `refused` also allow the fault `Memory`, which `no_memory` rules out.
    ensures only { (v : Tree) → IsValueOf (M.message space) limits v →
        MatchResult result (λ s. s.capability ≡ first_cap v) (λ s. s.fault ≡ Memory) }
    ensures refused { IfErr result (λ s.
        (s.fault ≡ Memory)
        ⊎ IsWalkRefused (M.message space) limits s.fault s.place s.paid s.visits) }
    // `Memory` is never the fault, since nothing is allocated.
    ensures no_memory { IfErr result (λ s. s.fault ≢ Memory) }
    // No more than the budget is paid, and the number of visits is at most the number of words paid, plus one.
    ensures bounded { MatchResult result (λ s. IsBounded limits.budget s.paid s.visits)
        (λ s. IsBounded limits.budget s.paid s.visits) }
{
    space.ask(SurveyTask { limits })
}

/// Surveys the message `space` within `limits`. Returns the number of words that the walk pays, the number of visits
/// and the first capability, but not the value.
///
/// The visits are made in the order of [`walk`], with the same errors, except that `Memory` is never returned. No
/// memory is allocated, and the allocator is not used.
pub fn survey<S: Space, A: Allocator + Copy>(
    _alloc: A,
    space: &S,
    limits: Limits,
) -> Result<Surveyed, Stopped>
    // If `result` is `Ok`, the message is accepted. Then `result` has the number of words that the walk pays, the
    // number of visits, and the first capability of the value.
    ensures found { IfOk result (λ s. told.IsSurvey (S.message space.now) limits s) }
    // An accepted message gives `Ok`, with the first capability of the value. Any error is the stop of the walk.
    // `only` and `refused` also allow the fault `Memory`, which `no_memory` rules out.
    ensures only { (v : Tree) → IsValueOf (S.message space.now) limits v →
        MatchResult result (λ s. s.capability ≡ first_cap v) (λ s. s.fault ≡ Memory) }
    ensures refused { IfErr result (λ s.
        (s.fault ≡ Memory)
        ⊎ IsWalkRefused (S.message space.now) limits s.fault s.place s.paid s.visits) }
    // `Memory` is never the fault, since nothing is allocated.
    ensures no_memory { IfErr result (λ s. s.fault ≢ Memory) }
    // No more than the budget is paid, and the number of visits is at most the number of words paid, plus one.
    ensures bounded { MatchResult result (λ s. IsBounded limits.budget s.paid s.visits)
        (λ s. IsBounded limits.budget s.paid s.visits) }
{
    survey_of(space, limits)
}

/// Surveys the message `space` within `limits`, and counts reads and loop turns in `reads`. The results are those of
/// [`survey`]. A read returns a word, the length of a segment, or the number of segments. The survey reads the message
/// in no other way.
///
/// The count grows by at most fourteen for each visit, including a refused visit, plus one in all. So the budget bounds
/// the work for any message. No memory is allocated.
pub fn survey_counted<S: Space, L: Ledger>(
    space: &CountedSpace<'_, S, L>,
    limits: Limits,
    reads: &mut Reads<L>,
) -> Result<Surveyed, Stopped>
    // If `result` is `Ok`, the message is accepted. Then `result` has the number of words that the walk pays, the
    // number of visits, and the first capability of the value.
    ensures found { IfOk result (λ s. told.IsSurvey space.now limits s) }
    // An accepted message gives `Ok`, with the first capability of the value. Any error is the stop of the walk.
    // `only` and `refused` also allow the fault `Memory`, which `no_memory` rules out.
    ensures only { (v : Tree) → IsValueOf space.now limits v →
        MatchResult result (λ s. s.capability ≡ first_cap v) (λ s. s.fault ≡ Memory) }
    ensures refused { IfErr result (λ s.
        (s.fault ≡ Memory)
        ⊎ IsWalkRefused space.now limits s.fault s.place s.paid s.visits) }
    // `Memory` is never the fault, since nothing is allocated.
    ensures no_memory { IfErr result (λ s. s.fault ≢ Memory) }
    // No more than the budget is paid, and the number of visits is at most the number of words paid, plus one.
    ensures bounded { MatchResult result (λ s. IsBounded limits.budget s.paid s.visits)
        (λ s. IsBounded limits.budget s.paid s.visits) }
    // The count of reads and turns grows by at most fourteen for each visit, plus one in all.
    ensures reads { MatchResult result (λ s. reads.new ≤ reads.old + 14 * s.visits + 1)
        (λ s. reads.new ≤ reads.old + 14 * s.visits + 1) }
    // The budget bounds the count, for any message and any result.
    ensures work { reads.new ≤ reads.old + 14 * (limits.budget + 1) + 1 }
{
    space.bounds();
    let target = root_target(space, reads)?;
    let told = survey_root::<S, NoMemory, L, false>(
        NoMemory,
        space,
        target,
        limits.depth(),
        limits.budget(),
        limits.tariff().base(),
        reads,
    )?;
    Ok(told.survey)
}

/// A task that surveys a message within `limits` and finds the least depth limit that admits the message.
#[derive(Drop)]
struct DepthTask {
    limits: Limits,
}

impl CountedTask for DepthTask {
    type Told = Result<Measured, Stopped>;

    ghost use Rattle.std.specs.Prelude.{◌+◌, ◌*◌};
    ghost use Rattle.capn_walk.specs.inner.Told.{IsDepthTold};

    ghost tells = { λ t m r. IsDepthTold m t.limits r };

    ghost most = { λ t. 14 * (t.limits.budget + 1) + 1 };

    fn run<S: Space, L: Ledger>(
        self,
        space: &CountedSpace<'_, S, L>,
        reads: &mut Reads<L>,
    ) -> Result<Measured, Stopped> {
        survey_depth_counted(space, self.limits, reads)
    }
}

/// Surveys the message `space` within `limits`, and also finds the least depth limit that admits the message. The
/// message is read only through calls that count the reads. The results are those of [`survey_depth`]. No allocator is
/// used.
pub fn survey_depth_of<M: Asked>(space: M, limits: Limits) -> Result<Measured, Stopped>
    // The message has to allow 14 * (budget + 1) + 1 reads and turns of the loop, and one more read that starts the
    // count. No more can occur. A reference to a `Space` allows any number.
    requires work { M.allows space (14 * (limits.budget + 1) + 1 + 1) }
    // If `result` is `Ok`, the message is accepted. Then `result` has the number of words that the walk pays, the
    // number of visits, and the first capability of the value.
    ensures found { IfOk result (λ m. told.IsSurvey (M.message space) limits m.survey) }
    // If `result` is `Ok(m)`, the message is accepted with the depth limit `m.depth`, and with no lower depth limit.
    ensures depth { IfOk result (λ m. IsDepth (M.message space) limits m.depth) }
    ensures within { IfOk result (λ m. m.depth ≤ limits.depth) }
    // An accepted message gives `Ok`, with the first capability of the value. Any error is the stop of the walk.
    // `only` and `refused` also allow the fault `Memory`, which `no_memory` rules out.
    ensures only { (v : Tree) → IsValueOf (M.message space) limits v →
        MatchResult result (λ m. m.survey.capability ≡ first_cap v) (λ s. s.fault ≡ Memory) }
    ensures refused { IfErr result (λ s.
        (s.fault ≡ Memory)
        ⊎ IsWalkRefused (M.message space) limits s.fault s.place s.paid s.visits) }
    // `Memory` is never the fault, since nothing is allocated.
    ensures no_memory { IfErr result (λ s. s.fault ≢ Memory) }
    // No more than the budget is paid, and the number of visits is at most the number of words paid, plus one.
    ensures bounded { MatchResult result (λ m. IsBounded limits.budget m.survey.paid m.survey.visits)
        (λ s. IsBounded limits.budget s.paid s.visits) }
{
    space.ask(DepthTask { limits })
}

/// Surveys the message `space` within `limits`, and also finds the least depth limit with which the message is
/// accepted, if the other limits are unchanged. The least depth limit is 0 if the root is null, else the greatest
/// number of objects on a path from the root, including the root object.
///
/// The message is surveyed once, with the errors of [`survey`]. No memory is allocated, and the allocator is not used.
pub fn survey_depth<S: Space, A: Allocator + Copy>(
    _alloc: A,
    space: &S,
    limits: Limits,
) -> Result<Measured, Stopped>
    // If `result` is `Ok`, the message is accepted. Then `result` has the number of words that the walk pays, the
    // number of visits, and the first capability of the value.
    ensures found { IfOk result (λ m. told.IsSurvey (S.message space.now) limits m.survey) }
    // If `result` is `Ok(m)`, the message is accepted with the depth limit `m.depth`, and with no lower depth limit.
    ensures depth { IfOk result (λ m. IsDepth (S.message space.now) limits m.depth) }
    ensures within { IfOk result (λ m. m.depth ≤ limits.depth) }
    // An accepted message gives `Ok`, with the first capability of the value. Any error is the stop of the walk.
    // `only` and `refused` also allow the fault `Memory`, which `no_memory` rules out.
    ensures only { (v : Tree) → IsValueOf (S.message space.now) limits v →
        MatchResult result (λ m. m.survey.capability ≡ first_cap v) (λ s. s.fault ≡ Memory) }
    ensures refused { IfErr result (λ s.
        (s.fault ≡ Memory)
        ⊎ IsWalkRefused (S.message space.now) limits s.fault s.place s.paid s.visits) }
    // `Memory` is never the fault, since nothing is allocated.
    ensures no_memory { IfErr result (λ s. s.fault ≢ Memory) }
    // No more than the budget is paid, and the number of visits is at most the number of words paid, plus one.
    ensures bounded { MatchResult result (λ m. IsBounded limits.budget m.survey.paid m.survey.visits)
        (λ s. IsBounded limits.budget s.paid s.visits) }
{
    survey_depth_of(space, limits)
}

/// Surveys the message `space` within `limits`, also finds the least depth limit that admits the message, and counts
/// reads and loop turns in `reads`. The results are those of [`survey_depth`]. The count has the bounds of
/// [`survey_counted`]. No memory is allocated.
pub fn survey_depth_counted<S: Space, L: Ledger>(
    space: &CountedSpace<'_, S, L>,
    limits: Limits,
    reads: &mut Reads<L>,
) -> Result<Measured, Stopped>
    // If `result` is `Ok`, the message is accepted. Then `result` has the number of words that the walk pays, the
    // number of visits, and the first capability of the value.
    ensures found { IfOk result (λ m. told.IsSurvey space.now limits m.survey) }
    // If `result` is `Ok(m)`, the message is accepted with the depth limit `m.depth`, and with no lower depth limit.
    ensures depth { IfOk result (λ m. IsDepth space.now limits m.depth) }
    ensures within { IfOk result (λ m. m.depth ≤ limits.depth) }
    // An accepted message gives `Ok`, with the first capability of the value. Any error is the stop of the walk.
    // `only` and `refused` also allow the fault `Memory`, which `no_memory` rules out.
    ensures only { (v : Tree) → IsValueOf space.now limits v →
        MatchResult result (λ m. m.survey.capability ≡ first_cap v) (λ s. s.fault ≡ Memory) }
    ensures refused { IfErr result (λ s.
        (s.fault ≡ Memory)
        ⊎ IsWalkRefused space.now limits s.fault s.place s.paid s.visits) }
    // `Memory` is never the fault, since nothing is allocated.
    ensures no_memory { IfErr result (λ s. s.fault ≢ Memory) }
    // No more than the budget is paid, and the number of visits is at most the number of words paid, plus one.
    ensures bounded { MatchResult result (λ m. IsBounded limits.budget m.survey.paid m.survey.visits)
        (λ s. IsBounded limits.budget s.paid s.visits) }
    // The count of reads and turns grows by at most fourteen for each visit, plus one in all.
    ensures reads { MatchResult result (λ s. reads.new ≤ reads.old + 14 * s.survey.visits + 1)
        (λ s. reads.new ≤ reads.old + 14 * s.visits + 1) }
    // The budget bounds the count, for any message and any result.
    ensures work { reads.new ≤ reads.old + 14 * (limits.budget + 1) + 1 }
{
    space.bounds();
    let target = root_target(space, reads)?;
    let told = survey_root::<S, NoMemory, L, true>(
        NoMemory,
        space,
        target,
        limits.depth(),
        limits.budget(),
        limits.tariff().base(),
        reads,
    )?;
    Ok(told)
}
