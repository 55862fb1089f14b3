//! The call `survey`, which surveys a message that is a `Space`.

ghost use Rattle.std.specs.Prelude.{◌≡◌, ◌≢◌, ℕ, ◌+◌, ◌*◌, ◌≤◌, IfOk, IfErr, MatchResult};
ghost use Rattle.capn_value.specs.Tree.{Tree as Value};
ghost use Rattle.capn_value.specs.FirstCap.{first_cap};
ghost use Rattle.capn_walk.specs.Accepted.{IsValueOf, IsBounded};
ghost use Rattle.capn_walk.specs.Surveyed.{IsSurvey};
ghost use Rattle.capn_canon.specs.Refusal.{IsUnaccepted, IsPaidWithin};
ghost use Rattle.capn_canon.specs.declared.refusal.Refusal.TheVariants as refusals;

use crate::refusal::Refusal;
use capn_target::counted::Asked;
use capn_walk::{Limits, Surveyed, survey_of};
use std::alloc::Allocator;

/// Surveys the message `space` within `limits`. Returns the price, the number of visits and the first capability.
///
/// A message that is not accepted is refused by `Walk`, the only refusal. The allocator is not used.
pub fn survey<A: Allocator + Copy, M: Asked>(
    _alloc: A,
    space: M,
    limits: Limits,
) -> Result<Surveyed, Refusal>
    // `space` must allow 14 * (budget + 1) + 1 reads and turns of the loop, and one more to start the count. A
    // reference to a `Space` allows any number.
    requires work { M.allows space (14 * (limits.budget + 1) + 1 + 1) }
    // If `result` is `Ok`, the message is accepted, `paid` is the number of words that the walk pays, `visits` the
    // number of visits, and `capability` the first capability of the value.
    ensures found { IfOk result (λ s. IsSurvey (M.message space) limits s) }
    // If the message is accepted, `result` is `Ok` (`no_memory` excludes `Memory`).
    ensures only { (v : Value) → IsValueOf (M.message space) limits v
        → MatchResult result (λ s. s.capability ≡ first_cap v) (λ e. e ≡ refusals.Memory) }
    // If `result` is `Err(e)`, the reason that `e` gives is true.
    ensures refused { IfErr result (λ e. IsUnaccepted (M.message space) limits e) }
    // `Memory` is never returned, whatever the depth.
    ensures no_memory { IfErr result (λ e. e ≢ refusals.Memory) }
    // The walk pays at most the budget, also if the message is refused.
    ensures bounded { MatchResult result (λ s. IsBounded limits.budget s.paid s.visits)
        (λ e. IsPaidWithin limits.budget e) }
{
    Ok(survey_of(space, limits)?)
}
