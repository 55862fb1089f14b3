//! The call `capn_check_segments`, which tests whether a message that is held in segments is accepted within limits.

ghost use Rattle.std.specs.Prelude.{IsTrue, ◌≡◌, ◌≢◌, ◌⊎◌, ◌↔◌, ◌≤◌};
ghost use Rattle.capn_value.specs.Tree.{Tree as Value};
ghost use Rattle.capn_walk.specs.Accepted.{IsBounded};
ghost use Rattle.capn_walk.specs.declared.survey_answer.Surveyed.{Surveyed as Survey};
ghost use Rattle.capn_canon.specs.declared.refusal.Refusal.{Refusal as Refusals};
ghost use Rattle.capn_stream.specs.Segments.{message_of};
ghost use Rattle.capn_abi.specs.Calls.{GiveLimits, IsTariff, bounds_of};
ghost use Rattle.capn_c.specs.Held.{DenotesHeld, IsUnacceptedHeld, SurveysHeld};
ghost use Rattle.capn_abi.specs.StatusCodes.{Reports, answered, at_number, is_status};
ghost use Rattle.capn_c.specs.inner.Reported.{IsDoneHeld};

use crate::held_message::survey_held;
use capn_abi::{CapnLimits, CapnReport, DONE, answer_of, limits_of, refuse, report_at};
use capn_walk::Limits;
use std::alloc::Global;

/// Surveys the message that is held in `segments`, and reports the result.
fn check_held(
    alloc: Global,
    segments: &[&[[u8; 8]]],
    limits: Limits,
    report: &mut CapnReport,
) -> u32
    ensures { IsDoneHeld (message_of segments.now) limits
        ((s : Survey) × SurveysHeld (message_of segments.now) limits s
        × (report.new ≡ answered 0 s.paid s.visits)) result report.new }
{
    match survey_held(alloc, segments, limits) {
        Ok(surveyed) => {
            *report = answer_of(0, surveyed.paid, surveyed.visits);
            DONE
        }
        Err(refusal) => refuse(refusal, report),
    }
}

/// Tests whether the message that is held in `segments` is accepted within `limits`, and reports the price of the walk.
///
/// The status is 0 if the message is accepted. Then `paid` is the price of the walk, and `visits` is the number of
/// visits. The status is 3 or 4 if a limit or the tariff is out of its range, and 48 if there are no segments.
/// Otherwise it is the status of the refusal that a frame of the same segments gets. No memory is allocated.
#[unsafe(no_mangle)]
pub extern "C" fn capn_check_segments(
    alloc: Global,
    segments: &[&[[u8; 8]]],
    limits: &CapnLimits,
    report: &mut CapnReport,
) -> u32
    // `result` is 3 if and only if a limit is out of its range. If the limits are in their ranges, `result` is 4 if and
    // only if the tariff is out of its range.
    ensures limits { (result ≡ 3) ↔ (GiveLimits limits.now → ⊥) }
    ensures tariff { (result ≡ 4) ↔ (GiveLimits limits.now × (IsTariff limits.now.tariff → ⊥)) }
    // `result` is 0, the status of an argument out of its range (3 or 4), or the status of a refusal. A refusal is
    // never reported as a short buffer (1) or as a wrong argument.
    ensures possible { (result ≡ 0) ⊎ (result ≡ 3) ⊎ (result ≡ 4) ⊎ (8 ≤ result) }
    // If `result` is 0, the segments are an accepted message. `paid` is the price, `visits` the number of visits, and
    // all other fields of the report are 0.
    ensures found { result ≡ 0 → (s : Survey) × SurveysHeld (message_of segments.now) (bounds_of limits.now) s
        × (report.new ≡ answered 0 s.paid s.visits) }
    // If the segments are an accepted message, `result` is 0.
    ensures only { GiveLimits limits.now → IsTariff limits.now.tariff → (v : Value)
        → DenotesHeld (message_of segments.now) (bounds_of limits.now) v → result ≡ 0 }
    ensures blank { 1 ≤ result → result ≤ 4 → report.new ≡ at_number 0 }
    ensures listed { IsTrue (is_status result) }
    // If `result` is at least 5, `result` and `report` describe a refusal `e`, whose reason is true. If `result` is not
    // 8, they describe no other refusal.
    ensures refused { 5 ≤ result → (e : Refusals) × Reports result report.new e
        × IsUnacceptedHeld (message_of segments.now) (bounds_of limits.now) e }
    // `result` is never 8, since nothing is allocated.
    ensures no_memory { result ≢ 8 }
    // For any `result`, the reported price is at most the budget, and the number of visits at most the price plus 1.
    ensures bounded { IsBounded limits.now.budget report.new.paid report.new.visits }
{
    *report = report_at(0);
    match limits_of(limits) {
        Ok(limits) => check_held(alloc, segments, limits, report),
        Err(status) => status,
    }
}
