//! The call `capn_survey_segments`, which finds the figures of a message that is held in segments.

ghost use Rattle.std.specs.Prelude.{IsTrue, ◌≡◌, ◌≢◌, ◌⊎◌, ◌↔◌, ◌≤◌};
ghost use Rattle.capn_value.specs.Tree.{Tree as Value};
ghost use Rattle.capn_walk.specs.Accepted.{IsBounded};
ghost use Rattle.capn_canon.specs.declared.refusal.Refusal.{Refusal as Refusals};
ghost use Rattle.capn_stream.specs.Segments.{message_of};
ghost use Rattle.capn_abi.specs.Calls.{GiveLimits, IsTariff, bounds_of};
ghost use Rattle.capn_c.specs.Held.{DenotesHeld, FiguresHeld, IsUnacceptedHeld};
ghost use Rattle.capn_abi.specs.StatusCodes.{Reports, answered, at_number, is_status};
ghost use Rattle.capn_c.specs.inner.Reported.{IsDoneHeld};

use crate::figures::CapnFigures;
use crate::message_figures::figures_held;
use capn_abi::{CapnLimits, CapnReport, DONE, answer_of, limits_of, refuse, report_at};
use capn_walk::Limits;
use std::alloc::Global;

/// Writes the figures of the message that is held in `segments` to `figures`, and reports the result.
fn tell_figures(
    alloc: Global,
    segments: &[&[[u8; 8]]],
    limits: Limits,
    figures: &mut CapnFigures,
    report: &mut CapnReport,
) -> u32
    ensures told { IsDoneHeld (message_of segments.now) limits (FiguresHeld (message_of segments.now) limits figures.new
        × (report.new ≡ answered 0 figures.new.paid figures.new.visits)) result report.new }
    ensures kept { result ≢ 0 → figures.new ≡ figures.old }
{
    match figures_held(alloc, segments, limits) {
        Ok(found) => {
            *figures = found;
            *report = answer_of(0, found.paid, found.visits);
            DONE
        }
        Err(refusal) => refuse(refusal, report),
    }
}

/// Writes the figures of the message that is held in `segments` to `figures`, within `limits`. The figures are the
/// words, the segments, the price, the visits, the depth, the first capability, and whether the message is canonical.
///
/// The status is 0 if the figures are written, 3 or 4 if a limit or the tariff is out of its range, and 48 if there are
/// no segments. Otherwise it is the status of the refusal that a frame of the same segments gets. No memory is
/// allocated. A message of one segment that is not canonical is walked at most twice, any other message once.
#[unsafe(no_mangle)]
pub extern "C" fn capn_survey_segments(
    alloc: Global,
    segments: &[&[[u8; 8]]],
    limits: &CapnLimits,
    figures: &mut CapnFigures,
    report: &mut CapnReport,
) -> u32
    // `result` is 3 if and only if a limit is out of its range. If the limits are in their ranges, `result` is 4 if and
    // only if the tariff is out of its range.
    ensures limits { (result ≡ 3) ↔ (GiveLimits limits.now → ⊥) }
    ensures tariff { (result ≡ 4) ↔ (GiveLimits limits.now × (IsTariff limits.now.tariff → ⊥)) }
    // `result` is 0, the status of an argument out of its range (3 or 4), or the status of a refusal. A refusal is
    // never reported as a short buffer (1) or as a wrong argument.
    ensures possible { (result ≡ 0) ⊎ (result ≡ 3) ⊎ (result ≡ 4) ⊎ (8 ≤ result) }
    // If `result` is 0, the segments are an accepted message with the `figures`. The report has the price and the
    // number of visits.
    ensures found { result ≡ 0 → FiguresHeld (message_of segments.now) (bounds_of limits.now) figures.new
        × (report.new ≡ answered 0 figures.new.paid figures.new.visits) }
    // If the segments are an accepted message, `result` is 0.
    ensures only { GiveLimits limits.now → IsTariff limits.now.tariff → (v : Value)
        → DenotesHeld (message_of segments.now) (bounds_of limits.now) v → result ≡ 0 }
    ensures blank { 1 ≤ result → result ≤ 4 → report.new ≡ at_number 0 }
    ensures listed { IsTrue (is_status result) }
    // If `result` is at least 5, `result` and `report` describe a refusal `e`, whose reason is true. If `result` is not
    // 8, they describe no other refusal.
    ensures refused { 5 ≤ result → (e : Refusals) × Reports result report.new e
        × IsUnacceptedHeld (message_of segments.now) (bounds_of limits.now) e }
    // `result` is never 8, since nothing is allocated.
    ensures no_memory { result ≢ 8 }
    // For any `result`, the reported price is at most the budget, and the number of visits at most the price plus 1.
    ensures bounded { IsBounded limits.now.budget report.new.paid report.new.visits }
    // If `result` is not 0, `figures` is unchanged.
    ensures kept { result ≢ 0 → figures.new ≡ figures.old }
{
    *report = report_at(0);
    match limits_of(limits) {
        Ok(limits) => tell_figures(alloc, segments, limits, figures, report),
        Err(status) => status,
    }
}
