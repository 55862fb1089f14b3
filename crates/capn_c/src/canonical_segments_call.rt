//! The call `capn_canonical_segments`, which writes the canonical bytes of a message that is held in segments.

ghost use Rattle.std.specs.Prelude.{IsTrue, ◌≡◌, ◌≢◌, ◌⊎◌, ◌↔◌, ◌≤◌, ◌+◌, ◌*◌, ℕ, List, None, length, take};
ghost use Rattle.capn_value.specs.Tree.{Tree as Value};
ghost use Rattle.capn_value.specs.FirstCap.{first_cap};
ghost use Rattle.capn_walk.specs.Accepted.{IsBounded};
ghost use Rattle.capn_canon.specs.Layout.{canon};
ghost use Rattle.capn_canon.specs.Canonicity.{IsCanonicalForm};
ghost use Rattle.capn_canon.specs.declared.refusal.Refusal.{Refusal as Refusals};
ghost use Rattle.capn_stream.specs.Segments.{message_of};
ghost use Rattle.capn_abi.specs.Calls.{GiveLimits, IsTariff, bounds_of, Serves};
ghost use Rattle.capn_c.specs.Held.{AnswersHeld, DenotesHeld, IsRefusedHeld};
ghost use Rattle.capn_abi.specs.StatusCodes.{Reports, answered, at_number, is_status};
ghost use Rattle.capn_c.specs.inner.Reported.{IsReported};

use crate::canonical_fill::fill_held;
use crate::held_message::survey_held;
use capn_abi::{CapnLimits, CapnReport, NO_ROOM, answer_of, limits_of, refuse, report_at};
use capn_canon::Refusal;
use capn_walk::Limits;
use std::alloc::Global;

/// Surveys the message that is held in `segments`. Reports the refusal, or the status `NO_ROOM` with a length that is
/// enough for the canonical bytes.
fn held_length(
    alloc: Global,
    segments: &[&[[u8; 8]]],
    limits: Limits,
    report: &mut CapnReport,
) -> u32
    ensures possible { (result ≡ 1) ⊎ (8 ≤ result) }
    ensures found { result ≡ 1 → (text : List ℕ)
        × AnswersHeld (message_of segments.now) limits text report.new.paid × (length text ≤ report.new.length) }
    ensures only { (v : Value) → DenotesHeld (message_of segments.now) limits v → first_cap v ≡ None
        → (result ≡ 1) × (length (canon v) ≤ report.new.length) }
    ensures rest { result ≡ 1 → report.new ≡ answered (8 * (report.new.paid + 1)) report.new.paid 0 }
    ensures reported { IsReported (IsRefusedHeld (message_of segments.now) limits) ⊥ limits.budget result report.new }
{
    match survey_held(alloc, segments, limits) {
        Ok(surveyed) => match surveyed.capability {
            Some(index) => refuse(Refusal::Capability(index), report),
            None => {
                let paid = surveyed.paid;
                *report = answer_of(8 * (paid as u64 + 1), paid, 0);
                NO_ROOM
            }
        },
        Err(refusal) => refuse(refusal, report),
    }
}

/// Writes the canonical bytes of the message that is held in `segments` to `out`, within `limits`.
///
/// The status is 0 if the canonical bytes are at the start of `out`, and 1 if `out` is too short. If it is 1, `out` is
/// unchanged, and `length` is exactly the number of canonical bytes. An empty `out` is an exception: the message is
/// only surveyed, and `length` is 8 bytes for each word paid and 8 more, which is enough.
///
/// The status is 3 or 4 if a limit or the tariff is out of its range, and 48 if there are no segments. Otherwise it is
/// the status of the refusal that a frame of the same segments gets. No memory is allocated.
#[unsafe(no_mangle)]
pub extern "C" fn capn_canonical_segments(
    alloc: Global,
    segments: &[&[[u8; 8]]],
    limits: &CapnLimits,
    out: &mut [u8],
    report: &mut CapnReport,
) -> u32
    // `result` is 3 if and only if a limit is out of its range. If the limits are in their ranges, `result` is 4 if and
    // only if the tariff is out of its range.
    ensures limits { (result ≡ 3) ↔ (GiveLimits limits.now → ⊥) }
    ensures tariff { (result ≡ 4) ↔ (GiveLimits limits.now × (IsTariff limits.now.tariff → ⊥)) }
    // `result` is 0 or 1, the status of an argument that is out of its range (3 or 4), or the status of a refusal. A
    // refusal is never reported as a wrong argument.
    ensures possible { (result ≤ 1) ⊎ (result ≡ 3) ⊎ (result ≡ 4) ⊎ (8 ≤ result) }
    // If `result` is 0 or 1, the message denotes one value, which has canonical bytes, and `paid` is the price. The
    // canonical bytes are in `out` if `result` is 0, and are too long for `out` if it is 1.
    ensures found { result ≤ 1 → (text : List ℕ)
        × AnswersHeld (message_of segments.now) (bounds_of limits.now) text report.new.paid
        × Serves text result report.new out.old out.new }
    // If the message denotes a value without capabilities, `result` is 0 (`out` has its canonical bytes) or 1.
    ensures only { GiveLimits limits.now → IsTariff limits.now.tariff → (v : Value)
        → DenotesHeld (message_of segments.now) (bounds_of limits.now) v → first_cap v ≡ None
        → Serves (canon v) result report.new out.old out.new }
    // If `result` is 0 or 1, all fields of the report other than `length` and `paid` are 0.
    ensures rest { result ≤ 1 → report.new ≡ answered report.new.length report.new.paid 0 }
    ensures blank { 2 ≤ result → result ≤ 4 → report.new ≡ at_number 0 }
    ensures listed { IsTrue (is_status result) }
    // If `result` is at least 5, `result` and `report` describe a refusal `e`, whose reason is true. If `result` is not
    // 8, they describe no other refusal.
    ensures refused { 5 ≤ result → (e : Refusals) × Reports result report.new e
        × IsRefusedHeld (message_of segments.now) (bounds_of limits.now) e }
    // `result` is never 8, since nothing is allocated.
    ensures no_memory { result ≢ 8 }
    // For any `result`, the reported price is at most the budget, and the number of visits at most the price plus 1.
    ensures bounded { IsBounded limits.now.budget report.new.paid report.new.visits }
    ensures short { result ≤ 1 → report.new.length ≤ 8 * (report.new.paid + 1) }
    // If `result` is not 0, `out` is unchanged.
    ensures kept { result ≢ 0 → out.new ≡ out.old }
    // If the message denotes `v` and `result` is 0, the bytes written have the four properties of `IsCanonicalForm`.
    ensures canonical { result ≡ 0 → (v : Value) → DenotesHeld (message_of segments.now) (bounds_of limits.now) v
        → IsCanonicalForm (take report.new.length out.new) (bounds_of limits.now) v }
{
    *report = report_at(0);
    match limits_of(limits) {
        Ok(limits) => {
            if out.is_empty() {
                return held_length(alloc, segments, limits, report);
            }
            fill_held(alloc, segments, limits, out, report)
        }
        Err(status) => status,
    }
}
