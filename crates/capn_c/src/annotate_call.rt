//! The call `capn_annotate`, which writes the lines of a message in any form as records of numbers.

ghost use Rattle.std.specs.Prelude.{IsTrue, ◌≡◌, ◌≢◌, ◌⊎◌, ◌↔◌, ◌<◌, ◌≤◌, ◌*◌, ℕ, length};
ghost use Rattle.capn_value.specs.Tree.{Tree as Value};
ghost use Rattle.capn_walk.specs.Accepted.{IsBounded};
ghost use Rattle.capn_walk.specs.declared.survey_answer.Surveyed.{Surveyed as Survey};
ghost use Rattle.capn_canon.specs.Denotes.{Denotes};
ghost use Rattle.capn_canon.specs.Refusal.{IsUnacceptedIn};
ghost use Rattle.capn_canon.specs.SurveyedBytes.{Surveys};
ghost use Rattle.capn_canon.specs.declared.refusal.Refusal.{Refusal as Refusals};
ghost use Rattle.capn_answers.specs.Annotated.{AnnotatedIn, HasLinesIn, MayNeedLines};
ghost use Rattle.capn_abi.specs.Calls.{IsForm, form_named, GiveLimits, IsTariff, bounds_of};
ghost use Rattle.capn_abi.specs.StatusCodes.{Reports, answered, at_number, is_status};
ghost use Rattle.capn_c.specs.inner.Reported.{IsReported};

use capn_abi::{
    BAD_FORM, CapnLimits, CapnReport, DONE, NO_ROOM, answer_of, form_of, limits_of, refuse,
    report_at,
};
use capn_answers::{CapnLine, lines_in};
use capn_canon::Form;
use capn_walk::Limits;
use std::alloc::Global;

/// Writes to `out` the lines of the message that `bytes` encode in `form`, and reports the result.
fn annotate_in(
    alloc: Global,
    form: Form,
    bytes: &[u8],
    limits: Limits,
    out: &mut [CapnLine],
    report: &mut CapnReport,
) -> u32
    ensures possible { (result ≤ 1) ⊎ (8 ≤ result) }
    ensures lines { result ≤ 1 → (n : ℕ) × HasLinesIn form bytes.now limits n × (report.new.length ≡ 48 * n) }
    ensures written { result ≡ 0 → (report.new.length ≤ 48 * length out.old)
        × AnnotatedIn form bytes.now limits out.old out.new }
    ensures no_room { result ≡ 1 → 48 * length out.old < report.new.length }
    ensures rest { result ≤ 1 → (s : Survey) × Surveys form bytes.now limits s
        × (report.new ≡ answered report.new.length s.paid s.visits) }
    ensures only { (v : Value) → Denotes form bytes.now limits v → (result ≤ 1) ⊎ (result ≡ 8) }
    ensures reported { IsReported (IsUnacceptedIn form bytes.now limits) (MayNeedLines form bytes.now limits)
        limits.budget result report.new }
    ensures kept { result ≢ 0 → out.new ≡ out.old }
{
    match lines_in(alloc, form, bytes, limits, out) {
        Ok(told) => {
            let survey = told.survey;
            *report = answer_of(48 * told.lines as u64, survey.paid, survey.visits);
            if told.lines as usize <= out.len() {
                DONE
            } else {
                NO_ROOM
            }
        }
        Err(refusal) => refuse(refusal, report),
    }
}

/// Writes to `out` the lines of the message that `bytes` encode in `form`, within `limits`. A line is a run of words
/// that are alike: what they are, how often they are read, and the pointer to whose object they belong.
///
/// The status is 0 if the lines are at the start of `out`. It is 1 if `out` is too short, and then `out` is unchanged.
/// If it is 0 or 1, `length` is 48 bytes for each line, `paid` is the price of the walk, and `visits` is the number of
/// visits. The status is 2, 3 or 4 if the form, a limit or the tariff is out of its range. It is 8 if memory was
/// refused: for a stream of more than 64 segments, for the unpacked words, or for 16 bytes for each word of an accepted
/// message and 4 bytes for each segment. Otherwise it is the status of the refusal. A capability is no reason for a
/// refusal.
#[unsafe(no_mangle)]
pub extern "C" fn capn_annotate(
    alloc: Global,
    form: u32,
    bytes: &[u8],
    limits: &CapnLimits,
    out: &mut [CapnLine],
    report: &mut CapnReport,
) -> u32
    // `result` is 2 if and only if the form is out of its range. If the form is in its range, `result` is 3 if and only
    // if a limit is out of its range. If the limits are in their ranges too, `result` is 4 if and only if the tariff is
    // out of its range.
    ensures form { (result ≡ 2) ↔ (IsForm form → ⊥) }
    ensures limits { (result ≡ 3) ↔ (IsForm form × (GiveLimits limits.now → ⊥)) }
    ensures tariff { (result ≡ 4) ↔ (IsForm form × GiveLimits limits.now × (IsTariff limits.now.tariff → ⊥)) }
    // If `result` is 0 or 1, the bytes are an accepted message, and `length` is 48 bytes for each of its lines.
    ensures lines { result ≤ 1 → (n : ℕ) × HasLinesIn (form_named form) bytes.now (bounds_of limits.now) n
        × (report.new.length ≡ 48 * n) }
    // If `result` is 0, the lines are in `out`. If `result` is 1, `out` has fewer items than the message has lines.
    ensures written { result ≡ 0 → (report.new.length ≤ 48 * length out.old)
        × AnnotatedIn (form_named form) bytes.now (bounds_of limits.now) out.old out.new }
    ensures no_room { result ≡ 1 → 48 * length out.old < report.new.length }
    // If `result` is 0 or 1, the report has the length, the price and the number of visits. All other fields of the
    // report are 0.
    ensures rest { result ≤ 1 → (s : Survey) × Surveys (form_named form) bytes.now (bounds_of limits.now) s
        × (report.new ≡ answered report.new.length s.paid s.visits) }
    // If the bytes are an accepted message, `result` is 0 or 1, unless memory was refused.
    ensures only { IsForm form → GiveLimits limits.now → IsTariff limits.now.tariff → (v : Value)
        → Denotes (form_named form) bytes.now (bounds_of limits.now) v → (result ≤ 1) ⊎ (result ≡ 8) }
    ensures blank { 2 ≤ result → result ≤ 4 → report.new ≡ at_number 0 }
    ensures listed { IsTrue (is_status result) }
    // If `result` is at least 5, `result` and `report` describe a refusal `e`, whose reason is true. If `result` is not
    // 8, they describe no other refusal.
    ensures refused { 5 ≤ result → (e : Refusals) × Reports result report.new e
        × IsUnacceptedIn (form_named form) bytes.now (bounds_of limits.now) e }
    // `result` is 8 only if reading the bytes may need memory, or if the bytes are an accepted message.
    ensures memory { result ≡ 8 → MayNeedLines (form_named form) bytes.now (bounds_of limits.now) }
    // For any `result`, the reported price is at most the budget, and the number of visits at most the price plus 1.
    ensures bounded { IsBounded limits.now.budget report.new.paid report.new.visits }
    // If `result` is not 0, `out` is unchanged.
    ensures kept { result ≢ 0 → out.new ≡ out.old }
{
    *report = report_at(0);
    let Some(form) = form_of(form) else {
        return BAD_FORM;
    };
    match limits_of(limits) {
        Ok(limits) => annotate_in(alloc, form, bytes, limits, out, report),
        Err(status) => status,
    }
}
