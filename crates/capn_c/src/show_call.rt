//! The call `capn_show`, which writes the text of a message in any form, in one of four styles.

ghost use Rattle.std.specs.Prelude.{IsTrue, ◌≡◌, ◌≢◌, ◌⊎◌, ◌↔◌, ◌≤◌, ℕ, List};
ghost use Rattle.capn_value.specs.Tree.{Tree as Value};
ghost use Rattle.capn_walk.specs.Accepted.{IsBounded};
ghost use Rattle.capn_walk.specs.declared.survey_answer.Surveyed.{Surveyed as Survey};
ghost use Rattle.capn_canon.specs.Denotes.{Denotes};
ghost use Rattle.capn_canon.specs.Refusal.{IsUnacceptedIn};
ghost use Rattle.capn_canon.specs.SurveyedBytes.{Surveys};
ghost use Rattle.capn_canon.specs.declared.refusal.Refusal.{Refusal as Refusals};
ghost use Rattle.capn_abi.specs.Calls.{IsForm, form_named, GiveLimits, IsTariff, bounds_of, Delivers};
ghost use Rattle.capn_abi.specs.Styles.{IsStyle, style_named};
ghost use Rattle.capn_c.specs.Shown.{MayNeedText, ShowsIn, message_text};
ghost use Rattle.capn_abi.specs.StatusCodes.{Reports, answered, at_number, is_status};
ghost use Rattle.capn_c.specs.inner.Reported.{IsReported};

use crate::message_text::text_in;
use capn_abi::{
    BAD_FORM, BAD_STYLE, CapnLimits, CapnReport, answer_of, deliver, form_of, limits_of, refuse,
    report_at, style_of,
};
use capn_canon::Form;
use capn_walk::Limits;
use std::alloc::Global;

/// Writes to `out` the text of the message that `bytes` encode in `form`, and reports the result. `style` is the number
/// of the style.
fn show_in(
    alloc: Global,
    form: Form,
    bytes: &[u8],
    limits: Limits,
    style: u32,
    out: &mut [u8],
    report: &mut CapnReport,
) -> u32
    ensures possible { (result ≤ 1) ⊎ (result ≡ 6) ⊎ (8 ≤ result) }
    ensures style { (result ≡ 6) ↔ (IsStyle style → ⊥) }
    ensures found { result ≤ 1 → (text : List ℕ) × ShowsIn form bytes.now limits (style_named style) text
        × Delivers text result report.new.length out.old out.new }
    ensures only { IsStyle style → (v : Value) → Denotes form bytes.now limits v
        → (result ≡ 8) ⊎ Delivers (message_text (style_named style) v) result report.new.length out.old out.new }
    ensures rest { result ≤ 1 → (s : Survey) × Surveys form bytes.now limits s
        × (report.new ≡ answered report.new.length s.paid s.visits) }
    ensures blank { result ≡ 6 → report.new ≡ at_number 0 }
    ensures reported { IsReported (IsUnacceptedIn form bytes.now limits) (MayNeedText form bytes.now limits)
        limits.budget result report.new }
    ensures kept { result ≢ 0 → out.new ≡ out.old }
{
    let Some(style) = style_of(style) else {
        *report = report_at(0);
        return BAD_STYLE;
    };
    match text_in(alloc, form, bytes, limits, style) {
        Ok(shown) => {
            let survey = shown.survey;
            *report = answer_of(shown.text.len() as u64, survey.paid, survey.visits);
            deliver(shown.text.as_slice(), out)
        }
        Err(refusal) => refuse(refusal, report),
    }
}

/// Writes to `out` the text of the message that `bytes` encode in `form`, within `limits`. The `style` 0 is lines, 1 is
/// lines with texts between quotes, 2 is a line of JSON, and 3 is a line of JSON with texts as strings.
///
/// The status is 0 if the text is at the start of `out`, and 1 if `out` is too short. If it is 0 or 1, `paid` is the
/// price of the walk, and `visits` is the number of visits. If it is 1, `out` is unchanged, and `length` is exactly the
/// length of the text in bytes. The status is 2, 3, 4 or 6 if the form, a limit, the tariff or the style is out of its
/// range. It is 8 if memory was refused: for a stream of more than 64 segments, for the unpacked words, or for the
/// text. Otherwise it is the status of the refusal. A capability is no reason for a refusal.
#[unsafe(no_mangle)]
pub extern "C" fn capn_show(
    alloc: Global,
    form: u32,
    bytes: &[u8],
    limits: &CapnLimits,
    style: u32,
    out: &mut [u8],
    report: &mut CapnReport,
) -> u32
    // If the form, a limit, the tariff or the style is out of its range, the first of them decides `result`: 2 for the
    // form, 3 for a limit, 4 for the tariff, 6 for the style. Otherwise `result` is none of these numbers.
    ensures form { (result ≡ 2) ↔ (IsForm form → ⊥) }
    ensures limits { (result ≡ 3) ↔ (IsForm form × (GiveLimits limits.now → ⊥)) }
    ensures tariff { (result ≡ 4) ↔ (IsForm form × GiveLimits limits.now × (IsTariff limits.now.tariff → ⊥)) }
    ensures style { (result ≡ 6)
        ↔ (IsForm form × GiveLimits limits.now × IsTariff limits.now.tariff × (IsStyle style → ⊥)) }
    // If `result` is 0 or 1, the bytes are an accepted message. Its text is in `out` if `result` is 0.
    ensures found { result ≤ 1 → (text : List ℕ)
        × ShowsIn (form_named form) bytes.now (bounds_of limits.now) (style_named style) text
        × Delivers text result report.new.length out.old out.new }
    // If the bytes are an accepted message, `result` is 0, 1 or 8. If it is 0, the text of the message is in `out`.
    ensures only { IsForm form → GiveLimits limits.now → IsTariff limits.now.tariff → IsStyle style → (v : Value)
        → Denotes (form_named form) bytes.now (bounds_of limits.now) v
        → (result ≡ 8) ⊎ Delivers (message_text (style_named style) v) result report.new.length out.old out.new }
    // If `result` is 0 or 1, the report has the length of the text, the price and the number of visits. All other
    // fields of the report are 0.
    ensures rest { result ≤ 1 → (s : Survey) × Surveys (form_named form) bytes.now (bounds_of limits.now) s
        × (report.new ≡ answered report.new.length s.paid s.visits) }
    ensures blank { 2 ≤ result → result ≤ 6 → report.new ≡ at_number 0 }
    ensures listed { IsTrue (is_status result) }
    // If `result` is at least 5 and not 6, `result` and `report` describe a refusal `e`, whose reason is true. If
    // `result` is not 8, they describe no other refusal.
    ensures refused { 5 ≤ result → result ≢ 6 → (e : Refusals) × Reports result report.new e
        × IsUnacceptedIn (form_named form) bytes.now (bounds_of limits.now) e }
    // `result` is 8 only for a stream of more than 64 segments, for the unpacked words, or for the text of an accepted
    // message.
    ensures memory { result ≡ 8 → MayNeedText (form_named form) bytes.now (bounds_of limits.now) }
    // For any `result`, the reported price is at most the budget, and the number of visits at most the price plus 1.
    ensures bounded { IsBounded limits.now.budget report.new.paid report.new.visits }
    // If `result` is not 0, `out` is unchanged.
    ensures kept { result ≢ 0 → out.new ≡ out.old }
{
    *report = report_at(0);
    let Some(form) = form_of(form) else {
        return BAD_FORM;
    };
    match limits_of(limits) {
        Ok(limits) => show_in(alloc, form, bytes, limits, style, out, report),
        Err(status) => status,
    }
}
