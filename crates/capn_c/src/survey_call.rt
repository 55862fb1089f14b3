//! The call `capn_survey`, which finds the figures of a message in any form.

ghost use Rattle.std.specs.Prelude.{IsTrue, ◌≡◌, ◌≢◌, ◌⊎◌, ◌↔◌, ◌+◌, ◌*◌, ◌≤◌};
ghost use Rattle.capn_words.specs.Message.{most_segments};
ghost use Rattle.capn_value.specs.Tree.{Tree as Value};
ghost use Rattle.capn_walk.specs.Accepted.{IsBounded};
ghost use Rattle.capn_canon.specs.Denotes.{Denotes};
ghost use Rattle.capn_canon.specs.Refusal.{IsUnacceptedIn};
ghost use Rattle.capn_canon.specs.MemoryNeed.{MayNeedMemory};
ghost use Rattle.capn_canon.specs.declared.refusal.Refusal.{Refusal as Refusals};
ghost use Rattle.capn_abi.specs.Calls.{IsForm, form_named, GiveLimits, IsTariff, bounds_of};
ghost use Rattle.capn_abi.specs.StatusCodes.{Reports, answered, at_number, is_status};
ghost use Rattle.capn_c.specs.Figures.{FiguresIn};
ghost use Rattle.capn_c.specs.inner.Reported.{IsDoneIn};

use crate::figures::CapnFigures;
use crate::message_figures::figures_in;
use capn_abi::{
    BAD_FORM, CapnLimits, CapnReport, DONE, answer_of, form_of, limits_of, refuse, report_at,
};
use capn_canon::{AskedInput, Form};
use capn_walk::Limits;
use std::alloc::Global;

/// Writes to `figures` the figures of the message that `bytes` encode in `form`, and reports the result. The clause
/// `work` bounds how often the message is read.
fn survey_in<B: AskedInput>(
    alloc: Global,
    form: Form,
    bytes: B,
    limits: Limits,
    figures: &mut CapnFigures,
    report: &mut CapnReport,
) -> u32
    requires work { B.allows bytes (24 * (limits.budget + 1) + 2 * most_segments + 3 + 1) }
    ensures told { IsDoneIn form (B.bytes bytes) limits (FiguresIn form (B.bytes bytes) limits figures.new
        × (report.new ≡ answered 0 figures.new.paid figures.new.visits))
        (MayNeedMemory form (B.bytes bytes) limits) result report.new }
    ensures kept { result ≢ 0 → figures.new ≡ figures.old }
{
    match figures_in(alloc, form, bytes, limits) {
        Ok(found) => {
            *figures = found;
            *report = answer_of(0, found.paid, found.visits);
            DONE
        }
        Err(refusal) => refuse(refusal, report),
    }
}

/// Writes to `figures` the figures of the message that `bytes` encode in `form`, within `limits`. The figures are the
/// words, the segments, the price, the visits, the depth, the first capability, and whether the message is canonical.
///
/// The status is 0 if the figures are written, and 2, 3 or 4 if the form, a limit or the tariff is out of its range. It
/// is 8 if memory was refused: for a stream of more than 64 segments, or for the unpacked words. Otherwise it is the
/// status of the refusal. A capability is no reason for a refusal.
///
/// The bytes are unpacked or unframed at most once. A message of one segment that is not canonical is walked at most
/// twice, any other message once.
#[unsafe(no_mangle)]
pub extern "C" fn capn_survey(
    alloc: Global,
    form: u32,
    bytes: &[u8],
    limits: &CapnLimits,
    figures: &mut CapnFigures,
    report: &mut CapnReport,
) -> u32
    // `result` is 2 if and only if the form is out of its range. If the form is in its range, `result` is 3 if and only
    // if a limit is out of its range. If the limits are in their ranges too, `result` is 4 if and only if the tariff is
    // out of its range.
    ensures form { (result ≡ 2) ↔ (IsForm form → ⊥) }
    ensures limits { (result ≡ 3) ↔ (IsForm form × (GiveLimits limits.now → ⊥)) }
    ensures tariff { (result ≡ 4) ↔ (IsForm form × GiveLimits limits.now × (IsTariff limits.now.tariff → ⊥)) }
    // `result` is 0, the status of an argument out of its range (2, 3 or 4), or the status of a refusal. A refusal is
    // never reported as a short buffer (1) or as a wrong argument.
    ensures possible { (result ≡ 0) ⊎ (result ≡ 2) ⊎ (result ≡ 3) ⊎ (result ≡ 4) ⊎ (8 ≤ result) }
    // If `result` is 0, the bytes are an accepted message with the `figures`. The report has the price and the number
    // of visits.
    ensures found { result ≡ 0 → FiguresIn (form_named form) bytes.now (bounds_of limits.now) figures.new
        × (report.new ≡ answered 0 figures.new.paid figures.new.visits) }
    // If the bytes are an accepted message, `result` is 0, unless memory was refused.
    ensures only { IsForm form → GiveLimits limits.now → IsTariff limits.now.tariff → (v : Value)
        → Denotes (form_named form) bytes.now (bounds_of limits.now) v → (result ≡ 0) ⊎ (result ≡ 8) }
    ensures blank { 1 ≤ result → result ≤ 4 → report.new ≡ at_number 0 }
    ensures listed { IsTrue (is_status result) }
    // If `result` is at least 5, `result` and `report` describe a refusal `e`, whose reason is true. If `result` is not
    // 8, they describe no other refusal.
    ensures refused { 5 ≤ result → (e : Refusals) × Reports result report.new e
        × IsUnacceptedIn (form_named form) bytes.now (bounds_of limits.now) e }
    // `result` is 8 only if `bytes` begin with a frame of more than 64 segments (`Stream`), or with a group (`Packed`).
    ensures memory { result ≡ 8 → MayNeedMemory (form_named form) bytes.now (bounds_of limits.now) }
    // For any `result`, the reported price is at most the budget, and the number of visits at most the price plus 1.
    ensures bounded { IsBounded limits.now.budget report.new.paid report.new.visits }
    // If `result` is not 0, `figures` is unchanged.
    ensures kept { result ≢ 0 → figures.new ≡ figures.old }
{
    *report = report_at(0);
    let Some(form) = form_of(form) else {
        return BAD_FORM;
    };
    match limits_of(limits) {
        Ok(limits) => survey_in(alloc, form, bytes, limits, figures, report),
        Err(status) => status,
    }
}
