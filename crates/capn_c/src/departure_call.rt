//! The call `capn_departure`, which finds the first reason why a message is not canonical.

ghost use Rattle.std.specs.Prelude.{IsTrue, ◌≡◌, ◌≢◌, ◌⊎◌, ◌↔◌, ◌≤◌, ◌*◌, ℕ, List, length};
ghost use Rattle.capn_value.specs.Tree.{Tree as Value};
ghost use Rattle.capn_walk.specs.Accepted.{IsBounded};
ghost use Rattle.capn_walk.specs.Limits.{Bounds};
ghost use Rattle.capn_canon.specs.Denotes.{Denotes};
ghost use Rattle.capn_canon.specs.Refusal.{IsUnacceptedIn};
ghost use Rattle.capn_canon.specs.SurveyedBytes.{Surveys};
ghost use Rattle.capn_canon.specs.declared.form.Form.{Form as Forms};
ghost use Rattle.capn_canon.specs.declared.refusal.Refusal.{Refusal as Refusals};
ghost use Rattle.capn_answers.specs.Mismatches as mismatches;
ghost use Rattle.capn_answers.specs.Mismatches.{IsMismatchIn, MayNeedMismatch};
ghost use Rattle.capn_abi.specs.Calls.{IsForm, form_named, GiveLimits, IsTariff, bounds_of};
ghost use Rattle.capn_c.specs.Departed.{TellsMismatch};
ghost use Rattle.capn_abi.specs.StatusCodes.{Reports, at_number, is_status};
ghost use Rattle.capn_c.specs.inner.Reported.{IsDoneIn};

use crate::departed::{CapnDeparted, departed_of, path_of};
use crate::path_numbers::place_path;
use capn_abi::{
    BAD_FORM, CapnLimits, CapnReport, DONE, answer_of, form_of, limits_of, refuse, report_at,
};
use capn_answers::{Mismatch, mismatch_and_survey_in};
use capn_canon::Form;
use capn_walk::{Limits, Surveyed};
use std::alloc::Global;

/// Reports `surveyed` and `found`, the mismatch of an accepted message. Writes to `way` the path of `found` if it fits.
fn tell_mismatch(
    found: &Mismatch<Global>,
    surveyed: Surveyed,
    departed: &mut CapnDeparted,
    way: &mut [u32],
    report: &mut CapnReport,
)
    requires few { length (mismatches.path_of found.now) ≤ 512 }
    ensures told { (form : Forms) (bytes : List ℕ) (limits : Bounds) → IsMismatchIn form bytes limits found.now
        → Surveys form bytes limits surveyed
        → TellsMismatch form bytes limits departed.new report.new way.old way.new }
    ensures long { report.new.length ≡ 4 * length (mismatches.path_of found.now) }
    ensures paid { report.new.paid ≡ surveyed.paid }
    ensures visits { report.new.visits ≡ surveyed.visits }
{
    let numbers = path_of(found);
    *departed = departed_of(found, numbers.len() as u32);
    *report = answer_of(4 * numbers.len() as u64, surveyed.paid, surveyed.visits);
    place_path(numbers, way);
}

/// Finds the mismatch of the message that `bytes` encode in `form`, and reports the result.
fn find_mismatch(
    alloc: Global,
    form: Form,
    bytes: &[u8],
    limits: Limits,
    departed: &mut CapnDeparted,
    way: &mut [u32],
    report: &mut CapnReport,
) -> u32
    ensures told { IsDoneIn form bytes.now limits
        (TellsMismatch form bytes.now limits departed.new report.new way.old way.new)
        (MayNeedMismatch form bytes.now limits) result report.new }
    ensures short { result ≡ 0 → report.new.length ≤ 8 * limits.depth }
    ensures kept { result ≢ 0 → (departed.new ≡ departed.old) × (way.new ≡ way.old) }
{
    let _depth = limits.depth();
    match mismatch_and_survey_in(alloc, form, bytes, limits) {
        Ok(found) => {
            tell_mismatch(&found.mismatch, found.survey, departed, way, report);
            DONE
        }
        Err(refusal) => refuse(refusal, report),
    }
}

/// Tests whether the message that `bytes` encode in `form` is canonical. The message must be accepted within `limits`.
/// The first reason why the message is not canonical is written to `departed`. For a capability, `way` gets the path to
/// its slot. For a word that differs, `way` gets the path to the slot whose pointer or list the word belongs to.
///
/// The status is 0 if the message is accepted. Then `paid` is the price of the walk, `visits` is the number of visits,
/// and `length` is 4 bytes for each number of the path. The numbers are at the start of `way` if all of them fit.
/// Otherwise `way` is unchanged. A `way` of two numbers for each level of the depth limit is always long enough.
///
/// The status is 2, 3 or 4 if the form, a limit or the tariff is out of its range. It is 8 if memory was refused.
/// Otherwise it is the status of the refusal. A capability is no reason for a refusal.
///
/// Memory is needed for a stream of more than 64 segments and for the unpacked words. A message of one segment that is
/// not canonical also needs memory, for its canonical bytes and the path.
#[unsafe(no_mangle)]
pub extern "C" fn capn_departure(
    alloc: Global,
    form: u32,
    bytes: &[u8],
    limits: &CapnLimits,
    departed: &mut CapnDeparted,
    way: &mut [u32],
    report: &mut CapnReport,
) -> u32
    // `result` is 2 if and only if the form is out of its range. If the form is in its range, `result` is 3 if and only
    // if a limit is out of its range. If the limits are in their ranges too, `result` is 4 if and only if the tariff is
    // out of its range.
    ensures form { (result ≡ 2) ↔ (IsForm form → ⊥) }
    ensures limits { (result ≡ 3) ↔ (IsForm form × (GiveLimits limits.now → ⊥)) }
    ensures tariff { (result ≡ 4) ↔ (IsForm form × GiveLimits limits.now × (IsTariff limits.now.tariff → ⊥)) }
    // `result` is 0, the status of an argument out of its range (2, 3 or 4), or the status of a refusal. A refusal is
    // never reported as a short buffer (1) or as a wrong argument.
    ensures possible { (result ≡ 0) ⊎ (result ≡ 2) ⊎ (result ≡ 3) ⊎ (result ≡ 4) ⊎ (8 ≤ result) }
    // If `result` is 0, the bytes are an accepted message, and `departed` is the mismatch of the message with its
    // canonical bytes. The path is in `way` if it fits. The report has the length of the path, the price and the number
    // of visits.
    ensures found { result ≡ 0 → TellsMismatch (form_named form) bytes.now (bounds_of limits.now)
        departed.new report.new way.old way.new }
    // If the bytes are an accepted message, `result` is 0, unless memory was refused.
    ensures only { IsForm form → GiveLimits limits.now → IsTariff limits.now.tariff → (v : Value)
        → Denotes (form_named form) bytes.now (bounds_of limits.now) v → (result ≡ 0) ⊎ (result ≡ 8) }
    // A path has at most two numbers for each level of the depth limit.
    ensures short { result ≡ 0 → report.new.length ≤ 8 * limits.now.depth }
    ensures blank { 1 ≤ result → result ≤ 4 → report.new ≡ at_number 0 }
    ensures listed { IsTrue (is_status result) }
    // If `result` is at least 5, `result` and `report` describe a refusal `e`, whose reason is true. If `result` is not
    // 8, they describe no other refusal.
    ensures refused { 5 ≤ result → (e : Refusals) × Reports result report.new e
        × IsUnacceptedIn (form_named form) bytes.now (bounds_of limits.now) e }
    // `result` is 8 only for a stream of more than 64 segments, for the unpacked words, or for a message of one segment
    // that is not canonical.
    ensures memory { result ≡ 8 → MayNeedMismatch (form_named form) bytes.now (bounds_of limits.now) }
    // For any `result`, the reported price is at most the budget, and the number of visits at most the price plus 1.
    ensures bounded { IsBounded limits.now.budget report.new.paid report.new.visits }
    // If `result` is not 0, `departed` and `way` are unchanged.
    ensures kept { result ≢ 0 → (departed.new ≡ departed.old) × (way.new ≡ way.old) }
{
    *report = report_at(0);
    let Some(form) = form_of(form) else {
        return BAD_FORM;
    };
    match limits_of(limits) {
        Ok(limits) => find_mismatch(alloc, form, bytes, limits, departed, way, report),
        Err(status) => status,
    }
}
