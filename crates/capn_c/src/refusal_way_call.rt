//! The call `capn_refusal_way`, which finds the path to the slot at which the walk of a message is refused.

ghost use Rattle.std.specs.Prelude.{IsTrue, ◌≡◌, ◌⊎◌, ◌↔◌, ◌<◌, ◌≤◌, ◌+◌, ◌*◌, ℕ, List};
ghost use Rattle.capn_value.specs.Tree.{Tree as Value};
ghost use Rattle.capn_walk.specs.Accepted.{IsBounded};
ghost use Rattle.capn_walk.specs.declared.survey_answer.Surveyed.{Surveyed as Survey};
ghost use Rattle.capn_walk.specs.declared.walk_answer.Stopped.{Stopped as Stop};
ghost use Rattle.capn_canon.specs.Denotes.{Denotes};
ghost use Rattle.capn_canon.specs.Refusal.{IsUnacceptedIn};
ghost use Rattle.capn_canon.specs.SurveyedBytes.{Surveys};
ghost use Rattle.capn_canon.specs.declared.refusal.Refusal.{Refusal as Refusals};
ghost use Rattle.capn_answers.specs.Walked.{MayNeedItsPath};
ghost use Rattle.capn_answers.specs.Paths.{IsStoppedIn};
ghost use Rattle.capn_abi.specs.Calls.{IsForm, form_named, GiveLimits, IsTariff, bounds_of};
ghost use Rattle.capn_abi.specs.StatusCodes.{Reports, answered, at_number, is_status};
ghost use Rattle.capn_c.specs.PathNumbers.{TellsPath};

use crate::path_numbers::tell_path;
use capn_abi::{
    BAD_FORM, CapnLimits, CapnReport, DONE, answer_of, form_of, limits_of, refuse, report_at,
};
use capn_answers::{Walked, walk_in_of};
use capn_canon::{AskedInput, Form};
use capn_walk::Limits;
use std::alloc::Global;

/// Walks the message that `bytes` encode in `form`. Reports the survey, or the path to the stop of the walk. The
/// clause `work` bounds how often the message is read.
fn refusal_way<B: AskedInput>(
    alloc: Global,
    form: Form,
    bytes: B,
    limits: Limits,
    way: &mut [u32],
    report: &mut CapnReport,
) -> u32
    requires work { B.allows bytes (24 * (limits.budget + 1) + 1 + 1) }
    ensures possible { (result ≡ 0) ⊎ (8 ≤ result) }
    ensures found { result ≡ 0 → (s : Survey) × Surveys form (B.bytes bytes) limits s
        × (report.new ≡ answered 0 s.paid s.visits) }
    ensures only { (v : Value) → Denotes form (B.bytes bytes) limits v → (result ≡ 0) ⊎ (result ≡ 8) }
    ensures listed { IsTrue (is_status result) }
    ensures refused { 8 ≤ result → result < 64 → (e : Refusals) × Reports result report.new e
        × IsUnacceptedIn form (B.bytes bytes) limits e }
    ensures told { 64 ≤ result → (s : Stop) × (numbers : List ℕ) × IsStoppedIn form (B.bytes bytes) limits s numbers
        × TellsPath result report.new s numbers way.old way.new }
    ensures short { 64 ≤ result → report.new.length ≤ 8 * limits.depth }
    ensures memory { result ≡ 8 → MayNeedItsPath form (B.bytes bytes) limits }
    ensures bounded { IsBounded limits.budget report.new.paid report.new.visits }
    ensures kept { result < 64 → way.new ≡ way.old }
{
    let _depth = limits.depth();
    match walk_in_of(alloc, form, bytes, limits) {
        Ok(walked) => match walked {
            Walked::Accepted(surveyed) => {
                *report = answer_of(0, surveyed.paid, surveyed.visits);
                DONE
            }
            Walked::Refused(refused) => {
                tell_path(refused.stopped, refused.path.as_slice(), way, report)
            }
        },
        Err(refusal) => refuse(refusal, report),
    }
}

/// Tests whether the message that `bytes` encode in `form` is accepted within `limits`. If the walk is refused, the
/// path from the root to the slot at which the walk stopped is written to `way`.
///
/// The status is 0 if the message is accepted. Then `paid` is the price of the walk, and `visits` is the number of
/// visits. The status is 2, 3 or 4 if the form, a limit or the tariff is out of its range. It is 8 if memory was
/// refused: for a stream of more than 64 segments, for the unpacked words, or for the path. Otherwise it is the status
/// of the refusal. A capability is no reason for a refusal.
///
/// A status from 64 to 74 is a refusal of the walk. Then `length` is 4 bytes for each number of the path. The numbers
/// are at the start of `way` if all of them fit. Otherwise `way` is unchanged. A `way` of two numbers for each level of
/// the depth limit is always long enough. A message that is refused is walked at most twice.
#[unsafe(no_mangle)]
pub extern "C" fn capn_refusal_way(
    alloc: Global,
    form: u32,
    bytes: &[u8],
    limits: &CapnLimits,
    way: &mut [u32],
    report: &mut CapnReport,
) -> u32
    // `result` is 2 if and only if the form is out of its range. If the form is in its range, `result` is 3 if and only
    // if a limit is out of its range. If the limits are in their ranges too, `result` is 4 if and only if the tariff is
    // out of its range.
    ensures form { (result ≡ 2) ↔ (IsForm form → ⊥) }
    ensures limits { (result ≡ 3) ↔ (IsForm form × (GiveLimits limits.now → ⊥)) }
    ensures tariff { (result ≡ 4) ↔ (IsForm form × GiveLimits limits.now × (IsTariff limits.now.tariff → ⊥)) }
    // `result` is 0, the status of an argument out of its range (2, 3 or 4), or the status of a refusal. A refusal is
    // never reported as a short buffer (1) or as a wrong argument.
    ensures possible { (result ≡ 0) ⊎ (result ≡ 2) ⊎ (result ≡ 3) ⊎ (result ≡ 4) ⊎ (8 ≤ result) }
    // If `result` is 0, the bytes are an accepted message. `paid` is the price, `visits` the number of visits, and all
    // other fields of the report are 0.
    ensures found { result ≡ 0 → (s : Survey) × Surveys (form_named form) bytes.now (bounds_of limits.now) s
        × (report.new ≡ answered 0 s.paid s.visits) }
    // If the bytes are an accepted message, `result` is 0, unless memory was refused.
    ensures only { IsForm form → GiveLimits limits.now → IsTariff limits.now.tariff → (v : Value)
        → Denotes (form_named form) bytes.now (bounds_of limits.now) v → (result ≡ 0) ⊎ (result ≡ 8) }
    ensures blank { 1 ≤ result → result ≤ 4 → report.new ≡ at_number 0 }
    ensures listed { IsTrue (is_status result) }
    // If `result` is from 5 to 63, `result` and `report` describe a refusal `e`, whose reason is true. If `result` is
    // not 8, they describe no other refusal.
    ensures refused { 5 ≤ result → result < 64 → (e : Refusals) × Reports result report.new e
        × IsUnacceptedIn (form_named form) bytes.now (bounds_of limits.now) e }
    // If `result` is at least 64, it is the status of a refused walk. The report has the place at which the walk
    // stopped, and the length of the path to that place. The path is in `way` if the path fits.
    ensures told { 64 ≤ result → (s : Stop) × (numbers : List ℕ)
        × IsStoppedIn (form_named form) bytes.now (bounds_of limits.now) s numbers
        × TellsPath result report.new s numbers way.old way.new }
    // A path has at most two numbers for each level of the depth limit.
    ensures short { 64 ≤ result → report.new.length ≤ 8 * limits.now.depth }
    // `result` is 8 only if reading the bytes may need memory, or if the walk of the message is refused.
    ensures memory { result ≡ 8 → MayNeedItsPath (form_named form) bytes.now (bounds_of limits.now) }
    // For any `result`, the reported price is at most the budget, and the number of visits at most the price plus 1.
    ensures bounded { IsBounded limits.now.budget report.new.paid report.new.visits }
    // If `result` is less than 64, `way` is unchanged.
    ensures kept { result < 64 → way.new ≡ way.old }
{
    *report = report_at(0);
    let Some(form) = form_of(form) else {
        return BAD_FORM;
    };
    match limits_of(limits) {
        Ok(limits) => refusal_way(alloc, form, bytes, limits, way, report),
        Err(status) => status,
    }
}
