//! The call `capn_index`, which writes the index of a message, with an entry for each slot that the walk visits.

ghost use Rattle.std.specs.Prelude.{IsTrue, ◌≡◌, ◌≢◌, ◌⊎◌, ◌↔◌, ◌<◌, ◌≤◌, ◌*◌, length};
ghost use Rattle.capn_value.specs.Tree.{Tree as Value};
ghost use Rattle.capn_walk.specs.Accepted.{IsBounded};
ghost use Rattle.capn_walk.specs.declared.survey_answer.Surveyed.{Surveyed as Survey};
ghost use Rattle.capn_canon.specs.Denotes.{Denotes};
ghost use Rattle.capn_canon.specs.Refusal.{IsUnacceptedIn};
ghost use Rattle.capn_canon.specs.SurveyedBytes.{Surveys};
ghost use Rattle.capn_canon.specs.MemoryNeed.{MayNeedMemory};
ghost use Rattle.capn_canon.specs.declared.refusal.Refusal.{Refusal as Refusals};
ghost use Rattle.capn_abi.specs.Calls.{form_named, GiveLimits, IsTariff, bounds_of};
ghost use Rattle.capn_abi.specs.StatusCodes.{Reports, answered, at_number, is_status};
ghost use Rattle.capn_c.specs.Entries.{HasEntries, IndexedIn};
ghost use Rattle.capn_abi.specs.Calls.{IsFlat};
ghost use Rattle.capn_c.specs.inner.Reported.{IsIndexedIn};

use crate::entries::CapnEntry;
use crate::message_index::fill_index;
use capn_abi::{BAD_FORM, CapnLimits, CapnReport, flat_form_of, limits_of, report_at};
use capn_canon::Form;
use capn_walk::Limits;
use capn_walk::laws::indexes;
use std::alloc::Global;

/// Writes to `out` the index of the message that `bytes` encode in `form`, and reports the result.
fn index_in(
    alloc: Global,
    form: Form,
    bytes: &[u8],
    limits: Limits,
    out: &mut [CapnEntry],
    report: &mut CapnReport,
) -> u32
    ensures indexed { IsIndexedIn form bytes.now limits (MayNeedMemory form bytes.now limits) out.old out.new result
        report.new }
    ensures entries { result ≤ 1 → HasEntries form bytes.now limits report.new.visits }
{
    // The proof of `entries` needs this law.
    indexes();
    fill_index(alloc, form, bytes, limits, out, report)
}

/// Writes to `out` the index of the message that `bytes` encode in `form`, within `limits`. The form is a stream or
/// bare words. The index has an entry for each slot that the walk visits, in preorder.
///
/// The status is 0 if the entries are at the start of `out`. It is 1 if `out` is too short, and then `out` is
/// unchanged. If it is 0 or 1, `visits` is the number of entries, and `length` is 24 bytes for each entry. The status
/// is 2 if the form is neither a stream nor bare words, and 3 or 4 if a limit or the tariff is out of its range. It is
/// 8 if memory was refused. Otherwise it is the status of the refusal. A capability is no reason for a refusal.
///
/// Bare words, and a stream of at most 64 segments, need no memory, since the entries are written straight into `out`.
/// A stream of more segments needs memory for the table of its segments.
#[unsafe(no_mangle)]
pub extern "C" fn capn_index(
    alloc: Global,
    form: u32,
    bytes: &[u8],
    limits: &CapnLimits,
    out: &mut [CapnEntry],
    report: &mut CapnReport,
) -> u32
    // `result` is 2 if and only if the form is neither a stream nor bare words. If it is one of them, `result` is 3 if
    // and only if a limit is out of its range. If the limits are in their ranges, `result` is 4 if and only if the
    // tariff is out of its range.
    ensures form { (result ≡ 2) ↔ (IsFlat form → ⊥) }
    ensures limits { (result ≡ 3) ↔ (IsFlat form × (GiveLimits limits.now → ⊥)) }
    ensures tariff { (result ≡ 4) ↔ (IsFlat form × GiveLimits limits.now × (IsTariff limits.now.tariff → ⊥)) }
    // If `result` is 0 or 1, the bytes are an accepted message. `visits` is the number of entries of the index, and
    // `paid` is the price.
    ensures counted { result ≤ 1 → (s : Survey) × Surveys (form_named form) bytes.now (bounds_of limits.now) s
        × (report.new ≡ answered (24 * s.visits) s.paid s.visits) }
    // `visits` counts all entries of the index, even if `out` is too short for them.
    ensures entries { result ≤ 1
        → HasEntries (form_named form) bytes.now (bounds_of limits.now) report.new.visits }
    // If `result` is 0, the index is in `out`. If `result` is 1, `out` has fewer entries than the index.
    ensures written { result ≡ 0 → (report.new.visits ≤ length out.old)
        × IndexedIn (form_named form) bytes.now (bounds_of limits.now) out.old out.new }
    ensures no_room { result ≡ 1 → length out.old < report.new.visits }
    // If the bytes are an accepted message, `result` is 0 or 1, unless memory was refused.
    ensures only { IsFlat form → GiveLimits limits.now → IsTariff limits.now.tariff → (v : Value)
        → Denotes (form_named form) bytes.now (bounds_of limits.now) v → (result ≤ 1) ⊎ (result ≡ 8) }
    ensures blank { 2 ≤ result → result ≤ 4 → report.new ≡ at_number 0 }
    ensures listed { IsTrue (is_status result) }
    // If `result` is at least 5, `result` and `report` describe a refusal `e`, whose reason is true. If `result` is not
    // 8, they describe no other refusal.
    ensures refused { 5 ≤ result → (e : Refusals) × Reports result report.new e
        × IsUnacceptedIn (form_named form) bytes.now (bounds_of limits.now) e }
    // `result` is 8 only if reading the bytes may need memory.
    ensures memory { result ≡ 8 → MayNeedMemory (form_named form) bytes.now (bounds_of limits.now) }
    // For any `result`, the reported price is at most the budget, and the number of visits at most the price plus 1.
    ensures bounded { IsBounded limits.now.budget report.new.paid report.new.visits }
    // If `result` is not 0, `out` is unchanged.
    ensures kept { result ≢ 0 → out.new ≡ out.old }
{
    *report = report_at(0);
    let Some(form) = flat_form_of(form) else {
        return BAD_FORM;
    };
    match limits_of(limits) {
        Ok(limits) => index_in(alloc, form, bytes, limits, out, report),
        Err(status) => status,
    }
}
