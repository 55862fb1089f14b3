//! The call `capn_canonical`, which writes the canonical bytes of a message in any form.

ghost use Rattle.std.specs.Prelude.{IsTrue, ◌≡◌, ◌≢◌, ◌⊎◌, ◌↔◌, ◌≤◌, ◌+◌, ◌*◌, ℕ, List, None, length, take};
ghost use Rattle.capn_value.specs.Tree.{Tree as Value};
ghost use Rattle.capn_value.specs.FirstCap.{first_cap};
ghost use Rattle.capn_walk.specs.Accepted.{IsBounded};
ghost use Rattle.capn_canon.specs.Layout.{canon};
ghost use Rattle.capn_canon.specs.Denotes.{Denotes};
ghost use Rattle.capn_canon.specs.Denotes.{Answers};
ghost use Rattle.capn_canon.specs.Canonicity.{IsCanonicalForm};
ghost use Rattle.capn_canon.specs.Refusal.{IsRefused};
ghost use Rattle.capn_canon.specs.MemoryNeed.{MayNeedMemory};
ghost use Rattle.capn_canon.specs.declared.refusal.Refusal.{Refusal as Refusals};
ghost use Rattle.capn_abi.specs.Calls.{IsForm, form_named, GiveLimits, IsTariff, bounds_of, Serves};
ghost use Rattle.capn_abi.specs.StatusCodes.{Reports, answered, at_number, is_status};
ghost use Rattle.capn_c.specs.inner.Reported.{IsReported};

use crate::canonical_fill::fill;
use capn_abi::{
    BAD_FORM, CapnLimits, CapnReport, NO_ROOM, answer_of, form_of, limits_of, refuse, report_at,
};
use capn_canon::{AskedInput, Form, Refusal, survey_bytes_of};
use capn_walk::Limits;
use std::alloc::Global;

/// Surveys the message that `bytes` encode in `form`. Reports the refusal, or the status `NO_ROOM` with a length that
/// is enough for the canonical bytes. The clause `work` bounds how often the message is read.
fn survey_length<B: AskedInput>(
    alloc: Global,
    form: Form,
    bytes: B,
    limits: Limits,
    report: &mut CapnReport,
) -> u32
    requires work { B.allows bytes (14 * (limits.budget + 1) + 1 + 1) }
    ensures possible { (result ≡ 1) ⊎ (8 ≤ result) }
    ensures found { result ≡ 1 → (text : List ℕ) × Answers form (B.bytes bytes) limits text report.new.paid
        × (length text ≤ report.new.length) }
    ensures only { (v : Value) → Denotes form (B.bytes bytes) limits v → first_cap v ≡ None
        → (result ≡ 8) ⊎ ((result ≡ 1) × (length (canon v) ≤ report.new.length)) }
    ensures rest { result ≡ 1 → report.new ≡ answered (8 * (report.new.paid + 1)) report.new.paid 0 }
    ensures reported { IsReported (IsRefused form (B.bytes bytes) limits) (MayNeedMemory form (B.bytes bytes) limits)
        limits.budget result report.new }
{
    match survey_bytes_of(alloc, form, bytes, limits) {
        Ok(surveyed) => match surveyed.capability {
            Some(index) => refuse(Refusal::Capability(index), report),
            None => {
                let paid = surveyed.paid;
                *report = answer_of(8 * (paid as u64 + 1), paid, 0);
                NO_ROOM
            }
        },
        Err(refusal) => refuse(refusal, report),
    }
}

/// Writes to `out` the canonical bytes of the message that `bytes` encode in `form`, within `limits`.
///
/// The status is 0 if the canonical bytes are at the start of `out`, and 1 if `out` is too short. If it is 1, `out` is
/// unchanged, and `length` is exactly the number of canonical bytes. An empty `out` is an exception: the message is
/// only surveyed, and `length` is 8 bytes for each word paid and 8 more, which is enough.
///
/// The status is 2, 3 or 4 if the form, a limit or the tariff is out of its range, and 8 if memory was refused.
/// Otherwise it is the status of the refusal. Bare words, and a stream of at most 64 segments, need no memory.
#[unsafe(no_mangle)]
pub extern "C" fn capn_canonical(
    alloc: Global,
    form: u32,
    bytes: &[u8],
    limits: &CapnLimits,
    out: &mut [u8],
    report: &mut CapnReport,
) -> u32
    // `result` is 2 if and only if the form is out of its range. If the form is in its range, `result` is 3 if and only
    // if a limit is out of its range. If the limits are in their ranges too, `result` is 4 if and only if the tariff is
    // out of its range.
    ensures form { (result ≡ 2) ↔ (IsForm form → ⊥) }
    ensures limits { (result ≡ 3) ↔ (IsForm form × (GiveLimits limits.now → ⊥)) }
    ensures tariff { (result ≡ 4) ↔ (IsForm form × GiveLimits limits.now × (IsTariff limits.now.tariff → ⊥)) }
    // If `result` is 0 or 1, the bytes denote one value, which has canonical bytes, and `paid` is the price. The
    // canonical bytes are in `out` if `result` is 0, and are too long for `out` if it is 1.
    ensures found { result ≤ 1 → (text : List ℕ)
        × Answers (form_named form) bytes.now (bounds_of limits.now) text report.new.paid
        × Serves text result report.new out.old out.new }
    // If the bytes denote a value without capabilities, `result` is 0 (`out` has its canonical bytes), 1 or 8.
    ensures only { IsForm form → GiveLimits limits.now → IsTariff limits.now.tariff → (v : Value)
        → Denotes (form_named form) bytes.now (bounds_of limits.now) v → first_cap v ≡ None
        → (result ≡ 8) ⊎ Serves (canon v) result report.new out.old out.new }
    // If `result` is 0 or 1, all fields of the report other than `length` and `paid` are 0.
    ensures rest { result ≤ 1 → report.new ≡ answered report.new.length report.new.paid 0 }
    ensures blank { 2 ≤ result → result ≤ 4 → report.new ≡ at_number 0 }
    ensures listed { IsTrue (is_status result) }
    // If `result` is at least 5, `result` and `report` describe a refusal `e`, whose reason is true. If `result` is not
    // 8, they describe no other refusal.
    ensures refused { 5 ≤ result → (e : Refusals) × Reports result report.new e
        × IsRefused (form_named form) bytes.now (bounds_of limits.now) e }
    // `result` is 8 only if `bytes` begin with a frame of more than 64 segments (`Stream`), or with a group (`Packed`).
    ensures memory { result ≡ 8 → MayNeedMemory (form_named form) bytes.now (bounds_of limits.now) }
    // For any `result`, the reported price is at most the budget, and the number of visits at most the price plus 1.
    ensures bounded { IsBounded limits.now.budget report.new.paid report.new.visits }
    ensures short { result ≤ 1 → report.new.length ≤ 8 * (report.new.paid + 1) }
    // If `result` is not 0, `out` is unchanged.
    ensures kept { result ≢ 0 → out.new ≡ out.old }
    // If `bytes` denote `v` and `result` is 0, the bytes written have the four properties of `IsCanonicalForm`.
    ensures canonical { result ≡ 0 → (v : Value) → Denotes (form_named form) bytes.now (bounds_of limits.now) v
        → IsCanonicalForm (take report.new.length out.new) (bounds_of limits.now) v }
{
    *report = report_at(0);
    let Some(form) = form_of(form) else {
        return BAD_FORM;
    };
    match limits_of(limits) {
        Ok(limits) => {
            if out.is_empty() {
                return survey_length(alloc, form, bytes, limits, report);
            }
            fill(alloc, form, bytes, limits, out, report)
        }
        Err(status) => status,
    }
}
