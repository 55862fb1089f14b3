//! The call `capn_is_canonical`, which tests whether bare words are canonical.

ghost use Rattle.std.specs.Prelude.{IsTrue, ◌≡◌, ◌≢◌, ◌⊎◌, ◌↔◌, ◌≤◌, ◌+◌, ◌*◌, None, true, false};
ghost use Rattle.capn_value.specs.Tree.{Tree as Value};
ghost use Rattle.capn_value.specs.FirstCap.{first_cap};
ghost use Rattle.capn_walk.specs.Accepted.{IsBounded};
ghost use Rattle.capn_canon.specs.BareVerdict.{SaysCanonical};
ghost use Rattle.capn_canon.specs.Denotes.{Denotes};
ghost use Rattle.capn_canon.specs.Layout.{canon};
ghost use Rattle.capn_canon.specs.Refusal.{IsRefused};
ghost use Rattle.capn_canon.specs.declared.form.Form.TheVariants as forms;
ghost use Rattle.capn_canon.specs.declared.refusal.Refusal.{Refusal as Refusals};
ghost use Rattle.capn_abi.specs.Calls.{GiveLimits, IsTariff, bounds_of};
ghost use Rattle.capn_abi.specs.StatusCodes.{Reports, at_number, is_status};
ghost use Rattle.capn_c.specs.inner.Reported.{IsReported};

use capn_abi::{CapnLimits, CapnReport, DONE, NOT_CANONICAL, limits_of, refuse, report_at};
use capn_canon::{AskedInput, are_canonical_of};
use capn_walk::Limits;
use std::alloc::Global;

/// Tests whether `bytes` are the canonical bytes of their value, and reports the result. The clause `work` bounds how
/// often the message is read.
fn test<B: AskedInput>(bytes: B, limits: Limits, report: &mut CapnReport) -> u32
    requires work { B.allows bytes (24 * (limits.budget + 1) + 1 + 1) }
    ensures possible { (result ≡ 0) ⊎ (result ≡ 5) ⊎ (8 ≤ result) }
    ensures yes { result ≡ 0 → SaysCanonical (B.bytes bytes) limits true }
    ensures no { result ≡ 5 → SaysCanonical (B.bytes bytes) limits false }
    ensures only { (v : Value) → Denotes forms.Bare (B.bytes bytes) limits v → first_cap v ≡ None
        → (result ≡ 8) ⊎ ((result ≡ 0) × (canon v ≡ B.bytes bytes)) ⊎ ((result ≡ 5) × (canon v ≢ B.bytes bytes)) }
    ensures blank { result ≤ 5 → report.new ≡ at_number 0 }
    ensures reported { IsReported (IsRefused forms.Bare (B.bytes bytes) limits) ⊥ limits.budget result report.new }
{
    *report = report_at(0);
    match are_canonical_of(bytes, limits) {
        Ok(true) => DONE,
        Ok(false) => NOT_CANONICAL,
        Err(refusal) => refuse(refusal, report),
    }
}

/// Tests whether `bytes`, read as bare words within `limits`, are the canonical bytes of the value that they denote.
///
/// The status is 0 if the bytes are canonical, and 5 if the canonical bytes of their value differ. It is 3 or 4 if a
/// limit or the tariff is out of its range. Otherwise it is the status of the refusal, but never 8.
#[unsafe(no_mangle)]
pub extern "C" fn capn_is_canonical(
    _alloc: Global,
    bytes: &[u8],
    limits: &CapnLimits,
    report: &mut CapnReport,
) -> u32
    // `result` is 3 if and only if a limit is out of its range. If the limits are in their ranges, `result` is 4 if and
    // only if the tariff is out of its range.
    ensures limits { (result ≡ 3) ↔ (GiveLimits limits.now → ⊥) }
    ensures tariff { (result ≡ 4) ↔ (GiveLimits limits.now × (IsTariff limits.now.tariff → ⊥)) }
    // `result` is 0 or 5, the status of an argument that is out of its range (3 or 4), or the status of a refusal. A
    // refusal is never reported as a short buffer (1) or as a wrong argument.
    ensures possible { (result ≡ 0) ⊎ (result ≡ 3) ⊎ (result ≡ 4) ⊎ (result ≡ 5) ⊎ (8 ≤ result) }
    // If `result` is 0 or 5, the bytes denote one value, which has no capability. `result` is 0 if the bytes are the
    // canonical bytes of that value.
    ensures yes { result ≡ 0 → SaysCanonical bytes.now (bounds_of limits.now) true }
    ensures no { result ≡ 5 → SaysCanonical bytes.now (bounds_of limits.now) false }
    // If the bytes denote a value without capabilities, `result` is 0 or 5 (`no_memory` excludes 8).
    ensures only { GiveLimits limits.now → IsTariff limits.now.tariff → (v : Value)
        → Denotes forms.Bare bytes.now (bounds_of limits.now) v → first_cap v ≡ None
        → (result ≡ 8) ⊎ ((result ≡ 0) × (canon v ≡ bytes.now)) ⊎ ((result ≡ 5) × (canon v ≢ bytes.now)) }
    // If `result` is 0 or 5, all fields of the report are 0.
    ensures blank { result ≤ 5 → report.new ≡ at_number 0 }
    ensures listed { IsTrue (is_status result) }
    // If `result` is at least 6, `result` and `report` describe a refusal `e`, whose reason is true. If `result` is not
    // 8, they describe no other refusal.
    ensures refused { 6 ≤ result → (e : Refusals) × Reports result report.new e
        × IsRefused forms.Bare bytes.now (bounds_of limits.now) e }
    // `result` is never 8, since nothing is allocated at any depth.
    ensures no_memory { result ≢ 8 }
    // For any `result`, the reported price is at most the budget, and the number of visits at most the price plus 1.
    ensures bounded { IsBounded limits.now.budget report.new.paid report.new.visits }
{
    *report = report_at(0);
    match limits_of(limits) {
        Ok(limits) => test(bytes, limits, report),
        Err(status) => status,
    }
}
