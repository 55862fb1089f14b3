//! The call `capn_hash`, which finds the SHA-256 of the canonical bytes of a message in any form.

ghost use Rattle.std.specs.Prelude.{IsTrue, ◌≡◌, ◌≢◌, ◌⊎◌, ◌↔◌, ◌≤◌, ℕ, List, None};
ghost use Rattle.sha2.specs.Sha256.{sha256};
ghost use Rattle.capn_value.specs.Tree.{Tree as Value};
ghost use Rattle.capn_value.specs.FirstCap.{first_cap};
ghost use Rattle.capn_walk.specs.Accepted.{IsBounded};
ghost use Rattle.capn_canon.specs.Layout.{canon};
ghost use Rattle.capn_canon.specs.Denotes.{Answers, Denotes};
ghost use Rattle.capn_canon.specs.Refusal.{IsRefused};
ghost use Rattle.capn_canon.specs.declared.refusal.Refusal.{Refusal as Refusals};
ghost use Rattle.capn_abi.specs.Calls.{IsForm, form_named, GiveLimits, IsTariff, bounds_of};
ghost use Rattle.capn_abi.specs.StatusCodes.{Reports, answered, at_number, is_status};
ghost use Rattle.capn_c.specs.MadeBytes.{MayNeedToMake};
ghost use Rattle.capn_c.specs.inner.Reported.{IsReported};

use crate::message_digest::digest_in;
use capn_abi::{
    BAD_FORM, CapnLimits, CapnReport, DONE, answer_of, form_of, limits_of, refuse, report_at,
};
use capn_canon::Form;
use capn_walk::Limits;
use std::alloc::Global;

/// Writes to `digest` the SHA-256 of the canonical bytes of the message that `bytes` encode in `form`, and reports the
/// result.
fn hash(
    alloc: Global,
    form: Form,
    bytes: &[u8],
    limits: Limits,
    digest: &mut [u8; 32],
    report: &mut CapnReport,
) -> u32
    ensures possible { (result ≡ 0) ⊎ (8 ≤ result) }
    ensures found { result ≡ 0 → (text : List ℕ) × Answers form bytes.now limits text report.new.paid
        × (digest.new ≡ sha256 text) }
    ensures only { (v : Value) → Denotes form bytes.now limits v → first_cap v ≡ None
        → (result ≡ 8) ⊎ ((result ≡ 0) × (digest.new ≡ sha256 (canon v))) }
    ensures rest { result ≡ 0 → report.new ≡ answered 0 report.new.paid 0 }
    ensures reported { IsReported (IsRefused form bytes.now limits) (MayNeedToMake form bytes.now limits)
        limits.budget result report.new }
    ensures kept { result ≢ 0 → digest.new ≡ digest.old }
{
    match digest_in(alloc, form, bytes, limits) {
        Ok(found) => {
            *report = answer_of(0, found.paid, 0);
            let sum = found.digest;
            *digest = sum;
            DONE
        }
        Err(refusal) => refuse(refusal, report),
    }
}

/// Writes to `digest` the SHA-256 of the canonical bytes of the message that `bytes` encode in `form`, within `limits`.
///
/// The status is 0 if the digest is written, and 2, 3 or 4 if the form, a limit or the tariff is out of its range. It
/// is 8 if memory was refused: for a stream of more than 64 segments, for the unpacked words, or for the canonical
/// bytes of a message that is not canonical. Otherwise it is the status of the refusal.
#[unsafe(no_mangle)]
pub extern "C" fn capn_hash(
    alloc: Global,
    form: u32,
    bytes: &[u8],
    limits: &CapnLimits,
    digest: &mut [u8; 32],
    report: &mut CapnReport,
) -> u32
    // `result` is 2 if and only if the form is out of its range. If the form is in its range, `result` is 3 if and only
    // if a limit is out of its range. If the limits are in their ranges too, `result` is 4 if and only if the tariff is
    // out of its range.
    ensures form { (result ≡ 2) ↔ (IsForm form → ⊥) }
    ensures limits { (result ≡ 3) ↔ (IsForm form × (GiveLimits limits.now → ⊥)) }
    ensures tariff { (result ≡ 4) ↔ (IsForm form × GiveLimits limits.now × (IsTariff limits.now.tariff → ⊥)) }
    // `result` is 0, the status of an argument out of its range (2, 3 or 4), or the status of a refusal. A refusal is
    // never reported as a short buffer (1) or as a wrong argument.
    ensures possible { (result ≡ 0) ⊎ (result ≡ 2) ⊎ (result ≡ 3) ⊎ (result ≡ 4) ⊎ (8 ≤ result) }
    // If `result` is 0, `digest` is the SHA-256 of the canonical bytes of the one value that the bytes denote.
    ensures found { result ≡ 0 → (text : List ℕ)
        × Answers (form_named form) bytes.now (bounds_of limits.now) text report.new.paid
        × (digest.new ≡ sha256 text) }
    // If the bytes denote a value without capabilities, the digest is written, unless `result` is 8.
    ensures only { IsForm form → GiveLimits limits.now → IsTariff limits.now.tariff → (v : Value)
        → Denotes (form_named form) bytes.now (bounds_of limits.now) v → first_cap v ≡ None
        → (result ≡ 8) ⊎ ((result ≡ 0) × (digest.new ≡ sha256 (canon v))) }
    // If `result` is 0, the report has the price. All other fields of the report are 0.
    ensures rest { result ≡ 0 → report.new ≡ answered 0 report.new.paid 0 }
    ensures blank { 1 ≤ result → result ≤ 4 → report.new ≡ at_number 0 }
    ensures listed { IsTrue (is_status result) }
    // If `result` is at least 5, `result` and `report` describe a refusal `e`, whose reason is true. If `result` is not
    // 8, they describe no other refusal.
    ensures refused { 5 ≤ result → (e : Refusals) × Reports result report.new e
        × IsRefused (form_named form) bytes.now (bounds_of limits.now) e }
    // `result` is 8 only for a stream of more than 64 segments, for the unpacked words, or for the canonical bytes of a
    // message that is not canonical.
    ensures memory { result ≡ 8 → MayNeedToMake (form_named form) bytes.now (bounds_of limits.now) }
    // For any `result`, the reported price is at most the budget, and the number of visits at most the price plus 1.
    ensures bounded { IsBounded limits.now.budget report.new.paid report.new.visits }
    // If `result` is not 0, `digest` is unchanged.
    ensures kept { result ≢ 0 → digest.new ≡ digest.old }
{
    *report = report_at(0);
    let Some(form) = form_of(form) else {
        return BAD_FORM;
    };
    match limits_of(limits) {
        Ok(limits) => hash(alloc, form, bytes, limits, digest, report),
        Err(status) => status,
    }
}
