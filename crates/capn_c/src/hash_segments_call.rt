//! The call `capn_hash_segments`, which finds the SHA-256 of the canonical bytes of a message that is held in segments.

ghost use Rattle.std.specs.Prelude.{IsTrue, ◌≡◌, ◌≢◌, ◌⊎◌, ◌↔◌, ◌≤◌, ℕ, List, None};
ghost use Rattle.sha2.specs.Sha256.{sha256};
ghost use Rattle.capn_value.specs.Tree.{Tree as Value};
ghost use Rattle.capn_value.specs.FirstCap.{first_cap};
ghost use Rattle.capn_walk.specs.Accepted.{IsBounded};
ghost use Rattle.capn_canon.specs.Layout.{canon};
ghost use Rattle.capn_canon.specs.MemoryNeed.{MayNeedBytes};
ghost use Rattle.capn_canon.specs.declared.refusal.Refusal.{Refusal as Refusals};
ghost use Rattle.capn_stream.specs.Segments.{message_of};
ghost use Rattle.capn_abi.specs.Calls.{GiveLimits, IsTariff, bounds_of};
ghost use Rattle.capn_c.specs.Held.{AnswersHeld, DenotesHeld, IsRefusedHeld};
ghost use Rattle.capn_abi.specs.StatusCodes.{Reports, answered, at_number, is_status};
ghost use Rattle.capn_c.specs.inner.Reported.{IsReported};

use crate::message_digest::digest_held;
use capn_abi::{CapnLimits, CapnReport, DONE, answer_of, limits_of, refuse, report_at};
use capn_walk::Limits;
use std::alloc::Global;

/// Writes the SHA-256 of the canonical bytes of the message that is held in `segments` to `digest`, and reports the
/// result.
fn hash_held(
    alloc: Global,
    segments: &[&[[u8; 8]]],
    limits: Limits,
    digest: &mut [u8; 32],
    report: &mut CapnReport,
) -> u32
    ensures possible { (result ≡ 0) ⊎ (8 ≤ result) }
    ensures found { result ≡ 0 → (text : List ℕ)
        × AnswersHeld (message_of segments.now) limits text report.new.paid × (digest.new ≡ sha256 text) }
    ensures only { (v : Value) → DenotesHeld (message_of segments.now) limits v → first_cap v ≡ None
        → (result ≡ 8) ⊎ ((result ≡ 0) × (digest.new ≡ sha256 (canon v))) }
    ensures rest { result ≡ 0 → report.new ≡ answered 0 report.new.paid 0 }
    ensures reported { IsReported (IsRefusedHeld (message_of segments.now) limits)
        (MayNeedBytes (message_of segments.now) limits) limits.budget result report.new }
    ensures kept { result ≢ 0 → digest.new ≡ digest.old }
{
    match digest_held(alloc, segments, limits) {
        Ok(found) => {
            *report = answer_of(0, found.paid, 0);
            let sum = found.digest;
            *digest = sum;
            DONE
        }
        Err(refusal) => refuse(refusal, report),
    }
}

/// Writes the SHA-256 of the canonical bytes of the message that is held in `segments`, within `limits`, to `digest`.
/// Each segment is a list of words of 8 bytes.
///
/// The status is 0 if the digest is written, and 3 or 4 if a limit or the tariff is out of its range. It is 8 if memory
/// was refused for the canonical bytes, and 48 if there are no segments. Otherwise it is the status of the refusal that
/// a frame of the same segments gets.
#[unsafe(no_mangle)]
pub extern "C" fn capn_hash_segments(
    alloc: Global,
    segments: &[&[[u8; 8]]],
    limits: &CapnLimits,
    digest: &mut [u8; 32],
    report: &mut CapnReport,
) -> u32
    // `result` is 3 if and only if a limit is out of its range. If the limits are in their ranges, `result` is 4 if and
    // only if the tariff is out of its range.
    ensures limits { (result ≡ 3) ↔ (GiveLimits limits.now → ⊥) }
    ensures tariff { (result ≡ 4) ↔ (GiveLimits limits.now × (IsTariff limits.now.tariff → ⊥)) }
    // `result` is 0, the status of an argument out of its range (3 or 4), or the status of a refusal. A refusal is
    // never reported as a short buffer (1) or as a wrong argument.
    ensures possible { (result ≡ 0) ⊎ (result ≡ 3) ⊎ (result ≡ 4) ⊎ (8 ≤ result) }
    // If `result` is 0, `digest` is the SHA-256 of the canonical bytes of the one value that the message denotes.
    ensures found { result ≡ 0 → (text : List ℕ)
        × AnswersHeld (message_of segments.now) (bounds_of limits.now) text report.new.paid
        × (digest.new ≡ sha256 text) }
    // If the message denotes a value without capabilities, the digest is written, unless `result` is 8.
    ensures only { GiveLimits limits.now → IsTariff limits.now.tariff → (v : Value)
        → DenotesHeld (message_of segments.now) (bounds_of limits.now) v → first_cap v ≡ None
        → (result ≡ 8) ⊎ ((result ≡ 0) × (digest.new ≡ sha256 (canon v))) }
    // If `result` is 0, the report has the price. All other fields of the report are 0.
    ensures rest { result ≡ 0 → report.new ≡ answered 0 report.new.paid 0 }
    ensures blank { 1 ≤ result → result ≤ 4 → report.new ≡ at_number 0 }
    ensures listed { IsTrue (is_status result) }
    // If `result` is at least 5, `result` and `report` describe a refusal `e`, whose reason is true. If `result` is not
    // 8, they describe no other refusal.
    ensures refused { 5 ≤ result → (e : Refusals) × Reports result report.new e
        × IsRefusedHeld (message_of segments.now) (bounds_of limits.now) e }
    // `result` is 8 only if the message has canonical bytes.
    ensures memory { result ≡ 8 → MayNeedBytes (message_of segments.now) (bounds_of limits.now) }
    // For any `result`, the reported price is at most the budget, and the number of visits at most the price plus 1.
    ensures bounded { IsBounded limits.now.budget report.new.paid report.new.visits }
    // If `result` is not 0, `digest` is unchanged.
    ensures kept { result ≢ 0 → digest.new ≡ digest.old }
{
    *report = report_at(0);
    match limits_of(limits) {
        Ok(limits) => hash_held(alloc, segments, limits, digest, report),
        Err(status) => status,
    }
}
