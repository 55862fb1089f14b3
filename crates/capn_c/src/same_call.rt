//! The call `capn_same`, which compares the values of two messages in the same form.

ghost use Rattle.std.specs.Prelude.{IsTrue, ◌≡◌, ◌≢◌, ◌⊎◌, ◌↔◌, ◌≤◌, None, true, false};
ghost use Rattle.capn_value.specs.Tree.{Tree as Value};
ghost use Rattle.capn_value.specs.FirstCap.{first_cap};
ghost use Rattle.capn_value.specs.Same.{Same};
ghost use Rattle.capn_walk.specs.Accepted.{IsBounded};
ghost use Rattle.capn_canon.specs.Denotes.{Denotes};
ghost use Rattle.capn_canon.specs.Refusal.{IsRefused};
ghost use Rattle.capn_canon.specs.MemoryNeed.{MayNeedMemory};
ghost use Rattle.capn_canon.specs.declared.refusal.Refusal.{Refusal as Refusals};
ghost use Rattle.capn_abi.specs.Calls.{IsForm, form_named, GiveLimits, IsTariff, bounds_of};
ghost use Rattle.capn_abi.specs.StatusCodes.{Reports, at_number, is_status};
ghost use Rattle.capn_c.specs.Compared.{ComparesIn, DenoteBoth, named};

use crate::compared::compared_in;
use capn_abi::{
    BAD_FORM, CapnLimits, CapnReport, DIFFERENT, DONE, form_of, limits_of, refuse, report_at,
};
use capn_canon::Form;
use capn_canon::laws::{canonicity, denotation};
use capn_walk::Limits;
use std::alloc::Global;

/// Compares the messages that `first` and `second` encode in `form`, and reports the result.
fn compare(
    alloc: Global,
    form: Form,
    first: &[u8],
    second: &[u8],
    limits: Limits,
    which: &mut u32,
    report: &mut CapnReport,
) -> u32
    requires blank { (which.old ≡ 0) × (report.old ≡ at_number 0) }
    ensures possible { (result ≡ 0) ⊎ (result ≡ 7) ⊎ (8 ≤ result) }
    ensures same { result ≡ 0 → ComparesIn form first.now second.now limits true }
    ensures different { result ≡ 7 → ComparesIn form first.now second.now limits false }
    ensures only { (v w : Value) → DenoteBoth form first.now second.now limits v w
        → (result ≡ 8) ⊎ ((result ≡ 0) × Same v w) ⊎ ((result ≡ 7) × (Same v w → ⊥)) }
    ensures blank { result ≤ 7 → (which.new ≡ 0) × (report.new ≡ at_number 0) }
    ensures listed { IsTrue (is_status result) }
    ensures refused { 8 ≤ result → (e : Refusals) × Reports result report.new e
        × IsRefused form (named which.new first.now second.now) limits e }
    ensures second { which.new ≢ 0 → (which.new ≡ 1)
        × ((v : Value) × Denotes form first.now limits v × (first_cap v ≡ None)) }
    ensures memory { result ≡ 8 → MayNeedMemory form (named which.new first.now second.now) limits }
    ensures bounded { IsBounded limits.budget report.new.paid report.new.visits }
{
    // The proof of the contract needs the laws of canonical bytes, and the ranges that limits promise.
    canonicity();
    denotation();
    let _words = limits.message_words();
    let _budget = limits.budget();
    let _depth = limits.depth();
    match compared_in(alloc, form, first, second, limits) {
        Ok(compared) => match compared {
            Ok(true) => DONE,
            Ok(false) => DIFFERENT,
            Err(refusal) => {
                *which = 1;
                refuse(refusal, report)
            }
        },
        Err(refusal) => refuse(refusal, report),
    }
}

/// Tests whether the messages that `first` and `second` encode in `form` have the same canonical bytes within `limits`.
/// No canonical bytes are made.
///
/// The status is 0 if the canonical bytes of the two messages are equal, and 7 if they differ. It is 2, 3 or 4 if the
/// form, a limit or the tariff is out of its range. It is 8 if memory was refused: for a stream of more than 64
/// segments, or for the unpacked words. Otherwise it is the status of the refusal of `first`, or else of `second`. If
/// `first` is refused, `second` isn't read. `which` is 1 if `second` is refused, or if memory was refused for `second`,
/// and otherwise 0.
#[unsafe(no_mangle)]
pub extern "C" fn capn_same(
    alloc: Global,
    form: u32,
    first: &[u8],
    second: &[u8],
    limits: &CapnLimits,
    which: &mut u32,
    report: &mut CapnReport,
) -> u32
    // `result` is 2 if and only if the form is out of its range. If the form is in its range, `result` is 3 if and only
    // if a limit is out of its range. If the limits are in their ranges too, `result` is 4 if and only if the tariff is
    // out of its range.
    ensures form { (result ≡ 2) ↔ (IsForm form → ⊥) }
    ensures limits { (result ≡ 3) ↔ (IsForm form × (GiveLimits limits.now → ⊥)) }
    ensures tariff { (result ≡ 4) ↔ (IsForm form × GiveLimits limits.now × (IsTariff limits.now.tariff → ⊥)) }
    // If `result` is 0 or 7, `first` and `second` denote values without capabilities. If `result` is 0, the values are
    // the same up to trailing zero words and trailing null pointers of structs, and the canonical bytes are equal. If
    // `result` is 7, the values are not the same, and the canonical bytes differ.
    ensures same { result ≡ 0 → ComparesIn (form_named form) first.now second.now (bounds_of limits.now) true }
    ensures different { result ≡ 7 → ComparesIn (form_named form) first.now second.now (bounds_of limits.now) false }
    // If both denote values without capabilities, `result` is 0, 7 or 8.
    ensures only { IsForm form → GiveLimits limits.now → IsTariff limits.now.tariff → (v w : Value)
        → DenoteBoth (form_named form) first.now second.now (bounds_of limits.now) v w
        → (result ≡ 8) ⊎ ((result ≡ 0) × Same v w) ⊎ ((result ≡ 7) × (Same v w → ⊥)) }
    // If `result` is at most 7, `which` and all fields of the report are 0.
    ensures blank { result ≤ 7 → (which.new ≡ 0) × (report.new ≡ at_number 0) }
    ensures listed { IsTrue (is_status result) }
    // If `result` is 1, or at least 5 but not 7, `result` and `report` describe a refusal `e`, whose reason is true of
    // the message that `which` names. If `result` is not 8, they describe no other refusal.
    ensures refused { (result ≡ 1) ⊎ (5 ≤ result) → result ≢ 7 → (e : Refusals) × Reports result report.new e
        × IsRefused (form_named form) (named which.new first.now second.now) (bounds_of limits.now) e }
    // `second` is refused only if `first` has canonical bytes.
    ensures second { which.new ≢ 0 → (which.new ≡ 1)
        × ((v : Value) × Denotes (form_named form) first.now (bounds_of limits.now) v × (first_cap v ≡ None)) }
    // `result` is 8 only if the bytes that `which` names begin with a frame of more than 64 segments (`Stream`), or
    // with a group (`Packed`).
    ensures memory { result ≡ 8
        → MayNeedMemory (form_named form) (named which.new first.now second.now) (bounds_of limits.now) }
    // For any `result`, the reported price is at most the budget, and the number of visits at most the price plus 1.
    ensures bounded { IsBounded limits.now.budget report.new.paid report.new.visits }
{
    *which = 0;
    *report = report_at(0);
    let Some(form) = form_of(form) else {
        return BAD_FORM;
    };
    match limits_of(limits) {
        Ok(limits) => compare(alloc, form, first, second, limits, which, report),
        Err(status) => status,
    }
}
