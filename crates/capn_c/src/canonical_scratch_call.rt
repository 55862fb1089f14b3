//! The call `capn_canonical_with_scratch`, which makes canonical bytes with only the memory that the caller lends.

ghost use Rattle.std.specs.Prelude.{IsTrue, ◌≡◌, ◌≢◌, ◌↔◌, ◌≤◌, ◌+◌, ◌*◌, ℕ, List, None, length, take};
ghost use Rattle.capn_value.specs.Tree.{Tree as Value};
ghost use Rattle.capn_value.specs.FirstCap.{first_cap};
ghost use Rattle.capn_walk.specs.Accepted.{IsBounded};
ghost use Rattle.capn_canon.specs.Layout.{canon};
ghost use Rattle.capn_canon.specs.Denotes.{Denotes, Answers};
ghost use Rattle.capn_canon.specs.Canonicity.{IsCanonicalForm};
ghost use Rattle.capn_canon.specs.Refusal.{IsRefused};
ghost use Rattle.capn_canon.specs.declared.refusal.Refusal.{Refusal as Refusals};
ghost use Rattle.capn_scratch.specs.Laws.{most_scratch};
ghost use Rattle.capn_scratch.specs.Needs.{HasScratch};
ghost use Rattle.capn_scratch.specs.Work.{work_of_bytes};
ghost use Rattle.capn_abi.specs.Calls.{IsForm, form_named, GiveLimits, IsTariff, bounds_of, Delivers};
ghost use Rattle.capn_abi.specs.StatusCodes.{Reports, answered, at_number};
ghost use Rattle.capn_c.specs.Lent.{LacksScratch, is_lent_status};
ghost use Rattle.capn_c.specs.Agreement.{IsRefusalTold, IsResultTold};
ghost use Rattle.capn_c.specs.inner.Lent.{IsLent};

use capn_abi::{
    BAD_FORM, CapnLimits, CapnReport, DONE, NO_ROOM, answer_of, form_of, limits_of, refuse,
    report_at,
};
use capn_canon::laws::denotation;
use capn_canon::{CanonicalLength, Form, Refusal};
use capn_scratch::laws::{decision, enough};
use capn_scratch::{AskedBytes, FormRefusal, canonical_into_form_of};
use capn_walk::Limits;

/// The status if the scratch has too few words.
const NO_SCRATCH: u32 = 9;

/// Writes the numbers of `refusal` to `report`, and returns the status of `refusal`.
fn tell_refusal(refusal: FormRefusal, report: &mut CapnReport) -> u32
    ensures { IsRefusalTold refusal result report.new }
{
    match refusal {
        FormRefusal::Bare(fault) => refuse(Refusal::Bare(fault), report),
        FormRefusal::Packed(fault) => refuse(Refusal::Packed(fault), report),
        FormRefusal::Frame(fault) => refuse(Refusal::Frame(fault), report),
        FormRefusal::Trailing(at) => refuse(Refusal::Trailing(at), report),
        FormRefusal::NoScratch { needed } => {
            *report = report_at(needed as u64);
            NO_SCRATCH
        }
        FormRefusal::Walk(stopped) => refuse(Refusal::Walk(stopped), report),
        FormRefusal::Capability(index) => refuse(Refusal::Capability(index), report),
        FormRefusal::NoRoom { needed, paid } => {
            *report = answer_of(needed as u64, paid, 0);
            NO_ROOM
        }
    }
}

/// Writes the numbers of the result `written` to `report`, and returns the status of that result.
pub(crate) fn tell(written: Result<CanonicalLength, FormRefusal>, report: &mut CapnReport) -> u32
    ensures { IsResultTold written result report.new }
{
    match written {
        Ok(written) => {
            *report = answer_of(written.length as u64, written.paid, 0);
            DONE
        }
        Err(refusal) => tell_refusal(refusal, report),
    }
}

/// Writes to `out` the canonical bytes of the message that `bytes` encode in `form`, and reports the result. The clause
/// `work` bounds the steps from the bytes to the canonical bytes.
fn write_lent<B: AskedBytes>(
    form: Form,
    bytes: B,
    limits: Limits,
    scratch: &mut [[u8; 8]],
    out: &mut [u8],
    report: &mut CapnReport,
) -> u32
    requires work { B.allows bytes (work_of_bytes (length (B.bytes bytes)) (length scratch.old)
        + 54 * (limits.budget + 1) + 1) }
    ensures { IsLent form (B.bytes bytes) limits (length scratch.old) out.old out.new result report.new }
{
    // The proof of the contract needs the laws of canonical bytes, and the ranges that limits promise.
    decision();
    enough();
    denotation();
    let _words = limits.message_words();
    let _budget = limits.budget();
    let _depth = limits.depth();
    let written = canonical_into_form_of(form, bytes, limits, scratch, out);
    tell(written, report)
}

/// Writes to `out` the canonical bytes of the message that `bytes` encode in `form`, within `limits`. The call
/// allocates no memory, and works in the words of `scratch` instead. The contents of `scratch` after the call are not
/// specified.
///
/// The status is 0 if the canonical bytes are at the start of `out`, and 1 if `out` is too short. If it is 1, `out` is
/// unchanged, and `length` is exactly the number of canonical bytes. The status is 2, 3 or 4 if the form, a limit or
/// the tariff is out of its range. It is 9 if `scratch` has too few words. Then `at` is the number of words needed.
/// Otherwise it is the status of the refusal, but never 8.
///
/// Bare words, and a stream of at most 64 segments, need no scratch. A stream of more segments needs one word for each
/// segment but the last, so 4,095 words are always enough. A packed text needs the words of the stream that it unpacks
/// to, and then the words that this stream needs. For a packed text, 6,144 words more than the limit on message words
/// are always enough. If `scratch` is too short for the unpacked words, `at` counts these words only.
#[unsafe(no_mangle)]
pub extern "C" fn capn_canonical_with_scratch(
    form: u32,
    bytes: &[u8],
    limits: &CapnLimits,
    scratch: &mut [[u8; 8]],
    out: &mut [u8],
    report: &mut CapnReport,
) -> u32
    // `result` is 2 if and only if the form is out of its range. If the form is in its range, `result` is 3 if and only
    // if a limit is out of its range. If the limits are in their ranges too, `result` is 4 if and only if the tariff is
    // out of its range.
    ensures form { (result ≡ 2) ↔ (IsForm form → ⊥) }
    ensures limits { (result ≡ 3) ↔ (IsForm form × (GiveLimits limits.now → ⊥)) }
    ensures tariff { (result ≡ 4) ↔ (IsForm form × GiveLimits limits.now × (IsTariff limits.now.tariff → ⊥)) }
    // If `result` is 0 or 1, the bytes denote one value, which has canonical bytes, and `scratch` has enough words. The
    // canonical bytes are in `out` if `result` is 0, and are too long for `out` if it is 1. `paid` is the price.
    ensures found { result ≤ 1 → (text : List ℕ)
        × Answers (form_named form) bytes.now (bounds_of limits.now) text report.new.paid
        × HasScratch (form_named form) bytes.now (length scratch.old)
        × Delivers text result report.new.length out.old out.new }
    // If the bytes denote a value without capabilities, and `scratch` has enough words, `result` is 0 or 1. If it is 0,
    // `out` has the canonical bytes of that value.
    ensures only { IsForm form → GiveLimits limits.now → IsTariff limits.now.tariff → (v : Value)
        → Denotes (form_named form) bytes.now (bounds_of limits.now) v → first_cap v ≡ None
        → HasScratch (form_named form) bytes.now (length scratch.old)
        → Delivers (canon v) result report.new.length out.old out.new }
    // If `result` is 0 or 1, the report has the number of canonical bytes and the price. All other fields of the report
    // are 0.
    ensures rest { result ≤ 1 → report.new ≡ answered report.new.length report.new.paid 0 }
    ensures blank { 2 ≤ result → result ≤ 4 → report.new ≡ at_number 0 }
    ensures listed { IsTrue (is_lent_status result) }
    // With arguments in range, `result` is 9 exactly if `scratch` has too few words. `LacksScratch` says what `at` is.
    ensures lacking { result ≡ 9 → (report.new ≡ at_number report.new.at)
        × LacksScratch (form_named form) bytes.now limits.now.message_words (length scratch.old) report.new.at }
    ensures lacked { IsForm form → GiveLimits limits.now → IsTariff limits.now.tariff → (n : ℕ)
        → LacksScratch (form_named form) bytes.now limits.now.message_words (length scratch.old) n
        → (result ≡ 9) × (report.new ≡ at_number n) }
    // If `result` is 9, `at` is at most the number of words that is enough for every input in the form.
    ensures enough { result ≡ 9 → report.new.at ≤ most_scratch (form_named form) limits.now.message_words }
    // If `result` is at least 10, `result` and `report` describe a refusal `e`, whose reason is true, and no other
    // refusal. `result` is never 8.
    ensures refused { 10 ≤ result → (e : Refusals) × Reports result report.new e
        × IsRefused (form_named form) bytes.now (bounds_of limits.now) e }
    ensures no_memory { result ≢ 8 }
    // For any `result`, the reported price is at most the budget, and the number of visits at most the price plus 1.
    ensures bounded { IsBounded limits.now.budget report.new.paid report.new.visits }
    ensures short { result ≤ 1 → report.new.length ≤ 8 * (report.new.paid + 1) }
    // If `result` is not 0, `out` is unchanged.
    ensures kept { result ≢ 0 → out.new ≡ out.old }
    // If `bytes` denote `v` and `result` is 0, the bytes written have the four properties of `IsCanonicalForm`.
    ensures canonical { result ≡ 0 → (v : Value) → Denotes (form_named form) bytes.now (bounds_of limits.now) v
        → IsCanonicalForm (take report.new.length out.new) (bounds_of limits.now) v }
{
    *report = report_at(0);
    let Some(form) = form_of(form) else {
        return BAD_FORM;
    };
    match limits_of(limits) {
        Ok(limits) => write_lent(form, bytes, limits, scratch, out, report),
        Err(status) => status,
    }
}
