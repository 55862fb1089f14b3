//! The calls `capn_pack` and `capn_unpack`, which pack words and unpack a complete packed text.

ghost use Rattle.std.specs.Prelude.{◌↔◌, IsTrue, ◌≡◌, ◌≢◌, ◌⊎◌, ◌≤◌, ◌<◌, ◌%◌, ◌*◌, ℕ, List, length};
ghost use Rattle.capn_pack.specs.Packed.{Packs};
ghost use Rattle.capn_pack.specs.Chosen.{Chosen};
ghost use Rattle.capn_pack.specs.Words.{HasWords};
ghost use Rattle.capn_pack.specs.UnpackRefusal.{IsUnpackRefused, StartsWithin};
ghost use Rattle.capn_pack.specs.declared.fault.UnpackFault.{UnpackFault as Faults};
ghost use Rattle.capn_abi.specs.Calls.{Delivers};
ghost use Rattle.capn_abi.specs.StatusCodes.{answered, at_number, ReportsPacked, is_status};

use capn_abi::{CapnReport, MEMORY, NOT_WHOLE, answer_of, deliver, refuse_packed, report_at};
use capn_pack::{PackFault, pack, unpack};
use std::alloc::Global;

/// Writes the packed text of the words in `bytes` to `out`.
///
/// The status is 0 if the text is at the start of `out`, and 1 if `out` is too short. If it is 1, `out` is unchanged,
/// and `length` is the length of the text in bytes. The status is 8 if memory was refused, and 16 if the number of
/// bytes is not a multiple of 8. If it is 16, `at` is the number of bytes.
#[unsafe(no_mangle)]
pub extern "C" fn capn_pack(
    alloc: Global,
    bytes: &[u8],
    out: &mut [u8],
    report: &mut CapnReport,
) -> u32
    // The text that the packer chooses for the words is in `out` if `result` is 0, and too long for `out` if it is 1.
    // The text unpacks to the words.
    ensures found { result ≤ 1 → (text : List ℕ) × Chosen text bytes.now × Packs text bytes.now
        × Delivers text result report.new.length out.old out.new }
    // If the packer chooses a text for the words, `result` is 0, 1 or 8. If it is 0, that text is in `out`.
    ensures only { (text : List ℕ) → Chosen text bytes.now
        → (result ≡ 8) ⊎ Delivers text result report.new.length out.old out.new }
    // Two texts that the packer chooses are equal if and only if their words are equal.
    ensures unique { (a b vs ws : List ℕ) → Chosen a vs → Chosen b ws
        → ((a ≡ b) ↔ (vs ≡ ws)) }
    // If the number of bytes is a multiple of 8, `result` is 0, 1 or 8. Otherwise `result` is 16, with the number of
    // bytes in `at`.
    ensures whole { length bytes.now % 8 ≡ 0 → (result ≤ 1) ⊎ (result ≡ 8) }
    ensures not_whole { length bytes.now % 8 ≢ 0 → (result ≡ 16) × (report.new ≡ at_number (length bytes.now)) }
    // `result` is 8 only if there are bytes.
    ensures memory { result ≡ 8 → 0 < length bytes.now }
    // If `result` is 0 or 1, the report has the length of the text. All other fields of the report are 0.
    ensures rest { result ≤ 1 → report.new ≡ answered report.new.length 0 0 }
    ensures blank { result ≡ 8 → report.new ≡ at_number 0 }
    ensures kept { result ≢ 0 → out.new ≡ out.old }
{
    match pack(alloc, bytes) {
        Ok(text) => {
            *report = answer_of(text.len() as u64, 0, 0);
            deliver(text.as_slice(), out)
        }
        Err(PackFault::Memory) => {
            *report = report_at(0);
            MEMORY
        }
        Err(PackFault::NotWhole(length)) => {
            *report = report_at(length);
            NOT_WHOLE
        }
    }
}

/// Unpacks the packed text `bytes` to `out`, if the text unpacks to at most `max_words` words.
///
/// The status is 0 if the words are at the start of `out`, and 1 if `out` is too short. If it is 1, `out` is unchanged,
/// and `length` is the length of the words in bytes. The status is 8 if memory was refused. It is 32 if the text ends
/// within a group, and 33 if a group takes the words over `max_words`. For both, `at` is the offset of the group's tag.
#[unsafe(no_mangle)]
pub extern "C" fn capn_unpack(
    alloc: Global,
    bytes: &[u8],
    max_words: u32,
    out: &mut [u8],
    report: &mut CapnReport,
) -> u32
    // If `result` is 0 or 1, the packed text unpacks to at most `max_words` words. If it is 0, they are in `out`.
    ensures found { result ≤ 1 → (words : List ℕ)
        × Packs bytes.now words × (length words ≤ 8 * max_words) × HasWords words
        × Delivers words result report.new.length out.old out.new }
    // If the packed text unpacks to at most `max_words` words, `result` is 0, 1 or 8. If it is 0, they are in `out`.
    ensures only { (words : List ℕ) → Packs bytes.now words → length words ≤ 8 * max_words
        → (result ≡ 8) ⊎ Delivers words result report.new.length out.old out.new }
    ensures listed { IsTrue (is_status result) }
    // If `result` is at least 2, `result` and `report` describe a fault `e` of the text, whose reason is true. If
    // `result` is not 8, they describe no other fault.
    ensures refused { 2 ≤ result → (e : Faults) × ReportsPacked result report.new e
        × IsUnpackRefused bytes.now max_words e }
    // `result` is 8 only if a complete group of at most `max_words` words comes first.
    ensures memory { result ≡ 8 → StartsWithin bytes.now max_words }
    // If `result` is 0 or 1, the report has the length of the words in bytes. All other fields of the report are 0.
    ensures rest { result ≤ 1 → report.new ≡ answered report.new.length 0 0 }
    ensures kept { result ≢ 0 → out.new ≡ out.old }
{
    match unpack(alloc, bytes, max_words) {
        Ok(words) => {
            *report = answer_of(words.len() as u64, 0, 0);
            deliver(words.as_slice(), out)
        }
        Err(fault) => refuse_packed(fault, report),
    }
}
