//! The call `capn_first`, which finds the length of the first frame of a stream.

ghost use Rattle.std.specs.Prelude.{IsTrue, ◌≡◌, ◌⊎◌, ◌↔◌, ◌≤◌, ℕ, List, IfOk, IfErr, IsErrOf, MatchResult};
ghost use Rattle.capn_words.specs.Message.{most_message_words};
ghost use Rattle.capn_stream.specs.Frames.{StandsFirst};
ghost use Rattle.capn_stream.specs.StreamPieces.{IsUnfinished};
ghost use Rattle.capn_stream.specs.FrameRefusal.{HasTable, IsFrameRefused};
ghost use Rattle.capn_stream.specs.declared.fault.FrameFault.{FrameFault as Faults};
ghost use Rattle.capn_abi.specs.Calls.{GiveLimits, IsTariff};
ghost use Rattle.capn_abi.specs.StatusCodes.{answered, at_number, is_status};
ghost use Rattle.capn_c.specs.FrameReport.{ReportsFrame, frame_report};
ghost use Rattle.capn_c.specs.FrameNeed.{IsNeeded};

use crate::frame_need::needed_of;
use capn_abi::{
    CapnLimits, CapnReport, DONE, answer_of, code_of_frame, limits_of, number_of_frame, report_at,
};
use capn_stream::{FrameFault, first};
use std::alloc::Global;

/// Returns the report for `fault`, the refusal of the frame in `bytes`. If the frame is incomplete, the report has the
/// number of bytes that the frame needs. Otherwise it has the number of the fault.
fn report_of_frame(fault: FrameFault, bytes: &[u8], most: u32) -> CapnReport
    requires small { most ≤ most_message_words }
    requires refused { IsFrameRefused bytes.now most fault }
    ensures { result ≡ frame_report bytes.now fault }
{
    match fault {
        FrameFault::Empty => answer_of(needed_of(bytes, most), 0, 0),
        FrameFault::Cut => answer_of(needed_of(bytes, most), 0, 0),
        _ => report_at(number_of_frame(fault)),
    }
}

/// Writes the numbers of `fault`, the refusal of the frame in `bytes`, to `report`. Returns the status of `fault`.
fn refuse_frame(fault: FrameFault, bytes: &[u8], most: u32, report: &mut CapnReport) -> u32
    requires small { most ≤ most_message_words }
    requires refused { IsFrameRefused bytes.now most fault }
    ensures { ReportsFrame bytes.now result report.new fault }
{
    *report = report_of_frame(fault, bytes, most);
    code_of_frame(fault)
}

/// Returns the length in bytes of the first frame in `bytes`. Its message has at most `most` words.
fn length_of(alloc: Global, bytes: &[u8], most: u32) -> Result<usize, FrameFault>
    requires small { most ≤ most_message_words }
    ensures found { IfOk result (λ taken. (message : List (List ℕ)) × StandsFirst bytes.now most message taken) }
    ensures only { (message : List (List ℕ)) (taken : ℕ) → StandsFirst bytes.now most message taken
        → MatchResult result (λ n. n ≡ taken) (λ e. e ≡ FrameFault.Memory) }
    ensures refused { IfErr result (λ e. IsFrameRefused bytes.now most e) }
    ensures memory { IsErrOf result FrameFault.Memory → HasTable bytes.now most }
{
    let (_, taken) = first(alloc, bytes, most)?;
    Ok(taken)
}

/// Reports the length of the first frame in `bytes`, or the bytes it needs. Its message has at most `most` words.
fn frame(alloc: Global, bytes: &[u8], most: u32, report: &mut CapnReport) -> u32
    requires small { most ≤ most_message_words }
    ensures possible { (result ≡ 0) ⊎ (8 ≤ result) }
    ensures found { result ≡ 0 → (message : List (List ℕ)) × StandsFirst bytes.now most message report.new.length }
    ensures only { (message : List (List ℕ)) (taken : ℕ) → StandsFirst bytes.now most message taken
        → (result ≡ 8) ⊎ ((result ≡ 0) × (report.new.length ≡ taken)) }
    ensures rest { result ≡ 0 → report.new ≡ answered report.new.length 0 0 }
    ensures listed { IsTrue (is_status result) }
    ensures refused { 8 ≤ result → (e : Faults) × ReportsFrame bytes.now result report.new e
        × IsFrameRefused bytes.now most e }
    ensures needed { (result ≡ 48) ⊎ (result ≡ 51) → IsNeeded bytes.now most report.new.length }
    ensures memory { result ≡ 8 → HasTable bytes.now most }
{
    match length_of(alloc, bytes, most) {
        Ok(taken) => {
            *report = answer_of(taken as u64, 0, 0);
            DONE
        }
        Err(fault) => refuse_frame(fault, bytes, most, report),
    }
}

/// Reports the length of the first frame in `bytes`, or the number of bytes that the frame needs, within `limits`.
///
/// The status is 0 if the first `length` bytes are the frame. It is 3 or 4 if a limit or the tariff is out of its
/// range, and 8 if memory was refused. It is 48 if there are no bytes, and 51 if the frame is incomplete. In both cases
/// the complete frame has at least `length` bytes. The status is 49 or 50 if the table announces too many segments or
/// words. Then `at` is the number announced. Memory is allocated only for a complete frame of more than 64 segments.
#[unsafe(no_mangle)]
pub extern "C" fn capn_first(
    alloc: Global,
    bytes: &[u8],
    limits: &CapnLimits,
    report: &mut CapnReport,
) -> u32
    // `result` is 3 if and only if a limit is out of its range. If the limits are in their ranges, `result` is 4 if and
    // only if the tariff is out of its range.
    ensures limits { (result ≡ 3) ↔ (GiveLimits limits.now → ⊥) }
    ensures tariff { (result ≡ 4) ↔ (GiveLimits limits.now × (IsTariff limits.now.tariff → ⊥)) }
    // `result` is 0, the status of an argument out of its range (3 or 4), or the status of a refusal. A refusal is
    // never reported as a short buffer (1) or as a wrong argument.
    ensures possible { (result ≡ 0) ⊎ (result ≡ 3) ⊎ (result ≡ 4) ⊎ (8 ≤ result) }
    // If `result` is 0, the first `length` bytes are the frame of a message of at most `message_words` words.
    ensures found { result ≡ 0 → (message : List (List ℕ))
        × StandsFirst bytes.now limits.now.message_words message report.new.length }
    // If a frame of at most `message_words` words comes first, `length` is the length of that frame, unless `result` is
    // 8.
    ensures only { GiveLimits limits.now → IsTariff limits.now.tariff → (message : List (List ℕ)) (taken : ℕ)
        → StandsFirst bytes.now limits.now.message_words message taken
        → (result ≡ 8) ⊎ ((result ≡ 0) × (report.new.length ≡ taken)) }
    // If `result` is 0, the report has the length of the frame. All other fields of the report are 0.
    ensures rest { result ≡ 0 → report.new ≡ answered report.new.length 0 0 }
    ensures blank { 1 ≤ result → result ≤ 4 → report.new ≡ at_number 0 }
    ensures listed { IsTrue (is_status result) }
    // If `result` is at least 5, `result` and `report` describe a fault `e` of the frame, whose reason is true. If
    // `result` is not 8, they describe no other fault.
    ensures refused { 5 ≤ result → (e : Faults) × ReportsFrame bytes.now result report.new e
        × IsFrameRefused bytes.now limits.now.message_words e }
    // If `result` is 48 or 51, every complete frame that begins with `bytes` has at least `length` bytes. `length` is
    // more than the number of bytes passed, and at most the greatest length of a frame.
    ensures needed { (result ≡ 48) ⊎ (result ≡ 51)
        → IsNeeded bytes.now limits.now.message_words report.new.length }
    // `result` is 8 only if a complete frame of more than 64 segments comes first.
    ensures memory { result ≡ 8 → HasTable bytes.now limits.now.message_words }
{
    *report = report_at(0);
    match limits_of(limits) {
        Ok(limits) => frame(alloc, bytes, limits.message_words(), report),
        Err(status) => status,
    }
}
