//! The call `capn_unpack_some`, which unpacks the first groups of a packed text.

ghost use Rattle.std.specs.Prelude.{IsTrue, ◌≡◌, ◌≢◌, ◌≤◌, ◌*◌, length};
ghost use Rattle.capn_pack.specs.UnpackRefusal.{StartsWithin};
ghost use Rattle.capn_abi.specs.Calls.{IsWritten};
ghost use Rattle.capn_abi.specs.StatusCodes.{at_number, is_status};
ghost use Rattle.capn_c.specs.UnpackedPieces.{UnpacksInto, next_code, progressed, words_in};

use capn_abi::{CapnReport, DONE, MEMORY, PACKED_CUT, PACKED_TOO_LONG, report_at};
use capn_pack::{Next, Progress, unpack_some};
use std::alloc::Global;

/// Returns the status for `next`, which follows the unpacked groups: 0 for the end, 32 for an incomplete group, or 33
/// for a group that doesn't fit.
fn code_of_next(next: Next) -> u32
    ensures { result ≡ next_code next }
{
    match next {
        Next::End => DONE,
        Next::Cut => PACKED_CUT,
        Next::TooLong => PACKED_TOO_LONG,
    }
}

/// Returns `progress` as a report. `length` is the length of the words, and `at` that of the groups, both in bytes.
fn report_of_progress(progress: Progress) -> CapnReport
    ensures { result ≡ progressed (8 * progress.words) progress.bytes }
{
    CapnReport {
        length: 8 * progress.words as u64,
        ..report_at(progress.bytes as u64)
    }
}

/// Returns the number of complete words that fit into a buffer of `bytes` bytes, at most 2^32 - 1.
fn room_of(bytes: usize) -> u32
    ensures { result ≡ words_in bytes }
{
    (bytes / 8).min(u32::MAX as usize) as u32
}

/// Writes `bytes` at the start of `out`.
fn put(bytes: &[u8], out: &mut [u8])
    requires { length bytes.now ≤ length out.old }
    ensures { IsWritten bytes.now out.old out.new }
{
    out[..bytes.len()].copy_from_slice(bytes);
}

/// Unpacks the first complete groups of the packed text `bytes` into `out`, as many as fit.
///
/// The status is 0 if `bytes` end after these groups, and 8 if memory was refused. It is 32 if the next group is
/// incomplete, and 33 if the next group doesn't fit. If it is 0, 32 or 33, the unpacked groups take `at` bytes of the
/// text, and `length` bytes were written. For 32 and 33, the next group begins at `at`. Memory is needed for the words.
#[unsafe(no_mangle)]
pub extern "C" fn capn_unpack_some(
    alloc: Global,
    bytes: &[u8],
    out: &mut [u8],
    report: &mut CapnReport,
) -> u32
    // If `result` is not 8, the unpacked words are in `out`. The report has the lengths in bytes of words and groups.
    ensures some { result ≢ 8 → UnpacksInto bytes.now result report.new out.old out.new }
    // `result` is 8 only if a complete group that fits comes first.
    ensures memory { result ≡ 8 → StartsWithin bytes.now (words_in (length out.old)) }
    ensures listed { IsTrue (is_status result) }
    // If `result` is 8, all fields of the report are 0, and `out` is unchanged.
    ensures blank { result ≡ 8 → report.new ≡ at_number 0 }
    ensures kept { result ≡ 8 → out.new ≡ out.old }
{
    *report = report_at(0);
    let mut words = Vec::new(alloc);
    match unpack_some(bytes, room_of(out.len()), &mut words) {
        Ok(progress) => {
            put(words.as_slice(), out);
            *report = report_of_progress(progress);
            code_of_next(progress.next)
        }
        Err(_) => MEMORY,
    }
}
