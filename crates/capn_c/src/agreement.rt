//! The laws of agreement. The calls for C that make canonical bytes or a digest report what `canonical_into_form`
//! returns.
//!
//! Each function makes two calls with the same arguments, and returns both results. The proof uses only the contracts
//! of the calls.

ghost use Rattle.std.specs.Prelude.{◌≡◌, ◌<◌, IfSome, IsSome, length};
ghost use Rattle.capn_abi.specs.Calls.{IsForm, GiveLimits, IsTariff};
ghost use Rattle.capn_stream.specs.Frames.{Frames};
ghost use Rattle.capn_stream.specs.Segments.{message_of};
ghost use Rattle.capn_c.specs.Agreement.{AgreeDigest, AgreeHeld, AgreeLent, IsResultTold, TellsForm};
ghost use Rattle.capn_c.specs.inner.Lent.{IsLent};

use crate::canonical_call::capn_canonical;
use crate::canonical_scratch_call::{capn_canonical_with_scratch, tell};
use crate::canonical_segments_call::capn_canonical_segments;
use crate::hash_call::capn_hash;
use crate::hash_segments_call::capn_hash_segments;
use capn_abi::{CapnLimits, CapnReport, form_of, limits_of, report_at};
use capn_canon::laws::denotation;
use capn_canon::{CanonicalLength, Form};
use capn_scratch::laws::{decision, enough};
use capn_scratch::{FormRefusal, canonical_into_form};
use capn_walk::Limits;
use std::alloc::Global;

/// The number of the form of streams.
const STREAM: u32 = 0;

/// Calls `canonical_into_form`, and writes the numbers of its result to `report`. Returns the status and the result.
fn told_form(
    form: Form,
    bytes: &[u8],
    limits: Limits,
    scratch: &mut [[u8; 8]],
    out: &mut [u8],
    report: &mut CapnReport,
) -> (u32, Result<CanonicalLength, FormRefusal>)
    ensures lent { IsLent form bytes.now limits (length scratch.old) out.old out.new result.0 report.new }
    ensures told { IsResultTold result.1 result.0 report.new }
{
    // The proof of the contract needs the laws of canonical bytes, and the ranges that limits promise.
    decision();
    enough();
    denotation();
    let _words = limits.message_words();
    let _budget = limits.budget();
    let _depth = limits.depth();
    let written = canonical_into_form(form, bytes, limits, scratch, out);
    let status = tell(written, report);
    (status, written)
}

/// States that `capn_canonical_with_scratch` reports the result of `canonical_into_form`, and writes the same bytes.
/// Returns the status and that result, or `None` if the form, a limit or the tariff is out of its range.
pub fn with_scratch(
    form: u32,
    bytes: &[u8],
    limits: &CapnLimits,
    scratch: &mut [[u8; 8]],
    out: &mut [u8],
    also: &mut [u8],
    report: &mut CapnReport,
) -> Option<(u32, Result<CanonicalLength, FormRefusal>)>
    ensures named { IsForm form → GiveLimits limits.now → IsTariff limits.now.tariff → IsSome result }
    ensures agree { out.old ≡ also.old → IfSome result (λ r. TellsForm r.1 r.0 report.new also.new out.new) }
{
    decision();
    let status = capn_canonical_with_scratch(form, bytes, limits, scratch, out, report);
    let Some(form) = form_of(form) else {
        return None;
    };
    match limits_of(limits) {
        Ok(limits) => {
            let mut other = report_at(0);
            let (_told, written) = told_form(form, bytes, limits, scratch, also, &mut other);
            Some((status, written))
        }
        Err(_) => None,
    }
}

/// States that `capn_canonical` and `capn_canonical_with_scratch` return the same status and the same report, and write
/// the same bytes, unless the first was refused memory or the second has too few words of scratch. The buffer is not
/// empty, since `capn_canonical` only measures the message for an empty buffer.
pub fn canonical(
    alloc: Global,
    form: u32,
    bytes: &[u8],
    limits: &CapnLimits,
    scratch: &mut [[u8; 8]],
    out: &mut [u8],
    also: &mut [u8],
    first: &mut CapnReport,
    second: &mut CapnReport,
) -> (u32, u32)
    ensures { out.old ≡ also.old → 0 < length out.old
        → AgreeLent result.0 result.1 first.new second.new out.new also.new }
{
    let one = capn_canonical(alloc, form, bytes, limits, out, first);
    let other = capn_canonical_with_scratch(form, bytes, limits, scratch, also, second);
    (one, other)
}

/// States that `capn_canonical_segments` and `capn_canonical_with_scratch` return the same status and the same report,
/// and write the same bytes, unless the second has too few words of scratch. The stream `bytes` is a frame of the
/// message in `segments`. The buffer is not empty, since `capn_canonical_segments` only measures the message for an
/// empty buffer.
pub fn canonical_segments(
    alloc: Global,
    segments: &[&[[u8; 8]]],
    bytes: &[u8],
    limits: &CapnLimits,
    scratch: &mut [[u8; 8]],
    out: &mut [u8],
    also: &mut [u8],
    first: &mut CapnReport,
    second: &mut CapnReport,
) -> (u32, u32)
    ensures { Frames bytes.now (message_of segments.now) → out.old ≡ also.old → 0 < length out.old
        → AgreeHeld result.0 result.1 first.new second.new out.new also.new }
{
    let one = capn_canonical_segments(alloc, segments, limits, out, first);
    let other = capn_canonical_with_scratch(STREAM, bytes, limits, scratch, also, second);
    (one, other)
}

/// States that `capn_hash` writes the SHA-256 of the bytes that `capn_canonical_with_scratch` writes, or reports the
/// same refusal, unless the first was refused memory or the second has too few words of scratch. If the bytes are too
/// long for `out`, the digest is written all the same, with the same price.
pub fn hash(
    alloc: Global,
    form: u32,
    bytes: &[u8],
    limits: &CapnLimits,
    scratch: &mut [[u8; 8]],
    digest: &mut [u8; 32],
    out: &mut [u8],
    first: &mut CapnReport,
    second: &mut CapnReport,
) -> (u32, u32)
    ensures { AgreeDigest result.0 result.1 first.new second.new digest.new out.new }
{
    let one = capn_hash(alloc, form, bytes, limits, digest, first);
    let other = capn_canonical_with_scratch(form, bytes, limits, scratch, out, second);
    (one, other)
}

/// States of `capn_hash_segments` what [`hash`] states of `capn_hash`. The stream `bytes` is a frame of the message in
/// `segments`.
pub fn hash_segments(
    alloc: Global,
    segments: &[&[[u8; 8]]],
    bytes: &[u8],
    limits: &CapnLimits,
    scratch: &mut [[u8; 8]],
    digest: &mut [u8; 32],
    out: &mut [u8],
    first: &mut CapnReport,
    second: &mut CapnReport,
) -> (u32, u32)
    ensures { Frames bytes.now (message_of segments.now)
        → AgreeDigest result.0 result.1 first.new second.new digest.new out.new }
{
    let one = capn_hash_segments(alloc, segments, limits, digest, first);
    let other = capn_canonical_with_scratch(STREAM, bytes, limits, scratch, out, second);
    (one, other)
}
