//! The laws of one result. The arguments of a call decide its status and its report, unless memory was refused.
//!
//! Each function makes one call twice with the same arguments, and returns both statuses. The proof uses only the
//! contract of the call. So the contract allows one status and one report for each input, and also status 8.

ghost use Rattle.std.specs.Prelude.{◌≡◌};
ghost use Rattle.capn_c.specs.Decision.{Agree};

use crate::annotate_call::capn_annotate;
use crate::canonical_call::capn_canonical;
use crate::canonical_scratch_call::capn_canonical_with_scratch;
use crate::canonical_segments_call::capn_canonical_segments;
use crate::check_call::capn_check;
use crate::check_segments_call::capn_check_segments;
use crate::entries::CapnEntry;
use crate::figures::CapnFigures;
use crate::first_call::capn_first;
use crate::hash_call::capn_hash;
use crate::hash_segments_call::capn_hash_segments;
use crate::index_call::capn_index;
use crate::is_canonical_call::capn_is_canonical;
use crate::same_call::capn_same;
use crate::show_call::capn_show;
use crate::survey_call::capn_survey;
use crate::survey_segments_call::capn_survey_segments;
use capn_abi::{CapnLimits, CapnReport};
use capn_answers::CapnLine;
use capn_scratch::laws::decision;
use std::alloc::Global;

/// States that the arguments of `capn_check` decide the status and the report, unless a status is 8.
pub fn check(
    alloc: Global,
    form: u32,
    bytes: &[u8],
    limits: &CapnLimits,
    first: &mut CapnReport,
    second: &mut CapnReport,
) -> (u32, u32)
    ensures { Agree result.0 first.new result.1 second.new }
{
    let one = capn_check(alloc, form, bytes, limits, first);
    let other = capn_check(alloc, form, bytes, limits, second);
    (one, other)
}

/// States that the segments and the limits of `capn_check_segments` decide the status and the report.
pub fn check_segments(
    alloc: Global,
    segments: &[&[[u8; 8]]],
    limits: &CapnLimits,
    first: &mut CapnReport,
    second: &mut CapnReport,
) -> (u32, u32)
    ensures { Agree result.0 first.new result.1 second.new }
{
    let one = capn_check_segments(alloc, segments, limits, first);
    let other = capn_check_segments(alloc, segments, limits, second);
    (one, other)
}

/// States that the arguments of `capn_survey` decide the status and the report, unless a status is 8.
pub fn survey(
    alloc: Global,
    form: u32,
    bytes: &[u8],
    limits: &CapnLimits,
    figures: &mut CapnFigures,
    first: &mut CapnReport,
    second: &mut CapnReport,
) -> (u32, u32)
    ensures { Agree result.0 first.new result.1 second.new }
{
    let one = capn_survey(alloc, form, bytes, limits, figures, first);
    let other = capn_survey(alloc, form, bytes, limits, figures, second);
    (one, other)
}

/// States that the segments and the limits of `capn_survey_segments` decide the status and the report.
pub fn survey_segments(
    alloc: Global,
    segments: &[&[[u8; 8]]],
    limits: &CapnLimits,
    figures: &mut CapnFigures,
    first: &mut CapnReport,
    second: &mut CapnReport,
) -> (u32, u32)
    ensures { Agree result.0 first.new result.1 second.new }
{
    let one = capn_survey_segments(alloc, segments, limits, figures, first);
    let other = capn_survey_segments(alloc, segments, limits, figures, second);
    (one, other)
}

/// States that the arguments of `capn_hash` decide the status and the report, unless a status is 8.
pub fn hash(
    alloc: Global,
    form: u32,
    bytes: &[u8],
    limits: &CapnLimits,
    digest: &mut [u8; 32],
    first: &mut CapnReport,
    second: &mut CapnReport,
) -> (u32, u32)
    ensures { Agree result.0 first.new result.1 second.new }
{
    let one = capn_hash(alloc, form, bytes, limits, digest, first);
    let other = capn_hash(alloc, form, bytes, limits, digest, second);
    (one, other)
}

/// States that the segments and the limits of `capn_hash_segments` decide the status and the report, unless a status
/// is 8.
pub fn hash_segments(
    alloc: Global,
    segments: &[&[[u8; 8]]],
    limits: &CapnLimits,
    digest: &mut [u8; 32],
    first: &mut CapnReport,
    second: &mut CapnReport,
) -> (u32, u32)
    ensures { Agree result.0 first.new result.1 second.new }
{
    let one = capn_hash_segments(alloc, segments, limits, digest, first);
    let other = capn_hash_segments(alloc, segments, limits, digest, second);
    (one, other)
}

/// States that the bytes and the limits of `capn_is_canonical` decide the status and the report.
pub fn is_canonical(
    alloc: Global,
    bytes: &[u8],
    limits: &CapnLimits,
    first: &mut CapnReport,
    second: &mut CapnReport,
) -> (u32, u32)
    ensures { Agree result.0 first.new result.1 second.new }
{
    let one = capn_is_canonical(alloc, bytes, limits, first);
    let other = capn_is_canonical(alloc, bytes, limits, second);
    (one, other)
}

/// States that the bytes and the limits of `capn_first` decide the status and the report, unless a status is 8.
pub fn first_frame(
    alloc: Global,
    bytes: &[u8],
    limits: &CapnLimits,
    first: &mut CapnReport,
    second: &mut CapnReport,
) -> (u32, u32)
    ensures { Agree result.0 first.new result.1 second.new }
{
    let one = capn_first(alloc, bytes, limits, first);
    let other = capn_first(alloc, bytes, limits, second);
    (one, other)
}

/// States that the arguments of `capn_canonical` and the length of the buffer decide the status and the report, unless
/// a status is 8.
pub fn canonical(
    alloc: Global,
    form: u32,
    bytes: &[u8],
    limits: &CapnLimits,
    out: &mut [u8],
    first: &mut CapnReport,
    second: &mut CapnReport,
) -> (u32, u32)
    ensures { Agree result.0 first.new result.1 second.new }
{
    let one = capn_canonical(alloc, form, bytes, limits, out, first);
    let other = capn_canonical(alloc, form, bytes, limits, out, second);
    (one, other)
}

/// States that the segments and the limits of `capn_canonical_segments` and the length of the buffer decide the status
/// and the report.
pub fn canonical_segments(
    alloc: Global,
    segments: &[&[[u8; 8]]],
    limits: &CapnLimits,
    out: &mut [u8],
    first: &mut CapnReport,
    second: &mut CapnReport,
) -> (u32, u32)
    ensures { Agree result.0 first.new result.1 second.new }
{
    let one = capn_canonical_segments(alloc, segments, limits, out, first);
    let other = capn_canonical_segments(alloc, segments, limits, out, second);
    (one, other)
}

/// States that the arguments of `capn_index` and the length of the buffer decide the status and the report, unless a
/// status is 8.
pub fn index(
    alloc: Global,
    form: u32,
    bytes: &[u8],
    limits: &CapnLimits,
    out: &mut [CapnEntry],
    first: &mut CapnReport,
    second: &mut CapnReport,
) -> (u32, u32)
    ensures { Agree result.0 first.new result.1 second.new }
{
    let one = capn_index(alloc, form, bytes, limits, out, first);
    let other = capn_index(alloc, form, bytes, limits, out, second);
    (one, other)
}

/// States that the arguments of `capn_show` and the length of the buffer decide the status and the report, unless a
/// status is 8.
pub fn show(
    alloc: Global,
    form: u32,
    bytes: &[u8],
    limits: &CapnLimits,
    style: u32,
    out: &mut [u8],
    first: &mut CapnReport,
    second: &mut CapnReport,
) -> (u32, u32)
    ensures { Agree result.0 first.new result.1 second.new }
{
    let one = capn_show(alloc, form, bytes, limits, style, out, first);
    let other = capn_show(alloc, form, bytes, limits, style, out, second);
    (one, other)
}

/// States that the arguments of `capn_annotate` and the length of the array decide the status and the report, unless a
/// status is 8.
pub fn annotate(
    alloc: Global,
    form: u32,
    bytes: &[u8],
    limits: &CapnLimits,
    out: &mut [CapnLine],
    first: &mut CapnReport,
    second: &mut CapnReport,
) -> (u32, u32)
    ensures { Agree result.0 first.new result.1 second.new }
{
    let one = capn_annotate(alloc, form, bytes, limits, out, first);
    let other = capn_annotate(alloc, form, bytes, limits, out, second);
    (one, other)
}

/// States that the arguments of `capn_same` decide the status and the report, unless a status is 8.
pub fn same(
    alloc: Global,
    form: u32,
    message: &[u8],
    compared: &[u8],
    limits: &CapnLimits,
    which: &mut u32,
    first: &mut CapnReport,
    second: &mut CapnReport,
) -> (u32, u32)
    ensures { Agree result.0 first.new result.1 second.new }
{
    let one = capn_same(alloc, form, message, compared, limits, which, first);
    let other = capn_same(alloc, form, message, compared, limits, which, second);
    (one, other)
}

/// States that the arguments of `capn_canonical_with_scratch`, the number of words of the scratch and the length of the
/// buffer decide the status and the report. The contents of the scratch do not matter, and no status is left out.
pub fn canonical_with_scratch(
    form: u32,
    bytes: &[u8],
    limits: &CapnLimits,
    scratch: &mut [[u8; 8]],
    out: &mut [u8],
    first: &mut CapnReport,
    second: &mut CapnReport,
) -> (u32, u32)
    ensures status { result.0 ≡ result.1 }
    ensures report { first.new ≡ second.new }
{
    // The proof of the contract needs the law that the clauses of `canonical_into_form` allow one result.
    decision();
    let one = capn_canonical_with_scratch(form, bytes, limits, scratch, out, first);
    let other = capn_canonical_with_scratch(form, bytes, limits, scratch, out, second);
    (one, other)
}
