//! The function `lines_of_measured`, which finds the lines about the canonical form of an accepted message.

ghost use Rattle.std.specs.Prelude.{IfOk, IfSome, IsErr};
ghost use Rattle.capn_value.specs.Tree.{Tree as Value};
ghost use Rattle.capn_walk.specs.Accepted.{IsValueOf};
ghost use Rattle.capn_canon.specs.Measure.{IsMeasure};
ghost use Rattle.capn_mismatch.specs.CanonicalLines.{AreLinesOf, AreLengths};
ghost use Rattle.capn_mismatch.specs.Mismatches.{HasMismatch};
ghost use Rattle.capn_mismatch.specs.inner.Made.{HasCanonicalLength};

use crate::canonical_lines::CanonicalLines;
use crate::message_mismatch::finding_of;
use capn_canon::MeasuredBare;
use capn_layout::surveyed_length;
use capn_walk::Limits;
use capn_words::{Memory, Space, total_words};
use std::alloc::Allocator;

/// Returns the lines about the canonical form of the accepted message `space`. They say whether the message is
/// canonical, and may give the lengths of the message and of the canonical bytes (see [`CanonicalLines`]).
///
/// `measured` is the result of [`measure`](capn_canon::measure) for `space` within `limits`, so the message isn't
/// surveyed again. `offset` is the byte of the stream at which the message begins. `table` is the number of words of
/// the message's segment table, or 0 for a bare message.
///
/// Canonical bytes are laid out at most once, and only for a message of one segment that is not canonical. For a
/// message of more segments, the canonical bytes are at most counted. The call allocates what
/// [`mismatch`](crate::mismatch) allocates. `Memory` is returned only for a message of one segment that is not
/// canonical, if an allocation on `alloc` was refused. (Our own.)
pub fn lines_of_measured<S: Space, A: Allocator + Copy>(
    alloc: A,
    space: &S,
    limits: Limits,
    measured: MeasuredBare,
    offset: u64,
    table: u32,
) -> Result<CanonicalLines<A>, Memory>
    requires measured { IsMeasure (S.message space.now) limits measured }
    // If `result` is `Ok`, `result` has the lines of this message.
    ensures found { IfOk result (λ lines. AreLinesOf (S.message space.now) limits offset table lines) }
    // `Memory` is returned only for a message of one segment that is not canonical.
    ensures memory { IsErr result → HasMismatch (S.message space.now) limits }
{
    let finding = finding_of(alloc, space, limits, measured)?;
    let lengths = lengths_of(space, limits, measured, finding.length);
    Ok(CanonicalLines {
        mismatch: finding.mismatch,
        offset,
        table,
        lengths,
    })
}

/// Returns the number of bytes of the message's contents and the number of canonical bytes, if the line `lengths` shows
/// them. `made` is the number of canonical bytes, if canonical bytes were made already.
fn lengths_of<S: Space>(
    space: &S,
    limits: Limits,
    measured: MeasuredBare,
    made: Option<u64>,
) -> Option<(u64, u64)>
    requires measured { IsMeasure (S.message space.now) limits measured }
    requires made { IfSome made (HasCanonicalLength (S.message space.now) limits) }
    ensures { (v : Value) → IsValueOf (S.message space.now) limits v → AreLengths (S.message space.now) v result }
{
    if measured.survey.is_canonical {
        return None;
    }
    match measured.survey.capability {
        Some(_) => return None,
        None => {}
    }
    let contents = 8 * total_words(space) as u64;
    let canonical = canonical_length(space, limits, made);
    if contents == canonical {
        return None;
    }
    Some((contents, canonical))
}

/// Returns the number of canonical bytes of a message: the number in `made`, or the result of a count if `made` is
/// `None`.
fn canonical_length<S: Space>(space: &S, limits: Limits, made: Option<u64>) -> u64
    requires accepted { (v : Value) × IsValueOf (S.message space.now) limits v }
    requires made { IfSome made (HasCanonicalLength (S.message space.now) limits) }
    ensures { HasCanonicalLength (S.message space.now) limits result }
{
    // The prover learns from these two calls how large a message and limits may be.
    let _segments = space.segments();
    let _budget = limits.budget();
    match made {
        Some(length) => length,
        None => 8 * surveyed_length(space, limits.depth()) as u64,
    }
}
