//! Tests that compare the mismatch and the walk of a stream with its survey.

use crate::writing::message;
use capn_answers::{Mismatch, Walked, mismatch_and_survey_in, walk_in, walk_in_of};
use capn_canon::{Form, Refusal, survey_bytes};
use capn_walk::Limits;
use std::alloc::Global;
use std::test::Fail;

// Tests whether two walks have the same figures, or the same stop and the same path.
fn is_same(one: &Walked<Global>, other: &Walked<Global>) -> bool {
    match (one, other) {
        (Walked::Accepted(one), Walked::Accepted(other)) => one == other,
        (Walked::Refused(one), Walked::Refused(other)) => one.stopped == other.stopped
            && one.path.as_slice() == other.path.as_slice(),
        _ => false,
    }
}

// Tests whether the walk whose reads are bounded has the result of the walk of `stream`.
fn is_bounded_alike(alloc: Global, stream: &[u8], limits: Limits) -> bool {
    match (
        walk_in(alloc, Form::Stream, stream, limits),
        walk_in_of(alloc, Form::Stream, stream, limits),
    ) {
        (Ok(one), Ok(other)) => is_same(&one, &other),
        (Err(one), Err(other)) => one == other,
        _ => false,
    }
}

// Tests whether the walk of `stream` ends as its survey does: with the same figures, or with the same refusal.
fn is_walked(alloc: Global, stream: &[u8], limits: Limits) -> bool {
    match (
        survey_bytes(alloc, Form::Stream, stream, limits),
        walk_in(alloc, Form::Stream, stream, limits),
    ) {
        (Ok(survey), Ok(Walked::Accepted(found))) => found == survey,
        (Err(Refusal::Walk(stopped)), Ok(Walked::Refused(found))) => found.stopped == stopped,
        _ => false,
    }
}

// Tests whether the call for the mismatch of `stream` also returns its survey, or the refusal of the survey. If the
// stream has several `segments`, the mismatch has to be their number.
fn is_mismatched(alloc: Global, stream: &[u8], segments: u64, limits: Limits) -> bool {
    match (
        survey_bytes(alloc, Form::Stream, stream, limits),
        mismatch_and_survey_in(alloc, Form::Stream, stream, limits),
    ) {
        (Ok(survey), Ok(found)) => {
            let is_named = match found.mismatch {
                Mismatch::Segments(count) => count as u64 == segments,
                _ => segments == 1,
            };
            found.survey == survey && is_named
        }
        (Err(refusal), Err(other)) => refusal == other,
        _ => false,
    }
}

#[test]
fn surveys_beside_answers(rt: HostRuntime) -> Result<(), Fail> {
    let small = Limits::new(1_000, 8, 64).unwrap_or(Limits::usual());
    for seed in 0..60u64 {
        let segments = 1 + seed % 3;
        let stream = message(rt.alloc(), seed, segments)?;
        for limits in [Limits::usual(), small] {
            let is_told = is_walked(rt.alloc(), &stream, limits)
                && is_bounded_alike(rt.alloc(), &stream, limits)
                && is_mismatched(rt.alloc(), &stream, segments, limits);
            assert!(rt; is_told, "at seed {seed}");
        }
    }
    Ok(())
}
