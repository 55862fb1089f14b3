//! The answers for the calls `walk`, `survey` and `is_canonical`.

use crate::messages::true_limits_at;
use crate::refusals::{stop_told, told};
use anyhow::{Result, anyhow};
use capn_canon::{Form, is_canonical};
use capn_pack::unpack;
use capn_stream::first;
use capn_value::Tariff;
use capn_walk::{Limits, survey, walk};
use capn_words::{Bare, MOST_MESSAGE_WORDS, Space};
use conformance_cases::{Heap, bytes_at, form_at};
use std::alloc::Global;

/// Returns the answer of a walk.
fn walk_text<S: Space>(alloc: Global, heap: &Heap, space: &S, limits: Limits) -> Result<String> {
    match walk(heap, space, limits) {
        Ok(walked) => {
            let paid = walked.paid;
            let visits = walked.visits;
            // One call of `drop` is cheaper for the prover than fields that are dropped one by one.
            drop(walked);
            Ok(format!(in alloc; "paid {paid}, visits {visits}")?)
        }
        Err(stopped) => stop_told(alloc, stopped),
    }
}

/// Returns the answer of a survey.
fn survey_text<S: Space>(alloc: Global, heap: &Heap, space: &S, limits: Limits) -> Result<String> {
    match survey(heap, space, limits) {
        Ok(surveyed) => {
            let paid = surveyed.paid;
            let visits = surveyed.visits;
            match surveyed.capability {
                Some(index) => {
                    Ok(format!(in alloc; "paid {paid}, visits {visits}, capability {index}")?)
                }
                None => Ok(format!(in alloc; "paid {paid}, visits {visits}, no capability")?),
            }
        }
        Err(stopped) => stop_told(alloc, stopped),
    }
}

/// The call on a message.
#[derive(Clone, Copy)]
pub(crate) enum Asked {
    Walk,
    Survey,
}

/// Returns the answer of the call `asked` for the message `space`.
fn visits_text<S: Space>(
    alloc: Global,
    heap: &Heap,
    asked: Asked,
    space: &S,
    limits: Limits,
) -> Result<String> {
    match asked {
        Asked::Walk => walk_text(alloc, heap, space, limits),
        Asked::Survey => survey_text(alloc, heap, space, limits),
    }
}

/// Returns the answer of the call `asked` for the first message in `bytes`.
fn visits_of_frame(
    alloc: Global,
    heap: &Heap,
    asked: Asked,
    bytes: &[u8],
    limits: Limits,
) -> Result<String> {
    match first(heap, bytes, MOST_MESSAGE_WORDS) {
        Ok((space, _)) => visits_text(alloc, heap, asked, &space, limits),
        Err(fault) => told(alloc, fault),
    }
}

/// Answers `walk FORM MESSAGE_WORDS BUDGET DEPTH BYTES`, or `survey` with the same words.
pub(crate) fn visits_answer(
    alloc: Global,
    heap: &Heap,
    asked: Asked,
    words: &[&str],
    tariff: Tariff,
) -> Result<String> {
    let form = form_at(words, 1)?;
    let limits = true_limits_at(words, 2, tariff)?;
    let bytes = bytes_at(alloc, words, 5)?;
    match form {
        Form::Bare => match Bare::new(bytes.as_slice()) {
            Ok(space) => visits_text(alloc, heap, asked, &space, limits),
            Err(_) => Err(anyhow!("no segment")),
        },
        Form::Stream => visits_of_frame(alloc, heap, asked, bytes.as_slice(), limits),
        Form::Packed => match unpack(heap, bytes.as_slice(), MOST_MESSAGE_WORDS) {
            Ok(text) => visits_of_frame(alloc, heap, asked, text.as_slice(), limits),
            Err(fault) => told(alloc, fault),
        },
    }
}

/// Answers `is_canonical MESSAGE_WORDS BUDGET DEPTH BYTES`.
pub(crate) fn is_canonical_answer(
    alloc: Global,
    heap: &Heap,
    words: &[&str],
    tariff: Tariff,
) -> Result<String> {
    let limits = true_limits_at(words, 1, tariff)?;
    let bytes = bytes_at(alloc, words, 4)?;
    match is_canonical(heap, bytes.as_slice(), limits) {
        Ok(answer) => Ok(format!(in alloc; "{answer}")?),
        Err(refusal) => told(alloc, refusal),
    }
}
