//! The answers for the call `resolve`, which finds the target of a slot.

use crate::refusals::told;
use anyhow::{Result, anyhow};
use capn_canon::Form;
use capn_stream::first;
use capn_walk::{Shape, Target, resolve};
use capn_words::{Bare, MOST_MESSAGE_WORDS, Place, Space};
use conformance_cases::{Heap, bytes_at, form_at, number_at};
use std::alloc::Global;

/// Returns the target of a slot, as a line.
fn target_text(alloc: Global, target: Target) -> Result<String> {
    let Target::Content {
        segment,
        start,
        shape,
        pads,
    } = target
    else {
        return Ok(String::from_str(alloc, "no content")?);
    };
    match shape {
        Shape::Node { words, slots } => {
            Ok(format!(in alloc;
                "segment {segment}, start {start}, Node {words} {slots}, pads {pads}"
            )?)
        }
        Shape::Many { .. } | Shape::Rows { .. } => {
            Ok(format!(in alloc; "segment {segment}, start {start}, a list, pads {pads}")?)
        }
    }
}

/// Returns the answer of `resolve` at the place `at`.
fn resolve_text<S: Space>(alloc: Global, space: &S, at: Place) -> Result<String> {
    let Some(length) = space.words(at.segment) else {
        return Err(anyhow!("no such segment"));
    };
    if at.word >= length {
        return Err(anyhow!("no such word"));
    }
    match resolve(space, at) {
        Ok(target) => target_text(alloc, target),
        Err(fault) => told(alloc, fault),
    }
}

/// Returns the answer of `resolve` at the place `at` of the first message in `stream`.
fn resolve_in_frame(alloc: Global, heap: &Heap, stream: &[u8], at: Place) -> Result<String> {
    match first(heap, stream, MOST_MESSAGE_WORDS) {
        Ok((space, _)) => resolve_text(alloc, &space, at),
        Err(fault) => told(alloc, fault),
    }
}

/// Returns the answer of `resolve` at the place `at` of the bare message `bytes`.
fn resolve_in_bare(alloc: Global, bytes: &[u8], at: Place) -> Result<String> {
    match Bare::new(bytes) {
        Ok(space) => resolve_text(alloc, &space, at),
        Err(_) => Err(anyhow!("no segment")),
    }
}

/// Answers `resolve FORM SEGMENT WORD BYTES`.
pub(crate) fn resolve_answer(alloc: Global, heap: &Heap, words: &[&str]) -> Result<String> {
    let form = form_at(words, 1)?;
    let segment = number_at(words, 2)?;
    let word = number_at(words, 3)?;
    let at = Place { segment, word };
    let bytes = bytes_at(alloc, words, 4)?;
    match form {
        Form::Bare => resolve_in_bare(alloc, bytes.as_slice(), at),
        Form::Stream => resolve_in_frame(alloc, heap, bytes.as_slice(), at),
        Form::Packed => Err(anyhow!("no message is resolved in packed bytes")),
    }
}
