//! The answers for calls on frames: `first` and `frame`.

ghost use Rattle.std.specs.Prelude.{◌≤◌, IfOk};
ghost use Rattle.capn_words.specs.Message.{most_message_words};

use crate::refusals::told;
use anyhow::{Result, anyhow};
use capn_stream::{first, frame};
use capn_words::{MOST_MESSAGE_WORDS, Place, Space};
use conformance_cases::{Heap, MEMORY, bytes_at, digits_of, number_at};
use std::alloc::Global;

/// Reads the limit on message words at word `at` of the line `words`.
pub(crate) fn limit_at(words: &[&str], at: usize) -> Result<u32>
    ensures { IfOk result (λ limit. limit ≤ most_message_words) }
{
    let limit = number_at(words, at)?;
    if limit > MOST_MESSAGE_WORDS {
        return Err(anyhow!("a limit above 2^28"));
    }
    Ok(limit)
}

/// Returns the bytes of each segment as `digits_of` writes them, with a space before each segment.
pub(crate) fn segments_text<S: Space>(alloc: Global, space: &S) -> Result<String> {
    let mut text = String::new(alloc);
    for segment in 0..space.segments() {
        let Some(words) = space.words(segment) else {
            return Err(anyhow!("no segment {segment}"));
        };
        let start = Place { segment, word: 0 };
        let digits = digits_of(alloc, space.bytes(start, words as usize * 8))?;
        text.push_str(" ")?;
        text.push_str(digits.as_str())?;
    }
    Ok(text)
}

/// Returns the line of a message that takes `taken` bytes.
fn taken_text<S: Space>(alloc: Global, message: &S, taken: usize) -> Result<String> {
    let segments = segments_text(alloc, message)?;
    Ok(format!(in alloc; "taken {taken}:{segments}")?)
}

pub(crate) fn first_answer(alloc: Global, heap: &Heap, words: &[&str]) -> Result<String> {
    let limit = limit_at(words, 1)?;
    let bytes = bytes_at(alloc, words, 2)?;
    match first(heap, bytes.as_slice(), limit) {
        Ok((message, taken)) => taken_text(alloc, &message, taken),
        Err(fault) => told(alloc, fault),
    }
}

/// Returns the frame of a message, in hexadecimal.
fn frame_text<S: Space>(alloc: Global, heap: &Heap, message: &S) -> Result<String> {
    match frame(heap, message) {
        Ok(framed) => digits_of(alloc, framed.as_slice()),
        Err(_) => Ok(String::from_str(alloc, MEMORY)?),
    }
}

/// Answers `frame BYTES` by the frame of the first message in the bytes.
pub(crate) fn frame_answer(alloc: Global, heap: &Heap, words: &[&str]) -> Result<String> {
    let bytes = bytes_at(alloc, words, 1)?;
    match first(heap, bytes.as_slice(), MOST_MESSAGE_WORDS) {
        Ok((message, _)) => frame_text(alloc, heap, &message),
        Err(fault) => told(alloc, fault),
    }
}
