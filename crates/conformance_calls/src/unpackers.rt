//! The answers for calls on packed bytes that are fed in chunks.

use crate::refusals::told;
use anyhow::{Result, anyhow, bail};
use capn_pack::{UnpackFault, Unpacker};
use conformance_cases::{Heap, MEMORY, bytes_at, cut_short, digits_of, push_told, word_at};
use std::alloc::Global;

/// Checks that `feed` and `finish` of an unpacker fail after an allocation was refused.
fn unpacker_has_to_fail(unpacker: &mut Unpacker, alloc: Global) -> Result<()> {
    let mut unpacked = Vec::new(alloc);
    match (unpacker.feed(&[0, 0], &mut unpacked), unpacker.finish()) {
        (Err(UnpackFault::Failed), Err(UnpackFault::Failed)) if unpacked.is_empty() => Ok(()),
        _ => Err(anyhow!("an unpacker goes on without memory")),
    }
}

/// Returns the answer of an unpacker that is fed `piece`.
fn fed_text(unpacker: &mut Unpacker, alloc: Global, heap: &Heap, piece: &[u8]) -> Result<String> {
    let mut unpacked = Vec::new(heap);
    match unpacker.feed(piece, &mut unpacked) {
        Ok(()) => digits_of(alloc, unpacked.as_slice()),
        Err(UnpackFault::Memory) => cut_short(alloc, unpacked.as_slice()),
        Err(fault) => told(alloc, fault),
    }
}

/// Lets `unpacker` do the step that word `at` of the line names, and returns the answer. The next word holds the bytes
/// to feed.
fn unpacker_text(
    unpacker: &mut Unpacker,
    alloc: Global,
    heap: &Heap,
    words: &[&str],
    at: usize,
) -> Result<String> {
    match word_at(words, at)? {
        "feed" => {
            let piece = bytes_at(alloc, words, at.saturating_add(1))?;
            fed_text(unpacker, alloc, heap, piece.as_slice())
        }
        "finish" => match unpacker.finish() {
            Ok(()) => Ok(String::from_str(alloc, "Ok")?),
            Err(fault) => told(alloc, fault),
        },
        step => bail!("no step {step:?}"),
    }
}

/// Does the step at word `at` and appends its answer to `text`. Returns whether an allocation was refused.
fn unpacker_step(
    unpacker: &mut Unpacker,
    alloc: Global,
    heap: &Heap,
    words: &[&str],
    at: usize,
    text: &mut String,
) -> Result<bool> {
    let told = unpacker_text(unpacker, alloc, heap, words, at)?;
    push_told(text, told.as_str())?;
    Ok(told.as_str().ends_with(MEMORY))
}

/// Answers `unpacker STEP ..`, where each step is `feed BYTES` or `finish`.
pub(crate) fn unpacker_answer(alloc: Global, heap: &Heap, words: &[&str]) -> Result<String> {
    let mut unpacker = Unpacker::new();
    let mut text = String::new(alloc);
    let mut is_piece = false;
    for at in 1..words.len() {
        if is_piece {
            is_piece = false;
            continue;
        }
        if unpacker_step(&mut unpacker, alloc, heap, words, at, &mut text)? {
            unpacker_has_to_fail(&mut unpacker, alloc)?;
            break;
        }
        is_piece = word_at(words, at)? == "feed";
    }
    Ok(text)
}
