//! The answers for calls of packing: `pack`, `unpack` and `tag`.

use crate::refusals::told;
use anyhow::{Result, anyhow};
use capn_pack::{PackFault, pack, tag, unpack};
use conformance_cases::{Heap, MEMORY, bytes_at, digits_of, number_at};
use std::alloc::Global;

pub(crate) fn pack_answer(alloc: Global, heap: &Heap, words: &[&str]) -> Result<String> {
    let bytes = bytes_at(alloc, words, 1)?;
    match pack(heap, bytes.as_slice()) {
        Ok(text) => digits_of(alloc, text.as_slice()),
        Err(PackFault::Memory) => Ok(String::from_str(alloc, MEMORY)?),
        Err(PackFault::NotWhole(length)) => Ok(format!(in alloc; "NotWhole({length})")?),
    }
}

/// Answers `unpack MOST_WORDS BYTES`.
pub(crate) fn unpack_answer(alloc: Global, heap: &Heap, words: &[&str]) -> Result<String> {
    let most = number_at(words, 1)?;
    let text = bytes_at(alloc, words, 2)?;
    match unpack(heap, text.as_slice(), most) {
        Ok(bytes) => digits_of(alloc, bytes.as_slice()),
        Err(fault) => told(alloc, fault),
    }
}

/// Answers `tag BYTES`, where the bytes are a word.
pub(crate) fn tag_answer(alloc: Global, words: &[&str]) -> Result<String> {
    let bytes = bytes_at(alloc, words, 1)?;
    if bytes.len() != 8 {
        return Err(anyhow!("a word has eight bytes"));
    }
    let mut word = [0u8; 8];
    word.copy_from_slice(bytes.as_slice());
    let tag = tag(&word);
    Ok(format!(in alloc; "{tag}")?)
}
