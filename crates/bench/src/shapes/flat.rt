//! Shapes with few pointers.

use crate::shapes::draft::{Draft, Segments};
use crate::shapes::random::Content;
use crate::shapes::slot::Slot;
use std::alloc::{AllocError, Global};

/// Returns a message of structs of 16 to 128 data words.
pub(crate) fn wide(alloc: Global, bytes: u32) -> Result<Vec<u8>, AllocError> {
    let mut draft = Draft::new(alloc, Segments::One)?;
    let (first, count) = draft.groups(bytes, 73)?;
    for i in 0..count {
        let words = 16 + draft.below(113);
        draft.node(first.after(i), Content::Numbers, words, 0)?;
    }
    draft.into_frame(alloc)
}

/// Returns a message of one list of 64-bit numbers.
pub(crate) fn numbers(alloc: Global, bytes: u32) -> Result<Vec<u8>, AllocError> {
    let mut draft = Draft::new(alloc, Segments::One)?;
    let slot = draft.node(Slot::ROOT, Content::Zeros, 0, 1)?;
    draft.numbers(slot, Content::Noise, (bytes / 8).saturating_sub(3))?;
    draft.into_frame(alloc)
}

/// Returns a message of one list of random bytes.
pub(crate) fn noise(alloc: Global, bytes: u32) -> Result<Vec<u8>, AllocError> {
    let mut draft = Draft::new(alloc, Segments::One)?;
    let slot = draft.node(Slot::ROOT, Content::Zeros, 0, 1)?;
    draft.bytes(slot, Content::Noise, bytes.saturating_sub(24))?;
    draft.into_frame(alloc)
}

/// Appends a struct whose data words are mostly zero, or a list of zeros.
fn sparse(draft: &mut Draft, slot: Slot) -> Result<(), AllocError> {
    let words = 8 + draft.below(57);
    match draft.below(4) {
        0 => draft.numbers(slot, Content::Zeros, words),
        1 => draft.bytes(slot, Content::Zeros, 8 * words - 3),
        _ => {
            draft.node(slot, Content::Sparse, words, 0)?;
            Ok(())
        }
    }
}

/// Returns a message of structs and lists of 8 to 64 words that are mostly zero.
pub(crate) fn zeros(alloc: Global, bytes: u32) -> Result<Vec<u8>, AllocError> {
    let mut draft = Draft::new(alloc, Segments::One)?;
    let (first, count) = draft.groups(bytes, 37)?;
    for i in 0..count {
        sparse(&mut draft, first.after(i))?;
    }
    draft.into_frame(alloc)
}
