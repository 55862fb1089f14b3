//! Shapes of small structs.

use crate::shapes::draft::{Draft, Segments};
use crate::shapes::random::Content;
use crate::shapes::slot::Slot;
use std::alloc::{AllocError, Global};

/// Appends 10 to 50 structs, each in the last slot of the one above.
fn nest(draft: &mut Draft, slot: Slot) -> Result<(), AllocError> {
    let height = 10 + draft.below(41);
    let mut slot = slot;
    for _ in 0..height {
        let words = 1 + draft.below(2);
        let before = draft.below(2);
        let first = draft.node(slot, Content::Numbers, words, before + 1)?;
        slot = first.after(before);
    }
    Ok(())
}

/// Returns a message of small structs that are nested 10 to 50 deep.
pub(crate) fn deep(alloc: Global, bytes: u32) -> Result<Vec<u8>, AllocError> {
    let mut draft = Draft::new(alloc, Segments::One)?;
    let (first, count) = draft.groups(bytes, 91)?;
    for i in 0..count {
        nest(&mut draft, first.after(i))?;
    }
    draft.into_frame(alloc)
}

/// Appends a struct with two texts of 1 to 200 bytes.
fn pair(draft: &mut Draft, slot: Slot) -> Result<(), AllocError> {
    let first = draft.node(slot, Content::Numbers, 1, 2)?;
    let len = 1 + draft.below(200);
    draft.bytes(first, Content::Letters, len)?;
    let len = 1 + draft.below(200);
    draft.bytes(first.after(1), Content::Letters, len)
}

/// Returns a message of structs with two texts each.
pub(crate) fn texts(alloc: Global, bytes: u32) -> Result<Vec<u8>, AllocError> {
    let mut draft = Draft::new(alloc, Segments::One)?;
    let (first, count) = draft.groups(bytes, 30)?;
    for i in 0..count {
        pair(&mut draft, first.after(i))?;
    }
    draft.into_frame(alloc)
}
