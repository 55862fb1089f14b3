//! Shapes that mix structs, lists and texts.

use crate::shapes::draft::{Draft, Segments};
use crate::shapes::random::Content;
use crate::shapes::slot::Slot;
use std::alloc::{AllocError, Global};

/// Appends a text, a small struct or a list of numbers for `slot`, or leaves `slot` null.
fn field(draft: &mut Draft, slot: Slot) -> Result<(), AllocError> {
    match draft.below(4) {
        0 => Ok(()),
        1 => {
            let len = draft.below(41);
            draft.bytes(slot, Content::Letters, len)
        }
        2 => {
            let words = draft.below(4);
            draft.node(slot, Content::Fields, words, 0)?;
            Ok(())
        }
        _ => {
            let pairs = draft.below(9);
            draft.pairs(slot, Content::Noise, pairs)
        }
    }
}

/// Appends a struct, and fills each of its slots with `field`.
fn record(draft: &mut Draft, slot: Slot) -> Result<(), AllocError> {
    let words = draft.below(9);
    let slots = draft.below(5);
    let first = draft.node(slot, Content::Fields, words, slots)?;
    for i in 0..slots {
        field(draft, first.after(i))?;
    }
    Ok(())
}

/// Appends texts for most of the `slots` slots from `first` on.
fn texts(draft: &mut Draft, first: Slot, slots: u32) -> Result<(), AllocError> {
    for i in 0..slots {
        if draft.below(10) < 7 {
            let len = 1 + draft.below(30);
            draft.bytes(first.after(i), Content::Letters, len)?;
        }
    }
    Ok(())
}

/// Appends a list of structs with texts in their slots.
fn table(draft: &mut Draft, slot: Slot) -> Result<(), AllocError> {
    let count = draft.below(9);
    let words = draft.below(4);
    let slots = draft.below(3);
    let mut row = draft.rows(slot, Content::Fields, count, words, slots)?;
    for _ in 0..count {
        let first = row.after(words);
        texts(draft, first, slots)?;
        row = first.after(slots);
    }
    Ok(())
}

/// Appends a list of pointers, most of them to structs with a null slot.
fn list(draft: &mut Draft, slot: Slot) -> Result<(), AllocError> {
    let count = 1 + draft.below(8);
    let first = draft.pointers(slot, count)?;
    for i in 0..count {
        if draft.below(10) < 7 {
            draft.node(first.after(i), Content::Fields, 2, 1)?;
        }
    }
    Ok(())
}

/// Appends a record, a table, a list or a long text for `slot`, or leaves `slot` null.
fn group(draft: &mut Draft, slot: Slot) -> Result<(), AllocError> {
    match draft.below(8) {
        0 | 1 | 2 => record(draft, slot),
        3 | 4 => table(draft, slot),
        5 => {
            let len = 1 + draft.below(200);
            draft.bytes(slot, Content::Letters, len)
        }
        6 => list(draft, slot),
        _ => Ok(()),
    }
}

/// Returns a message of groups of all kinds, in one segment.
pub(crate) fn mixed(alloc: Global, bytes: u32) -> Result<Vec<u8>, AllocError> {
    let mut draft = Draft::new(alloc, Segments::One)?;
    let (first, count) = draft.groups(bytes, 12)?;
    for i in 0..count {
        group(&mut draft, first.after(i))?;
    }
    draft.into_frame(alloc)
}

/// Returns a message of groups of all kinds, in about 400 segments. If the message is small, its segments have about 16
/// words.
pub(crate) fn segments(alloc: Global, bytes: u32) -> Result<Vec<u8>, AllocError> {
    let most = (bytes / 8 / 400).max(16) as usize;
    let mut draft = Draft::new(alloc, Segments::Scattered(most))?;
    let (first, count) = draft.groups(bytes, 14)?;
    for i in 0..count {
        group(&mut draft, first.after(i))?;
    }
    draft.into_frame(alloc)
}

/// Returns a message of lists of structs with texts and lists of pointers to structs. Its segments, about 64 or fewer,
/// are filled one after the other. Three of four objects are in the segment of their pointer.
pub(crate) fn builder(alloc: Global, bytes: u32) -> Result<Vec<u8>, AllocError> {
    let most = (bytes / 8 / 64).max(16) as usize;
    let mut draft = Draft::new(alloc, Segments::Filled(most))?;
    let (first, count) = draft.groups(bytes, 18)?;
    for i in 0..count {
        if draft.below(3) == 0 {
            list(&mut draft, first.after(i))?;
        } else {
            table(&mut draft, first.after(i))?;
        }
    }
    draft.into_frame(alloc)
}
