//! The choice of the slot of an object at which a descent to a word continues.

ghost use Rattle.std.specs.Prelude.{◌≡◌, ◌+◌, ◌*◌, ◌<◌, ◌≤◌, IfSome, length};
ghost use Rattle.capn_words.specs.Message.{IsPlace};
ghost use Rattle.capn_target.specs.Shapes.{IsContent, RowsFit, extent};
ghost use Rattle.capn_mismatch.specs.inner.Reached.{AreWithin, place_in, rows_of};

use crate::slot_rows::{SlotRows, slot_rows};
use capn_target::{Shape, Target, content_words, resolve};
use capn_words::{Place, Space};

/// A slot of an object at which a descent continues.
#[derive(Clone, Copy)]
pub struct Step {
    /// The number of the slot's row.
    pub row: u32,
    /// The number of the slot in the row.
    pub slot: u32,
    /// The place of the slot.
    pub at: Place,
}

/// Returns the likely slot of the object of `shape` at `start`: `word` is probably at that slot or below it. Returns
/// `None` if no slot is likely.
///
/// If one of the object's slots is at `word`, that slot is the likely slot. If `word` lies after the object, a binary
/// search looks for the last slot whose target begins at or before `word`. In canonical bytes, the word then lies below
/// that slot. The contract doesn't promise this, since the caller tests each slot.
pub fn likely_step<S: Space>(space: &S, start: Place, shape: Shape, word: Place) -> Option<Step>
    requires content { IsContent (S.message space.now) start (extent shape) }
    requires rows { RowsFit shape }
    ensures row { IfSome result (λ step. step.row < (rows_of start shape).count) }
    ensures slot { IfSome result (λ step. step.slot < (rows_of start shape).slots) }
    ensures at { IfSome result (λ step. step.at ≡ place_in (rows_of start shape) step.row step.slot) }
    ensures place { IfSome result (λ step. IsPlace (S.message space.now) step.at) }
{
    let _bounds = space.segments();
    step_among(space, slot_rows(start, shape), word)
}

/// Returns the likely slot for `word` among the `rows` of an object.
fn step_among<S: Space>(space: &S, rows: SlotRows, word: Place) -> Option<Step>
    requires within { AreWithin (S.message space.now) rows }
    ensures row { IfSome result (λ step. step.row < rows.count) }
    ensures slot { IfSome result (λ step. step.slot < rows.slots) }
    ensures at { IfSome result (λ step. step.at ≡ place_in rows step.row step.slot) }
    ensures place { IfSome result (λ step. IsPlace (S.message space.now) step.at) }
{
    let _bounds = space.segments();
    let Some((row, slot)) = likely_slot(space, rows, word) else {
        return None;
    };
    let at = rows.place(row, slot);
    Some(Step { row, slot, at })
}

/// Returns the row of the likely slot for `word`, and the number of the slot in the row.
fn likely_slot<S: Space>(space: &S, rows: SlotRows, word: Place) -> Option<(u32, u32)>
    requires within { AreWithin (S.message space.now) rows }
    ensures { IfSome result (λ x. (x.0 < rows.count) × (x.1 < rows.slots)) }
{
    let _bounds = space.segments();
    if rows.count == 0 || rows.slots == 0 || word.word < rows.at.word {
        return None;
    }
    let before = word.word - rows.at.word;
    let size = rows.words + rows.slots;
    if before < rows.count * size {
        let in_row = before % size;
        if in_row < rows.words {
            return None;
        }
        return Some((before / size, in_row - rows.words));
    }
    let Some(number) = last_before(space, rows, word) else {
        return None;
    };
    Some((number / rows.slots, number % rows.slots))
}

/// Returns the number of the last slot whose object begins at or before `word`. The objects are assumed to begin in the
/// sequence of their slots.
fn last_before<S: Space>(space: &S, rows: SlotRows, word: Place) -> Option<u32>
    requires within { AreWithin (S.message space.now) rows }
    requires some { 0 < rows.slots }
    ensures { IfSome result (λ number. number < rows.count * rows.slots) }
{
    let _bounds = space.segments();
    let mut low = 0;
    let mut high = rows.count * rows.slots;
    while low < high {
        let middle = low + (high - low) / 2;
        match next_start(space, rows, middle, high) {
            Some((number, start)) => {
                if start <= word.word {
                    low = number + 1;
                } else {
                    high = middle;
                }
            }
            None => high = middle,
        }
    }
    low.checked_sub(1)
}

/// Finds the first slot, from number `from` up to but not including `to`, whose object has any words. Returns the
/// number of that slot, and the word at which the slot's object begins.
fn next_start<S: Space>(space: &S, rows: SlotRows, from: u32, to: u32) -> Option<(u32, u32)>
    requires within { AreWithin (S.message space.now) rows }
    requires some { 0 < rows.slots }
    requires to { to ≤ rows.count * rows.slots }
    ensures { IfSome result (λ x. (from ≤ x.0) × (x.0 < to)) }
{
    let _bounds = space.segments();
    for number in from..to {
        let at = rows.place(number / rows.slots, number % rows.slots);
        match start_at(space, at) {
            Some(start) => return Some((number, start)),
            None => {}
        }
    }
    None
}

/// Returns the word at which the object of the slot at `at` begins, if the object has words.
fn start_at<S: Space>(space: &S, at: Place) -> Option<u32>
    requires place { IsPlace (S.message space.now) at }
{
    match resolve(space, at) {
        Ok(target) => match target {
            Target::Nil => None,
            Target::Cap(_) => None,
            Target::Content {
                segment: _,
                start,
                shape,
                pads: _,
            } => {
                if has_words(shape) {
                    return Some(start);
                }
                None
            }
        },
        Err(_) => None,
    }
}

/// Tests whether an object of `shape` has any words.
fn has_words(shape: Shape) -> bool {
    match shape {
        Shape::Node { words, slots } => words > 0 || slots > 0,
        Shape::Many { width, count } => content_words(width, count) > 0,
        Shape::Rows { .. } => true,
    }
}
