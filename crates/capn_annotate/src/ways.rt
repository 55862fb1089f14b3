//! The way of a line: the numbers that lead from the root to it.

ghost use Rattle.std.specs.Prelude.{◌≡◌, ◌≤◌, ◌<◌, ◌++◌, IfOk, OnOk, length, slice_index_or};
ghost use Rattle.capn_words.specs.Message.{IsMessage, segment_at};
ghost use Rattle.capn_cover.specs.Covers.{unreached};
ghost use Rattle.capn_cover.specs.Numbers.{CountsBefore};
ghost use Rattle.capn_annotate.specs.Leads as leads;
ghost use Rattle.capn_annotate.specs.Ways as spec;

use crate::lead::leads_to;
use capn_cover::{Covered, number_of};
use capn_lines::{Kind, Line};
use capn_walk::{Shape, Target};
use capn_words::Space;
use std::alloc::{AllocError, Allocator};

/// Returns what the visits make of the word with the number `number`.
fn covered_at(words: &[Covered], number: u32) -> Covered
    ensures { result ≡ slice_index_or words.now number unreached }
{
    match words.get(number as usize) {
        Some(covered) => *covered,
        None => Covered::unreached(),
    }
}

/// Appends to `path` the row and the slot of the word that has `behind` words of rows before it. Each row has `words`
/// words and `slots` slots.
fn push_row_and_slot<A: Allocator>(
    path: &mut Vec<u32, A>,
    words: u16,
    slots: u16,
    behind: u32,
) -> Result<(), AllocError>
    ensures { OnOk result (path.new.items ≡ path.old.items ++ spec.row_and_slot words slots behind) }
{
    let size = words as u32 + slots as u32;
    if size == 0 {
        return Ok(());
    }
    path.push(behind / size)?;
    Ok(path.push((behind % size).saturating_sub(words as u32))?)
}

/// Appends to `path` the row of the word that has `behind` words of rows before it. Each row has `words` words and
/// `slots` slots.
fn push_row_alone<A: Allocator>(
    path: &mut Vec<u32, A>,
    words: u16,
    slots: u16,
    behind: u32,
) -> Result<(), AllocError>
    ensures { OnOk result (path.new.items ≡ path.old.items ++ spec.row_alone words slots behind) }
{
    let size = words as u32 + slots as u32;
    if size == 0 {
        return Ok(());
    }
    Ok(path.push(behind / size)?)
}

/// Appends to `path` the numbers that lead from the object of the slot with the number `holder` to the slot with the
/// number `slot` in it.
fn push_slot<S: Space, A: Allocator>(
    path: &mut Vec<u32, A>,
    space: &S,
    before: &[u32],
    holder: u32,
    slot: u32,
) -> Result<(), AllocError>
    requires message { IsMessage (S.message space.now) }
    requires counts { CountsBefore (S.message space.now) before.now }
    ensures { OnOk result (path.new.items ≡ path.old.items
        ++ spec.slot_in (S.message space.now) (leads.leads_to (S.message space.now) holder) slot) }
{
    match leads_to(space, before, holder) {
        Target::Content {
            segment,
            start,
            shape,
            pads: _,
        } => {
            let behind = slot.saturating_sub(number_of(space, before, segment, start));
            match shape {
                Shape::Node { words, slots: _ } => Ok(path.push(behind.saturating_sub(
                    words as u32,
                ))?),
                Shape::Many { width: _, count: _ } => Ok(path.push(behind)?),
                Shape::Rows {
                    count: _,
                    words,
                    slots,
                    span: _,
                } => push_row_and_slot(path, words, slots, behind.saturating_sub(1)),
            }
        }
        _ => Ok(()),
    }
}

/// Appends to `path` the number of the row that has the data word with the number `word`, if the object of the slot
/// with the number `holder` is a list of structs.
fn push_row<S: Space, A: Allocator>(
    path: &mut Vec<u32, A>,
    space: &S,
    before: &[u32],
    holder: u32,
    word: u32,
) -> Result<(), AllocError>
    requires message { IsMessage (S.message space.now) }
    requires counts { CountsBefore (S.message space.now) before.now }
    ensures { OnOk result (path.new.items ≡ path.old.items
        ++ spec.row_in (S.message space.now) (leads.leads_to (S.message space.now) holder) word) }
{
    match leads_to(space, before, holder) {
        Target::Content {
            segment,
            start,
            shape,
            pads: _,
        } => {
            let behind = word.saturating_sub(number_of(space, before, segment, start));
            match shape {
                Shape::Rows {
                    count: _,
                    words,
                    slots,
                    span: _,
                } => push_row_alone(path, words, slots, behind.saturating_sub(1)),
                _ => Ok(()),
            }
        }
        _ => Ok(()),
    }
}

/// Appends to `path` the way of the slot with the number `slot`, which is at most `levels` objects deep. `words` has
/// what the visits make of each word of the message.
fn climb<S: Space, A: Allocator>(
    path: &mut Vec<u32, A>,
    space: &S,
    before: &[u32],
    words: &[Covered],
    levels: u32,
    slot: u32,
) -> Result<(), AllocError>
    requires message { IsMessage (S.message space.now) }
    requires counts { CountsBefore (S.message space.now) before.now }
    ensures { OnOk result (path.new.items ≡ path.old.items
        ++ spec.way (S.message space.now) words.now levels slot) }
{
    if levels == 0 || slot == 0 {
        return Ok(());
    }
    let holder = covered_at(words, slot).holder;
    climb(path, space, before, words, levels - 1, holder)?;
    push_slot(path, space, before, holder, slot)
}

/// Appends to `path` the numbers that lead from the object of a line's slot to the first word of the line, which has
/// the number `number`.
fn push_last<S: Space, A: Allocator>(
    path: &mut Vec<u32, A>,
    space: &S,
    before: &[u32],
    kind: Kind,
    slot: u32,
    number: u32,
) -> Result<(), AllocError>
    requires message { IsMessage (S.message space.now) }
    requires counts { CountsBefore (S.message space.now) before.now }
    ensures { OnOk result (path.new.items ≡ path.old.items
        ++ spec.last_step (S.message space.now) kind slot number) }
{
    match kind {
        Kind::Pointer | Kind::Null => {
            if number == 0 {
                Ok(())
            } else {
                push_slot(path, space, before, slot, number)
            }
        }
        Kind::Data => push_row(path, space, before, slot, number),
        _ => Ok(()),
    }
}

/// Returns the way of the first word of `line`. No slot is more than `levels` objects deep. `words` has what the visits
/// make of each word of the message, and element `s` of `before` is the number of words before segment `s`.
pub fn way_of<S: Space, A: Allocator>(
    alloc: A,
    space: &S,
    before: &[u32],
    words: &[Covered],
    levels: u32,
    line: &Line,
) -> Result<Vec<u32, A>, AllocError>
    requires message { IsMessage (S.message space.now) }
    requires counts { CountsBefore (S.message space.now) before.now }
    requires exists { line.now.place.segment < length (S.message space.now) }
    requires within { line.now.place.word ≤ length (segment_at (S.message space.now) line.now.place.segment) }
    ensures { IfOk result (λ path. path.items ≡ spec.way_of (S.message space.now) words.now levels line.now) }
{
    let number = number_of(space, before, line.place.segment, line.place.word);
    let mut path = Vec::new(alloc);
    climb(&mut path, space, before, words, levels, line.slot)?;
    push_last(&mut path, space, before, line.kind, line.slot, number)?;
    Ok(path)
}
