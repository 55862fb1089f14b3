//! The words of each object that canonical bytes leave out of it.

ghost use Rattle.std.specs.Prelude.{◌≡◌, ◌<◌, ◌+◌, ◌*◌, ◌^◌, length, Some};
ghost use Rattle.capn_words.specs.Message.{IsMessage, IsPlace, total};
ghost use Rattle.capn_target.specs.Shapes.{IsContent};
ghost use Rattle.capn_layout.specs.RowWords as row_words;
ghost use Rattle.capn_cover.specs.Numbers.{CountsBefore, number, place_from};
ghost use Rattle.capn_cover.specs.Cuts.{is_behind};
ghost use Rattle.capn_cover.specs.inner.Marked as spec;
ghost use Rattle.capn_cover.specs.inner.Marked.{AreMarked, AreMarkedOf, AreMarkedRows, AreUnmarked, AreUnmarkedOf};

use crate::covered::{Covered, Role};
use crate::kept::kept_each;
use crate::starts::{number_of, place_of};
use capn_walk::{Shape, Target, resolve};
use capn_words::{Place, Space};

/// Tests whether word `i` of a row, in the given `role`, lies behind the words and slots that are kept of the row. The
/// row has `words` data words, of which `kept` are kept, and then slots, of which `kept_slots` are.
#[inline(always)]
fn is_behind(role: Role, words: u16, kept: u32, kept_slots: u32, i: u32) -> bool
    requires { words + kept_slots < 2 ^ 32 }
    ensures { result ≡ is_behind words kept kept_slots role i }
{
    match role {
        Role::Data => i >= kept,
        Role::Slot => i >= words as u32 + kept_slots,
        Role::Root => false,
        Role::Pad => false,
        Role::Tag => false,
        Role::Numbers => false,
        Role::Slack => false,
        Role::Unreached => false,
    }
}

/// Returns the word `cell` at index `i` of a row, with the mark whether it lies behind what is kept of the row, if it
/// belongs to the visit of the slot with the number `slot`. The row has `words` data words, of which `kept` are kept,
/// and then slots, of which `kept_slots` are.
#[inline(always)]
fn marked_in(cell: Covered, slot: u32, words: u16, kept: u32, kept_slots: u32, i: u32) -> Covered
    requires { words + kept_slots < 2 ^ 32 }
    ensures { result ≡ spec.marked_in slot words kept kept_slots i cell }
{
    if cell.slot == slot {
        Covered {
            cut: is_behind(cell.role, words, kept, kept_slots, i),
            ..cell
        }
    } else {
        cell
    }
}

/// Marks the words of `count` rows that canonical bytes leave out of each row, if they belong to the visit of the slot
/// with the number `slot`. The rows begin at `start`, and each has `words` data words and then `slots` slots. Element
/// `s` of `before` is the number of words before segment `s`.
fn cut_rows<S: Space>(
    space: &S,
    before: &[u32],
    cells: &mut [Covered],
    start: Place,
    count: u32,
    words: u16,
    slots: u16,
    slot: u32,
)
    requires message { IsMessage (S.message space.now) }
    requires counts { CountsBefore (S.message space.now) before.now }
    requires each { length cells.old ≡ total (S.message space.now) }
    requires content { IsContent (S.message space.now) start (count * (words + slots)) }
    ensures { AreMarkedRows slot words
        (row_words.kept_each (S.message space.now) start.segment start.word words (words + slots) count)
        (row_words.kept_each (S.message space.now) start.segment (start.word + words) slots (words + slots) count)
        (words + slots) (number (S.message space.now) start) (count * (words + slots)) cells.old cells.new }
{
    let first = number_of(space, before, start.segment, start.word);
    let step = words as u32 + slots as u32;
    let kept = kept_each(space, start, count, step, 0, words as u32);
    let kept_slots = kept_each(space, start, count, step, words as u32, slots as u32);
    for i in 0..count * step {
        let word = (first + i) as usize;
        cells[word] = marked_in(cells[word], slot, words, kept, kept_slots, i % step);
    }
}

/// Marks the words that canonical bytes leave out of the object to which the slot at `at` leads, if they belong to the
/// visit of this slot, which has the number `slot`. Element `s` of `before` is the number of words before segment `s`.
fn cut_object<S: Space>(space: &S, before: &[u32], cells: &mut [Covered], at: Place, slot: u32)
    requires message { IsMessage (S.message space.now) }
    requires counts { CountsBefore (S.message space.now) before.now }
    requires each { length cells.old ≡ total (S.message space.now) }
    requires place { IsPlace (S.message space.now) at }
    requires slot { place_from 0 (S.message space.now) slot ≡ Some at }
    requires fresh { AreUnmarkedOf slot cells.old }
    ensures { AreMarkedOf (S.message space.now) slot cells.old cells.new }
{
    match resolve(space, at) {
        Ok(target) => match target {
            Target::Content {
                segment,
                start,
                shape,
                pads: _,
            } => match shape {
                Shape::Node { words, slots } => {
                    let first = Place {
                        segment,
                        word: start,
                    };
                    cut_rows(space, before, cells, first, 1, words, slots, slot);
                }
                Shape::Many { width: _, count: _ } => {}
                Shape::Rows {
                    count,
                    words,
                    slots,
                    span: _,
                } => {
                    let first = Place {
                        segment,
                        word: start + 1,
                    };
                    cut_rows(space, before, cells, first, count, words, slots, slot);
                }
            },
            Target::Nil => {}
            Target::Cap(_) => {}
        },
        Err(_) => {}
    }
}

/// Marks each word that canonical bytes leave out of the object to which it belongs. Element `s` of `before` is the
/// number of words before segment `s`.
///
/// The work is one step for each word, and for each slot a few steps for each word of its object. The walk visits each
/// of these slots at least once, and pays the words of its object.
pub fn cut_words<S: Space>(space: &S, before: &[u32], cells: &mut [Covered])
    requires message { IsMessage (S.message space.now) }
    requires counts { CountsBefore (S.message space.now) before.now }
    requires each { length cells.old ≡ total (S.message space.now) }
    requires fresh { AreUnmarked cells.old }
    ensures { AreMarked (S.message space.now) cells.old cells.new }
{
    for number in 0..cells.len() as u32 {
        if cells[number as usize].is_followed {
            if let Some(at) = place_of(space, before, number) {
                cut_object(space, before, cells, at, number);
            }
        }
    }
}
