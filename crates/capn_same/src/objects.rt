//! The comparison of the values of two messages, object by object, in preorder.

ghost use Rattle.std.specs.Prelude.{◌↔◌, ℕ, ◌+◌, ◌*◌, ◌≤◌, List, IsTrue};
ghost use Rattle.capn_value.specs.Tree.{Tree, Trees, Bodies, row_words};
ghost use Rattle.capn_value.specs.Same.{Same, SameWords, SameSlots, SameRows};
ghost use Rattle.capn_walk.specs.ValueAt.{IsInside};
ghost use Rattle.capn_layout.specs.MessageSlots.{HasSlot};
ghost use Rattle.capn_layout.specs.Weight.{weight, weights, weights_in_rows};
ghost use Rattle.capn_same.specs.inner.Held.{HasValue, AreIn, HasValues, IsRow, HasRow, AreRowsIn, HasRows, HasContent};

use crate::numbers::are_same_bits;
use crate::run::{Rows, Run, behind, data_of, slots_of};
use crate::words::{are_same, are_zero};
use capn_layout::{bits_of, target_at};
use capn_target::counted::{CountedSpace, Reads};
use capn_target::place;
use capn_walk::{Shape, Target};
use capn_words::{Place, Space, Width};
use std::sync::ledger::Ledger;

/// Tests whether the value in the slot of `a` at `at` is the same as the value in the slot of `b` at `beside`. Both
/// values are at most `depth` objects deep.
#[cycle(sameness)]
#[inline(always)]
pub fn is_same_slot<S: Space, T: Space, L: Ledger, M: Ledger>(
    a: &CountedSpace<'_, S, L>,
    at: Place,
    b: &CountedSpace<'_, T, M>,
    beside: Place,
    depth: u32,
    first: &mut Reads<L>,
    second: &mut Reads<M>,
) -> bool
    requires one { HasValue a.now at depth }
    requires two { HasValue b.now beside depth }
    ensures same { (v w : Tree) → HasSlot a.now at.segment at.word v → HasSlot b.now beside.segment beside.word w
        → IsTrue result ↔ Same v w }
    ensures first { (v : Tree) → HasSlot a.now at.segment at.word v → first.new ≤ first.old + 9 + 20 * weight v }
    ensures second { (w : Tree) → HasSlot b.now beside.segment beside.word w
        → second.new ≤ second.old + 9 + 20 * weight w }
{
    match target_at(a, at, first) {
        Target::Nil => match target_at(b, beside, second) {
            Target::Nil => true,
            _ => false,
        },
        Target::Cap(index) => match target_at(b, beside, second) {
            Target::Cap(number) => index == number,
            _ => false,
        },
        Target::Content {
            segment,
            start,
            shape,
            pads: _,
        } => match target_at(b, beside, second) {
            Target::Content {
                segment: elsewhere,
                start: begin,
                shape: form,
                pads: _,
            } => {
                let here = Place {
                    segment,
                    word: start,
                };
                let there = Place {
                    segment: elsewhere,
                    word: begin,
                };
                is_same_content(a, here, shape, b, there, form, depth, first, second)
            }
            _ => false,
        },
    }
}

/// Tests whether the content of the shape `shape` at `at` in `a` is the same as the content of the shape `form` at
/// `beside` in `b`. Both contents are at most `depth` objects deep.
#[cycle(sameness)]
#[inline(always)]
fn is_same_content<S: Space, T: Space, L: Ledger, M: Ledger>(
    a: &CountedSpace<'_, S, L>,
    at: Place,
    shape: Shape,
    b: &CountedSpace<'_, T, M>,
    beside: Place,
    form: Shape,
    depth: u32,
    first: &mut Reads<L>,
    second: &mut Reads<M>,
) -> bool
    requires one { HasContent a.now shape at depth }
    requires two { HasContent b.now form beside depth }
    ensures same { (v w : Tree) → IsInside a.now shape at.segment at.word v
        → IsInside b.now form beside.segment beside.word w → IsTrue result ↔ Same v w }
    ensures first { (v : Tree) → IsInside a.now shape at.segment at.word v → first.new ≤ first.old + 20 * weight v }
    ensures second { (w : Tree) → IsInside b.now form beside.segment beside.word w
        → second.new ≤ second.old + 20 * weight w }
{
    match shape {
        Shape::Node { words, slots } => match form {
            Shape::Node {
                words: own,
                slots: below,
            } => {
                let one = Rows {
                    start: at,
                    words: words as u32,
                    slots: slots as u32,
                };
                let two = Rows {
                    start: beside,
                    words: own as u32,
                    slots: below as u32,
                };
                is_same_row(a, one, b, two, depth - 1, first, second)
            }
            _ => false,
        },
        Shape::Many { width, count } => match form {
            Shape::Many {
                width: size,
                count: number,
            } => {
                if width != size {
                    return false;
                }
                if count != number {
                    return false;
                }
                match width {
                    Width::Link => {
                        let one = Run { start: at, count };
                        let two = Run {
                            start: beside,
                            count,
                        };
                        are_same_slots(a, one, b, two, depth - 1, first, second)
                    }
                    _ => {
                        let bits = bits_of(width) * count as u64;
                        are_same_bits(a, at, b, beside, bits, first, second)
                    }
                }
            }
            _ => false,
        },
        Shape::Rows {
            count,
            words,
            slots,
            span: _,
        } => match form {
            Shape::Rows {
                count: number,
                words: own,
                slots: below,
                span: _,
            } => {
                if count != number {
                    return false;
                }
                let one = Rows {
                    start: behind(at, 1),
                    words: words as u32,
                    slots: slots as u32,
                };
                let two = Rows {
                    start: behind(beside, 1),
                    words: own as u32,
                    slots: below as u32,
                };
                are_same_rows(a, one, b, two, count, depth - 1, first, second)
            }
            _ => false,
        },
    }
}

/// Tests whether the row `one` of `a` is the same as the row `two` of `b`, where the two rows can have different sizes.
/// The values in the slots of both rows are at most `depth` objects deep.
#[cycle(sameness)]
#[inline(always)]
fn is_same_row<S: Space, T: Space, L: Ledger, M: Ledger>(
    a: &CountedSpace<'_, S, L>,
    one: Rows,
    b: &CountedSpace<'_, T, M>,
    two: Rows,
    depth: u32,
    first: &mut Reads<L>,
    second: &mut Reads<M>,
) -> bool
    requires one { HasRow a.now one.start one.words one.slots depth }
    requires two { HasRow b.now two.start two.words two.slots depth }
    ensures same { (ws vs : List ℕ) (ss ts : Trees) → IsRow a.now one.start one.words one.slots ws ss
        → IsRow b.now two.start two.words two.slots vs ts → IsTrue result ↔ (SameWords ws vs × SameSlots ss ts) }
    ensures first { (ws : List ℕ) (ss : Trees) → IsRow a.now one.start one.words one.slots ws ss
        → first.new ≤ first.old + 2 * one.words + 12 * one.slots + 20 * weights ss }
    ensures second { (vs : List ℕ) (ts : Trees) → IsRow b.now two.start two.words two.slots vs ts
        → second.new ≤ second.old + 2 * two.words + 12 * two.slots + 20 * weights ts }
{
    if !are_same(a, data_of(one), b, data_of(two), first, second) {
        return false;
    }
    are_same_slots(a, slots_of(one), b, slots_of(two), depth, first, second)
}

/// Tests whether the values in the slots `one` of `a` are the same as the values in the slots `two` of `b`. The slots
/// that the shorter run lacks count as null. The values are at most `depth` objects deep.
#[cycle(sameness)]
#[inline(never)]
fn are_same_slots<S: Space, T: Space, L: Ledger, M: Ledger>(
    a: &CountedSpace<'_, S, L>,
    one: Run,
    b: &CountedSpace<'_, T, M>,
    two: Run,
    depth: u32,
    first: &mut Reads<L>,
    second: &mut Reads<M>,
) -> bool
    requires one { HasValues a.now one.start one.count depth }
    requires two { HasValues b.now two.start two.count depth }
    ensures same { (ss ts : Trees) → AreIn a.now one.start one.count ss → AreIn b.now two.start two.count ts
        → IsTrue result ↔ SameSlots ss ts }
    ensures first { (ss : Trees) → AreIn a.now one.start one.count ss
        → first.new ≤ first.old + 12 * one.count + 20 * weights ss }
    ensures second { (ts : Trees) → AreIn b.now two.start two.count ts
        → second.new ≤ second.old + 12 * two.count + 20 * weights ts }
{
    let shared = one.count.min(two.count);
    for i in 0..shared {
        first.tick();
        second.tick();
        let at = behind(one.start, i);
        let beside = behind(two.start, i);
        if !is_same_slot(a, at, b, beside, depth, first, second) {
            return false;
        }
    }
    if one.count == two.count {
        return true;
    }
    if !are_zero(a, behind(one.start, shared), one.count - shared, first) {
        return false;
    }
    are_zero(b, behind(two.start, shared), two.count - shared, second)
}

/// Tests whether the `count` rows of `a` from `one` on are the same as the `count` rows of `b` from `two` on, row by
/// row.
#[cycle(sameness)]
#[inline(never)]
fn are_same_rows<S: Space, T: Space, L: Ledger, M: Ledger>(
    a: &CountedSpace<'_, S, L>,
    one: Rows,
    b: &CountedSpace<'_, T, M>,
    two: Rows,
    count: u32,
    depth: u32,
    first: &mut Reads<L>,
    second: &mut Reads<M>,
) -> bool
    requires one { HasRows a.now one.start count one.words one.slots depth }
    requires two { HasRows b.now two.start count two.words two.slots depth }
    ensures same { (bs cs : Bodies) → AreRowsIn a.now one.start count one.words one.slots bs
        → AreRowsIn b.now two.start count two.words two.slots cs → IsTrue result ↔ SameRows bs cs }
    ensures first { (bs : Bodies) → AreRowsIn a.now one.start count one.words one.slots bs
        → first.new ≤ first.old + count + 12 * row_words bs + 20 * weights_in_rows bs }
    ensures second { (cs : Bodies) → AreRowsIn b.now two.start count two.words two.slots cs
        → second.new ≤ second.old + count + 12 * row_words cs + 20 * weights_in_rows cs }
{
    let mut next = one.start.word;
    let mut beyond = two.start.word;
    for _row in 0..count {
        first.tick();
        second.tick();
        let here = Rows {
            start: place(one.start.segment, next),
            words: one.words,
            slots: one.slots,
        };
        let there = Rows {
            start: place(two.start.segment, beyond),
            words: two.words,
            slots: two.slots,
        };
        if !is_same_row(a, here, b, there, depth, first, second) {
            return false;
        }
        next += one.words + one.slots;
        beyond += two.words + two.slots;
    }
    true
}
