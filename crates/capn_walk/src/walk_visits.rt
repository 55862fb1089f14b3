//! The visits of slots, in preorder: the value of each slot, the number of words paid, and the number of visits.
//!
//! A slot costs at most ten reads and turns of a loop: one turn, one read of the slot's word, and eight reads to find
//! the target. The object that the slot names costs a read for each data word and a turn for each row. Data words and
//! rows together cost at most two for each word of the object's price.

ghost use Rattle.std.specs.Prelude.{◌≡◌, ◌≤◌, ◌+◌, ◌*◌, Ok, length, IfErr, MatchResult};
ghost use Rattle.capn_words.specs.Message.{segment_at, IsMessage, IsPlace};
ghost use Rattle.capn_value.specs.Cost.{most_cost};
ghost use Rattle.capn_target.specs.Target as spec;
ghost use Rattle.capn_target.specs.declared.target.Fault.TheVariants.{Memory};
ghost use Rattle.capn_walk.specs.View.{IsEntered, stepped};
ghost use Rattle.capn_walk.specs.inner.Outcomes.{Walks, WalksObject, WalksRows, WalksSlots};
ghost use Rattle.capn_walk.specs.inner.OwnReads.{own_reads};
ghost use Rattle.capn_target.specs.Shapes.{IsContent, RowsFit, extent, slot_count};

use crate::found::{Found, FoundRows, FoundSlots};
use crate::lists::{list_at, words_at};
use crate::step::price_within;
use crate::walk_answer::{Stopped, out_of_memory, stop};
use capn_target::counted::{CountedSpace, Reads, near, pointer_at, resolve, segment_length};
use capn_target::{Fault, Shape, Target, place};
use capn_value::{Body, Items, Value};
use capn_words::{Place, Pointer, Space, Width};
use std::alloc::Allocator;
use std::sync::ledger::Ledger;

/// Reads the value of the slot at `at`. The limits still allow `depth` levels of objects and a price of `left` words.
/// Each object costs `base` in addition to its size. For speed, near structs and near lists have a match arm each.
#[cycle(walk)]
#[inline(always)]
fn walk_slot<S: Space, A: Allocator + Copy, L: Ledger>(
    alloc: A,
    space: &CountedSpace<'_, S, L>,
    at: Place,
    depth: u32,
    left: u32,
    base: u32,
    reads: &mut Reads<L>,
) -> Result<Found<A>, Stopped>
    requires message { IsMessage space.now }
    requires place { IsPlace space.now at }
    requires left { left ≤ most_cost }
    ensures answer { Walks space.now base depth left at result }
    ensures reads { MatchResult result (λ f. reads.new + 1 ≤ reads.old + 10 * f.visits + 2 * f.paid)
        (λ s. reads.new + 1 ≤ reads.old + 10 * s.visits + 2 * s.paid) }
{
    let pointer = pointer_at(space, at.segment, at.word, reads);
    match pointer {
        Pointer::Nil => Ok(Found::without_content(Value::Nil)),
        Pointer::Node { .. } => walk_near(alloc, space, at, pointer, depth, left, base, reads),
        Pointer::Many { .. } => walk_near(alloc, space, at, pointer, depth, left, base, reads),
        // The result is unwrapped and wrapped again, so that only the result of this arm is written to memory.
        _ => {
            let found = walk_elsewhere(alloc, space.again(), at, depth, left, base, reads)?;
            Ok(found)
        }
    }
}

/// Reads the value of the slot at `at`, whose `pointer` names near content.
#[cycle(walk)]
#[inline(always)]
fn walk_near<S: Space, A: Allocator + Copy, L: Ledger>(
    alloc: A,
    space: &CountedSpace<'_, S, L>,
    at: Place,
    pointer: Pointer,
    depth: u32,
    left: u32,
    base: u32,
    reads: &mut Reads<L>,
) -> Result<Found<A>, Stopped>
    requires message { IsMessage space.now }
    requires place { IsPlace space.now at }
    requires pointer { spec.target_from space.now at.segment at.word 0 pointer
        ≡ spec.target space.now at }
    requires left { left ≤ most_cost }
    ensures answer { Walks space.now base depth left at result }
    ensures reads { MatchResult result (λ f. reads.new + 8 ≤ reads.old + 10 * f.visits + 2 * f.paid)
        (λ s. reads.new + 8 ≤ reads.old + 10 * s.visits + 2 * s.paid) }
{
    let size = segment_length(space, at.segment, reads);
    match near(space, at.segment, size, at.word, 0, pointer, reads) {
        Ok(target) => walk_target(alloc, space, at, target, depth, left, base, reads),
        Err(fault) => Err(stop(fault, at)),
    }
}

/// Reads the value of the slot at `at`, which may hold any pointer.
#[cycle(walk)]
#[inline(never)]
fn walk_elsewhere<S: Space, A: Allocator + Copy, L: Ledger>(
    alloc: A,
    space: CountedSpace<'_, S, L>,
    at: Place,
    depth: u32,
    left: u32,
    base: u32,
    reads: &mut Reads<L>,
) -> Result<Found<A>, Stopped>
    requires message { IsMessage space }
    requires place { IsPlace space at }
    requires left { left ≤ most_cost }
    ensures answer { Walks space.entry base depth left at result }
    ensures reads { MatchResult result (λ f. reads.new + 2 ≤ reads.old + 10 * f.visits + 2 * f.paid)
        (λ s. reads.new + 2 ≤ reads.old + 10 * s.visits + 2 * s.paid) }
{
    match resolve(&space, at, reads) {
        Ok(target) => walk_target(alloc, &space, at, target, depth, left, base, reads),
        Err(fault) => Err(stop(fault, at)),
    }
}

/// Reads the value of the slot at `at`, whose target is `target`. The limits still allow `depth` levels of objects and
/// a price of `left` words. The price of the visit is paid before any content except a list's tag is read.
#[cycle(walk)]
#[inline(always)]
pub fn walk_target<S: Space, A: Allocator + Copy, L: Ledger>(
    alloc: A,
    space: &CountedSpace<'_, S, L>,
    at: Place,
    target: Target,
    depth: u32,
    left: u32,
    base: u32,
    reads: &mut Reads<L>,
) -> Result<Found<A>, Stopped>
    requires message { IsMessage space.now }
    requires place { IsPlace space.now at }
    requires target { spec.target space.now at ≡ Ok target }
    requires left { left ≤ most_cost }
    ensures answer { Walks space.now base depth left at result }
    // The fault is `Memory` only if `target` is content that `depth` and `left` allow. Nothing is allocated before the
    // content's price is paid.
    ensures memory { IfErr result (λ s. s.fault ≡ Memory → IsEntered (stepped base depth left (Ok target))) }
    ensures reads { MatchResult result (λ f. reads.new + 10 ≤ reads.old + 10 * f.visits + 2 * f.paid)
        (λ s. reads.new + 10 ≤ reads.old + 10 * s.visits + 2 * s.paid) }
{
    match target {
        Target::Nil => Ok(Found::without_content(Value::Nil)),
        Target::Cap(index) => Ok(Found::without_content(Value::Cap(index))),
        Target::Content {
            segment,
            start,
            shape,
            pads: _,
        } => {
            let price = match price_within(target, depth, left, base) {
                Ok(price) => price,
                Err(fault) => return Err(stop(fault, at)),
            };
            let start = place(segment, start);
            let left = left - price;
            match object(alloc, space, at, start, shape, depth - 1, left, base, reads) {
                Ok(found) => Ok(Found {
                    value: found.value,
                    paid: price + found.paid,
                    visits: 1 + found.visits,
                }),
                Err(stopped) => Err(stopped.behind(price, 1)),
            }
        }
    }
}

/// Reads the object that the slot at `at` names, and everything below the object. The content has the shape `shape` and
/// starts at `start`. The object's own price has been paid.
#[cycle(walk)]
#[inline(always)]
fn object<S: Space, A: Allocator + Copy, L: Ledger>(
    alloc: A,
    space: &CountedSpace<'_, S, L>,
    at: Place,
    start: Place,
    shape: Shape,
    depth: u32,
    left: u32,
    base: u32,
    reads: &mut Reads<L>,
) -> Result<Found<A>, Stopped>
    requires message { IsMessage space.now }
    requires content { IsContent space.now start (extent shape) }
    requires rows { RowsFit shape }
    requires left { left ≤ most_cost }
    requires count { slot_count shape ≤ most_cost }
    ensures answer { WalksObject space.now base depth left shape start result }
    ensures reads { MatchResult result (λ f. reads.new ≤ reads.old + 10 * f.visits + 2 * f.paid + own_reads shape)
        (λ s. reads.new ≤ reads.old + 10 * s.visits + 2 * s.paid + own_reads shape) }
{
    let segment = start.segment;
    match shape {
        Shape::Node { words, slots } => {
            let first = start.word + words as u32;
            let Ok(words) = words_at(alloc, space, start, words as u32, reads) else {
                return Err(out_of_memory(at));
            };
            let count = slots as u32;
            let below = walk_slots(
                alloc,
                space.again(),
                segment,
                first,
                count,
                depth,
                left,
                base,
                reads,
            )?;
            Ok(below.into_struct(words))
        }
        Shape::Many { width, count } => match width {
            Width::Link => {
                let first = start.word;
                let below = walk_slots(
                    alloc,
                    space.again(),
                    segment,
                    first,
                    count,
                    depth,
                    left,
                    base,
                    reads,
                )?;
                Ok(below.into_list())
            }
            _ => {
                let Ok(value) = list_at(alloc, space, start, width, count, reads) else {
                    return Err(out_of_memory(at));
                };
                Ok(Found::without_slots(value))
            }
        },
        Shape::Rows {
            count,
            words,
            slots,
            span: _,
        } => {
            let first = place(segment, start.word + 1);
            let below = walk_rows(
                alloc,
                space.again(),
                first,
                count,
                words,
                slots,
                depth,
                left,
                base,
                reads,
            )?;
            Ok(below.into_list())
        }
    }
}

/// Reads the values of `count` consecutive slots, from word `start` of `segment` on.
#[cycle(walk)]
#[inline(never)]
fn walk_slots<S: Space, A: Allocator + Copy, L: Ledger>(
    alloc: A,
    space: CountedSpace<'_, S, L>,
    segment: u32,
    start: u32,
    count: u32,
    depth: u32,
    left: u32,
    base: u32,
    reads: &mut Reads<L>,
) -> Result<FoundSlots<A>, Stopped>
    requires message { IsMessage space }
    requires inside { start + count ≤ length (segment_at space segment) }
    requires left { left ≤ most_cost }
    ensures answer { WalksSlots space.entry base depth left segment start count result }
    ensures reads { MatchResult result (λ f. reads.new ≤ reads.old + 10 * f.visits + 2 * f.paid)
        (λ s. reads.new ≤ reads.old + 10 * s.visits + 2 * s.paid) }
{
    let Ok(mut slots) = Vec::with_capacity(alloc, count as usize) else {
        return Err(out_of_memory(place(segment, start)));
    };
    let mut paid = 0;
    let mut visits = 0;
    for i in 0..count {
        reads.tick();
        let at = place(segment, start + i);
        match walk_slot(alloc, &space, at, depth, left - paid, base, reads) {
            Ok(found) => {
                paid += found.paid;
                visits += found.visits;
                slots.push_reserved(found.value);
            }
            Err(stopped) => return Err(stopped.behind(paid, visits)),
        }
    }
    Ok(FoundSlots {
        items: Items::from_vec(slots),
        paid,
        visits,
    })
}

/// Reads the bodies of `count` consecutive rows, from `start` on. Each row has `words` data words and `slots` slots.
#[cycle(walk)]
#[inline(never)]
fn walk_rows<S: Space, A: Allocator + Copy, L: Ledger>(
    alloc: A,
    space: CountedSpace<'_, S, L>,
    start: Place,
    count: u32,
    words: u16,
    slots: u16,
    depth: u32,
    left: u32,
    base: u32,
    reads: &mut Reads<L>,
) -> Result<FoundRows<A>, Stopped>
    requires message { IsMessage space }
    requires content { IsContent space start (count * (words + slots)) }
    requires left { left ≤ most_cost }
    requires count { count * slots ≤ most_cost }
    ensures answer { WalksRows space.entry base depth left start words slots count result }
    ensures reads { MatchResult result (λ f. reads.new ≤ reads.old + 10 * f.visits + 2 * f.paid + count * (1 + words))
        (λ s. reads.new ≤ reads.old + 10 * s.visits + 2 * s.paid + count * (1 + words)) }
{
    let segment = start.segment;
    let width = slots as u32;
    let Ok(mut rows) = Vec::with_capacity(alloc, count as usize) else {
        return Err(out_of_memory(start));
    };
    let mut paid = 0;
    let mut visits = 0;
    let mut next = start.word;
    for i in 0..count {
        reads.tick();
        let at = place(segment, next);
        let Ok(data) = words_at(alloc, &space, at, words as u32, reads) else {
            return Err(out_of_memory(at).behind(paid, visits));
        };
        let first = next + words as u32;
        let room = left - paid;
        match walk_slots(
            alloc,
            space.again(),
            segment,
            first,
            width,
            depth,
            room,
            base,
            reads,
        ) {
            Ok(below) => {
                paid += below.paid;
                visits += below.visits;
                let body = Body {
                    words: data,
                    slots: below.items,
                };
                rows.push_reserved(body);
            }
            Err(stopped) => return Err(stopped.behind(paid, visits)),
        }
        next = first + width;
    }
    Ok(FoundRows {
        rows: Items::from_vec(rows),
        paid,
        visits,
    })
}
