//! The functions that write the entries of slots, in preorder, to a room.
//!
//! A slot costs at most thirteen reads and turns of the loop: the slot's own turn, a turn that begins the slot's row,
//! one read of the slot's word, at most eight reads to find the target, one read of the length of the target's segment,
//! and the last turn over the target's slots.

ghost use Rattle.std.specs.Prelude.{◌≡◌, ◌+◌, ◌*◌, ◌<◌, ◌≤◌, ◌^◌, length, IfErr, MatchResult};
ghost use Rattle.capn_words.specs.Message.{segment_at, IsMessage, IsPlace};
ghost use Rattle.capn_value.specs.Cost.{most_cost};
ghost use Rattle.capn_target.specs.Target as spec;
ghost use Rattle.capn_walk.specs.Visits.{visits, visits_of};
ghost use Rattle.capn_walk.specs.inner.SlotsLeft.{places_of, owed, Lies};
ghost use Rattle.capn_walk.specs.Index.{entries, entries_of};
ghost use Rattle.capn_walk.specs.inner.IndexRoom.{Indexes, IsKept};

use crate::entry::{Entry, Indexed};
use crate::entry_form::EntryForm;
use crate::slots_left::SlotsLeft;
use crate::step::{price_within, slots_below};
use crate::walk_answer::{Stopped, stop};
use capn_target::counted::{CountedSpace, Reads, near, resolve, size_of};
use capn_target::{Fault, Target};
use capn_words::{Place, Pointer, Space, split};
use std::sync::ledger::Ledger;

/// Writes to `room`, from index `first` on, the entries of the slot at `at` and of all slots below it. `found` is the
/// target of the slot, or the slot's fault.
#[cycle(index_slots)]
#[inline(always)]
pub fn index_found<S: Space, L: Ledger, F: EntryForm>(
    space: &CountedSpace<'_, S, L>,
    at: Place,
    size: u32,
    found: Result<Target, Fault>,
    depth: u32,
    left: u32,
    base: u32,
    form: &F,
    room: &mut [F::Item],
    first: u32,
    reads: &mut Reads<L>,
) -> Result<Indexed, Stopped>
    requires message { IsMessage space.now }
    requires size { size ≡ length (segment_at space.now at.segment) }
    requires place { IsPlace space.now at }
    requires found { found ≡ spec.target space.now at }
    requires left { left ≤ most_cost }
    requires fits { first + 1 + left < 2 ^ 32 }
    ensures indexes { Indexes left (visits space.now base depth at) 1 (F.written form.now)
        (entries space.now depth at) first room.old room.new result }
    ensures kept { IfErr result (λ s. IsKept first room.old room.new s.visits) }
    ensures reads { MatchResult result (λ t. reads.new + 11 ≤ reads.old + 13 * t.visits)
        (λ s. reads.new + 11 ≤ reads.old + 13 * s.visits) }
{
    let target = match found {
        Ok(target) => target,
        Err(fault) => return Err(stop(fault, at)),
    };
    let price = match price_within(target, depth, left, base) {
        Ok(price) => price,
        Err(fault) => return Err(stop(fault, at)),
    };
    form.put(room, first, Entry::of(target, 1));
    let below = slots_below(space, target);
    if below.is_done() {
        return Ok(Indexed {
            paid: price,
            visits: 1,
        });
    }
    let size = size_of(space, below.segment, at.segment, size, reads);
    match index_frame(
        space.again(),
        below,
        size,
        depth - 1,
        left - price,
        base,
        form,
        room,
        first + 1,
        reads,
    ) {
        Ok(told) => {
            let span = 1 + told.visits;
            form.set_span(room, first, span);
            Ok(Indexed {
                paid: price + told.paid,
                visits: span,
            })
        }
        Err(stopped) => Err(stopped.behind(price, 1)),
    }
}

/// Writes to `room`, from index `first` on, the entries of the slot at `at` and of all slots below it. The slot's
/// `pointer` names a near struct or list.
#[cycle(index_slots)]
#[inline(always)]
fn index_near<S: Space, L: Ledger, F: EntryForm>(
    space: &CountedSpace<'_, S, L>,
    at: Place,
    size: u32,
    pointer: Pointer,
    depth: u32,
    left: u32,
    base: u32,
    form: &F,
    room: &mut [F::Item],
    first: u32,
    reads: &mut Reads<L>,
) -> Result<Indexed, Stopped>
    requires message { IsMessage space.now }
    requires size { size ≡ length (segment_at space.now at.segment) }
    requires place { IsPlace space.now at }
    requires pointer { spec.target_from space.now at.segment at.word 0 pointer
        ≡ spec.target space.now at }
    requires left { left ≤ most_cost }
    requires fits { first + 1 + left < 2 ^ 32 }
    ensures indexes { Indexes left (visits space.now base depth at) 1 (F.written form.now)
        (entries space.now depth at) first room.old room.new result }
    ensures kept { IfErr result (λ s. IsKept first room.old room.new s.visits) }
    ensures reads { MatchResult result (λ t. reads.new + 10 ≤ reads.old + 13 * t.visits)
        (λ s. reads.new + 10 ≤ reads.old + 13 * s.visits) }
{
    let found = near(space, at.segment, size, at.word, 0, pointer, reads);
    index_found(
        space, at, size, found, depth, left, base, form, room, first, reads,
    )
}

/// Writes to `room`, from index `first` on, the entries of the slot at `at` and of all slots below it. The slot may
/// hold any pointer.
#[cycle(index_slots)]
#[inline(never)]
fn index_elsewhere<S: Space, L: Ledger, F: EntryForm>(
    space: CountedSpace<'_, S, L>,
    at: Place,
    size: u32,
    depth: u32,
    left: u32,
    base: u32,
    form: &F,
    room: &mut [F::Item],
    first: u32,
    reads: &mut Reads<L>,
) -> Result<Indexed, Stopped>
    requires message { IsMessage space }
    requires size { size ≡ length (segment_at space at.segment) }
    requires place { IsPlace space at }
    requires left { left ≤ most_cost }
    requires fits { first + 1 + left < 2 ^ 32 }
    ensures indexes { Indexes left (visits space.entry base depth at) 1 (F.written form.now)
        (entries space.entry depth at) first room.old room.new result }
    ensures kept { IfErr result (λ s. IsKept first room.old room.new s.visits) }
    ensures reads { MatchResult result (λ t. reads.new + 3 ≤ reads.old + 13 * t.visits)
        (λ s. reads.new + 3 ≤ reads.old + 13 * s.visits) }
{
    let found = resolve(&space, at, reads);
    index_found(
        &space, at, size, found, depth, left, base, form, room, first, reads,
    )
}

/// Writes to `room`, from index `first` on, the entries of the slot at `at` and of all slots below it. For speed, near
/// structs and near lists have a match arm each.
#[cycle(index_slots)]
#[inline(always)]
fn index_slot<S: Space, L: Ledger, F: EntryForm>(
    space: &CountedSpace<'_, S, L>,
    at: Place,
    size: u32,
    depth: u32,
    left: u32,
    base: u32,
    form: &F,
    room: &mut [F::Item],
    first: u32,
    reads: &mut Reads<L>,
) -> Result<Indexed, Stopped>
    requires message { IsMessage space.now }
    requires size { size ≡ length (segment_at space.now at.segment) }
    requires place { IsPlace space.now at }
    requires left { left ≤ most_cost }
    requires fits { first + 1 + left < 2 ^ 32 }
    ensures indexes { Indexes left (visits space.now base depth at) 1 (F.written form.now)
        (entries space.now depth at) first room.old room.new result }
    ensures kept { IfErr result (λ s. IsKept first room.old room.new s.visits) }
    ensures reads { MatchResult result (λ t. reads.new + 2 ≤ reads.old + 13 * t.visits)
        (λ s. reads.new + 2 ≤ reads.old + 13 * s.visits) }
{
    let word = space.word(at, reads);
    if word == 0 {
        form.put(room, first, Entry::nil());
        return Ok(Indexed { paid: 0, visits: 1 });
    }
    let pointer = split(word);
    match pointer {
        Pointer::Node { .. } => index_near(
            space, at, size, pointer, depth, left, base, form, room, first, reads,
        ),
        Pointer::Many { .. } => index_near(
            space, at, size, pointer, depth, left, base, form, room, first, reads,
        ),
        _ => index_elsewhere(
            space.again(),
            at,
            size,
            depth,
            left,
            base,
            form,
            room,
            first,
            reads,
        ),
    }
}

/// Writes to `room`, from index `first` on, the entries of `slots`, in order. After each slot's own entry, the entries
/// of the slots below that slot are written.
#[cycle(index_slots)]
#[inline(never)]
fn index_frame<S: Space, L: Ledger, F: EntryForm>(
    space: CountedSpace<'_, S, L>,
    slots: SlotsLeft,
    size: u32,
    depth: u32,
    left: u32,
    base: u32,
    form: &F,
    room: &mut [F::Item],
    first: u32,
    reads: &mut Reads<L>,
) -> Result<Indexed, Stopped>
    requires message { IsMessage space }
    requires inside { Lies space slots }
    requires size { size ≡ length (segment_at space slots.segment) }
    requires left { left ≤ most_cost }
    requires fits { first + owed slots + left < 2 ^ 32 }
    ensures indexes { Indexes left (visits_of space.entry base depth (places_of slots)) (owed slots)
        (F.written form.now) (entries_of space.entry depth (places_of slots)) first room.old room.new result }
    ensures kept { IfErr result (λ s. IsKept first room.old room.new s.visits) }
    ensures reads { MatchResult result (λ t. reads.new ≤ reads.old + 13 * t.visits + 1)
        (λ s. reads.new ≤ reads.old + 13 * s.visits + 1) }
{
    let mut frame = slots;
    let mut paid = 0u32;
    let mut visits = 0u32;
    'slots: loop {
        reads.tick();
        if frame.left == 0 {
            if frame.rows > 0 {
                frame = frame.turned();
                continue;
            }
            return Ok(Indexed { paid, visits });
        }
        let (at, rest) = frame.take();
        match index_slot(
            &space,
            at,
            size,
            depth,
            left - paid,
            base,
            form,
            room,
            first + visits,
            reads,
        ) {
            Ok(told) => {
                paid += told.paid;
                visits += told.visits;
                frame = rest;
            }
            Err(stopped) => return Err(stopped.behind(paid, visits)),
        }
    }
}
