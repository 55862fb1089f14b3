//! The loop of a survey, which visits the root's slot and then all slots below it.

ghost use Rattle.std.specs.Prelude.{◌≡◌, ◌≢◌, ◌<◌, ◌≤◌, ◌+◌, ◌*◌, Ok, IsTrue, IfOk, IfErr, MatchResult};
ghost use Rattle.capn_words.specs.Message.{IsMessage, IsPlace};
ghost use Rattle.capn_value.specs.Cost.{most_cost, most_height};
ghost use Rattle.capn_target.specs.Target as spec;
ghost use Rattle.capn_walk.specs.Accepted.{root};
ghost use Rattle.capn_walk.specs.Visits.{visits, visits_of};
ghost use Rattle.capn_walk.specs.inner.Outcomes.{SurveysAs};
ghost use Rattle.capn_walk.specs.inner.SlotsLeft.{places_of, owed, Lies};
ghost use Rattle.capn_walk.specs.inner.Reach.{reach, reach_of};
ghost use Rattle.capn_target.specs.declared.target.Fault.TheVariants.{Memory};

use crate::slots_left::{SlotsLeft, Waiting};
use crate::step::levels;
use crate::survey_answer::{Measured, Surveyed};
use crate::survey_visit::{
    is_plain, lowered, visit_elsewhere, visit_found, visit_numbers, visit_struct,
};
use crate::walk_answer::Stopped;
use capn_target::counted::{CountedSpace, Reads, segment_length, size_of};
use capn_target::{Fault, Target};
use capn_words::{Place, Pointer, Space, split};
use smallvec::SmallVec;
use std::alloc::Allocator;
use std::sync::ledger::Ledger;

/// Visits the root's slot, whose target is `target`, and then all slots below the root. Only the slots below the root
/// need a stack. If `DEEP` is true, also finds how deep the objects are.
#[inline(always)]
pub fn survey_root<S: Space, A: Allocator + Copy, L: Ledger, const DEEP: bool>(
    alloc: A,
    space: &CountedSpace<'_, S, L>,
    target: Target,
    depth: u32,
    budget: u32,
    base: u32,
    reads: &mut Reads<L>,
) -> Result<Measured, Stopped>
    requires message { IsMessage space.now }
    requires place { IsPlace space.now root }
    requires target { Ok target ≡ spec.target space.now root }
    requires some { 1 ≤ depth }
    requires depth { depth ≤ most_height }
    requires budget { budget ≤ most_cost }
    ensures tells { SurveysAs space.now budget 1 (visits space.now base depth root) result }
    ensures depth { IsTrue DEEP → IfOk result (λ m. m.depth ≡ reach space.now depth root) }
    ensures no_memory { IfErr result (λ s. s.fault ≢ Memory) }
    ensures reads { MatchResult result (λ m. reads.new + 10 ≤ reads.old + 14 * m.survey.visits)
        (λ s. reads.new + 10 ≤ reads.old + 14 * s.visits) }
{
    let visited = match visit_found(space, Place::ROOT, Ok(target), depth, budget, base) {
        Ok(visited) => visited,
        Err(fault) => return Err(stopped(fault, Place::ROOT, 0, 1)),
    };
    if visited.below.is_done() {
        let survey = Surveyed {
            paid: visited.price,
            visits: 1,
            capability: visited.capability,
        };
        return Ok(Measured {
            survey,
            depth: levels(target),
        });
    }
    let left = budget - visited.price;
    match survey_slots::<S, A, L, DEEP>(alloc, space, visited.below, depth - 1, left, base, reads) {
        Ok(below) => {
            let survey = Surveyed {
                paid: visited.price + below.survey.paid,
                visits: 1 + below.survey.visits,
                capability: visited.capability.or(below.survey.capability),
            };
            Ok(Measured {
                survey,
                depth: levels(target) + below.depth,
            })
        }
        Err(refusal) => Err(refusal.behind(visited.price, 1)),
    }
}

#[inline(always)]
fn stopped(fault: Fault, place: Place, paid: u32, visits: u32) -> Stopped
    ensures { result ≡ record { fault = fault; place = place; paid = paid; visits = visits } }
{
    Stopped {
        fault,
        place,
        paid,
        visits,
    }
}

/// Visits the slots of `first` and all slots below them. If `DEEP` is true, also finds how deep the objects are. The
/// depth is computed from the least number of levels that remained at a visit of content.
///
/// The complete stack is initialised before the first visit. So a smaller stack is used if `limit` is at most 64.
#[inline(always)]
fn survey_slots<S: Space, A: Allocator + Copy, L: Ledger, const DEEP: bool>(
    alloc: A,
    space: &CountedSpace<'_, S, L>,
    first: SlotsLeft,
    limit: u32,
    budget: u32,
    base: u32,
    reads: &mut Reads<L>,
) -> Result<Measured, Stopped>
    requires message { IsMessage space.now }
    requires inside { Lies space.now first }
    requires limit { limit < most_height }
    requires budget { budget ≤ most_cost }
    requires few { owed first ≤ most_cost }
    ensures tells { SurveysAs space.now budget (owed first)
        (visits_of space.now base limit (places_of first)) result }
    ensures depth { IsTrue DEEP →
        IfOk result (λ m. m.depth ≡ reach_of space.now limit (places_of first)) }
    ensures shallow { IfOk result (λ m. m.depth ≤ limit + 1) }
    ensures no_memory { IfErr result (λ s. s.fault ≢ Memory) }
    ensures reads { MatchResult result (λ m. reads.new ≤ reads.old + 14 * m.survey.visits + 3)
        (λ s. reads.new ≤ reads.old + 14 * s.visits + 3) }
{
    if limit <= 64 {
        survey_in_room::<S, A, L, DEEP, 64>(alloc, space.again(), first, limit, budget, base, reads)
    } else {
        survey_in_room::<S, A, L, DEEP, 256>(
            alloc,
            space.again(),
            first,
            limit,
            budget,
            base,
            reads,
        )
    }
}

/// Visits the slots of `first` and all slots below them, with a stack for `ROOM` objects that wait. If `DEEP` is true,
/// also finds how deep the objects are.
#[inline(never)]
fn survey_in_room<S: Space, A: Allocator + Copy, L: Ledger, const DEEP: bool, const ROOM: usize>(
    alloc: A,
    space: CountedSpace<'_, S, L>,
    first: SlotsLeft,
    limit: u32,
    budget: u32,
    base: u32,
    reads: &mut Reads<L>,
) -> Result<Measured, Stopped>
    requires message { IsMessage space }
    requires inside { Lies space first }
    requires limit { limit ≤ ROOM }
    requires room { ROOM ≤ most_height }
    requires budget { budget ≤ most_cost }
    requires few { owed first ≤ most_cost }
    ensures tells { SurveysAs space.entry budget (owed first)
        (visits_of space.entry base limit (places_of first)) result }
    ensures depth { IsTrue DEEP →
        IfOk result (λ m. m.depth ≡ reach_of space.entry limit (places_of first)) }
    ensures shallow { IfOk result (λ m. m.depth ≤ limit + 1) }
    ensures no_memory { IfErr result (λ s. s.fault ≢ Memory) }
    ensures reads { MatchResult result (λ m. reads.new ≤ reads.old + 14 * m.survey.visits + 3)
        (λ s. reads.new ≤ reads.old + 14 * s.visits + 3) }
{
    let mut stack: SmallVec<Waiting, ROOM, &A> = SmallVec::new(&alloc);
    let mut frame = first;
    let mut size = segment_length(&space, first.segment, reads);
    let mut depth = limit;
    let mut least = limit + 1;
    let mut paid = 0u32;
    let mut visits = 0u32;
    let mut capability = None;
    'slots: loop {
        reads.tick();
        if frame.left == 0 {
            if frame.rows > 0 {
                frame = frame.turned();
                continue;
            }
            let Some(waiting) = stack.pop() else {
                let survey = Surveyed {
                    paid,
                    visits,
                    capability,
                };
                return Ok(Measured {
                    survey,
                    depth: limit + 1 - least,
                });
            };
            size = size_of(&space, waiting.frame.segment, frame.segment, size, reads);
            frame = waiting.frame;
            depth = waiting.depth;
            continue;
        }
        let (at, rest) = frame.take();
        let word = space.word(at, reads);
        if word == 0 {
            visits += 1;
            frame = rest;
            continue;
        }
        let pointer = split(word);
        match pointer {
            Pointer::Node { .. } => {
                let found = match visit_struct(
                    &space,
                    at,
                    size,
                    pointer,
                    depth,
                    budget - paid,
                    base,
                    reads,
                ) {
                    Ok(found) => found,
                    Err(fault) => return Err(stopped(fault, at, paid, visits + 1)),
                };
                paid += found.price;
                visits += 1;
                least = lowered::<DEEP>(least, depth, None);
                if found.below.is_done() {
                    frame = rest;
                    continue;
                }
                if !rest.is_done() {
                    let Ok(()) = stack.push(Waiting { frame: rest, depth }) else {
                        return Err(stopped(Fault::Memory, at, paid, visits));
                    };
                }
                size = size_of(&space, found.below.segment, at.segment, size, reads);
                frame = found.below;
                depth -= 1;
            }
            Pointer::Many { width, .. } if is_plain(width) => {
                match visit_numbers(&space, at, size, pointer, depth, budget - paid, base, reads) {
                    Ok(price) => {
                        paid += price;
                        visits += 1;
                        least = lowered::<DEEP>(least, depth, None);
                        frame = rest;
                    }
                    Err(fault) => return Err(stopped(fault, at, paid, visits + 1)),
                }
            }
            _ => {
                let found = match visit_elsewhere(
                    space.again(),
                    at,
                    word,
                    depth,
                    budget - paid,
                    base,
                    reads,
                ) {
                    Ok(found) => found,
                    Err(fault) => return Err(stopped(fault, at, paid, visits + 1)),
                };
                paid += found.price;
                visits += 1;
                capability = capability.or(found.capability);
                least = lowered::<DEEP>(least, depth, found.capability);
                if found.below.is_done() {
                    frame = rest;
                    continue;
                }
                if !rest.is_done() {
                    let Ok(()) = stack.push(Waiting { frame: rest, depth }) else {
                        return Err(stopped(Fault::Memory, at, paid, visits));
                    };
                }
                size = size_of(&space, found.below.segment, at.segment, size, reads);
                frame = found.below;
                depth -= 1;
            }
        }
    }
}
