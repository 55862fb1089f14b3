//! One visit of a slot, without the slot's value. The result is a fault, or the price of the visit with the capability
//! or the slots below the visited slot. A far pointer to a landing pad of one word is resolved without `resolve`.

ghost use Rattle.std.specs.Prelude.{◌≡◌, ◌≢◌, ℕ, ◌≤◌, ◌+◌, ◌-◌, ◌∷◌, ◌↔◌, [], length, IsTrue, IfOk, IfErr, false, max};
ghost use Rattle.capn_words.specs.Message.{segment_at, word_at, IsMessage, IsPlace};
ghost use Rattle.capn_words.specs.declared.pointer.Pointer.TheVariants.{Far};
ghost use Rattle.capn_value.specs.Cost.{most_cost};
ghost use Rattle.capn_target.specs.Target as spec;
ghost use Rattle.capn_walk.specs.Visits.{pays, visits};
ghost use Rattle.capn_walk.specs.inner.Verdict.{judge, refused};
ghost use Rattle.capn_walk.specs.inner.Outcomes.{Visits};
ghost use Rattle.capn_walk.specs.inner.Reach.{levels_at};
ghost use Rattle.capn_target.specs.Shapes.{IsPlain, AreNumbers};
ghost use Rattle.capn_target.specs.declared.target.Fault.TheVariants.{Memory};

use crate::slots_left::SlotsLeft;
use crate::step::{capability_of, price_within, slots_below};
use capn_target::counted::{CountedSpace, Reads, near, pointer_at, resolve, segment_length};
use capn_target::{Fault, Target};
use capn_words::{Place, Pointer, Space, Width, split};
use std::sync::ledger::Ledger;

/// The findings of one visit: the price, the capability if the slot names one, and the slots below the visited slot.
#[derive(Clone, Copy)]
pub struct Visited {
    /// The price of the visit.
    pub price: u32,
    /// The index of the capability that the slot names, or `None` if the slot names no capability.
    pub capability: Option<u32>,
    /// The slots below the visited slot.
    pub below: SlotsLeft,
}

/// Visits the slot at `at`, whose `pointer` names a near struct, in a segment of `size` words. The limits still allow
/// `depth` levels of objects and a price of `left` words. Each object costs `base` in addition to its size.
#[inline(always)]
pub fn visit_struct<S: Space, L: Ledger>(
    space: &CountedSpace<'_, S, L>,
    at: Place,
    size: u32,
    pointer: Pointer,
    depth: u32,
    left: u32,
    base: u32,
    reads: &mut Reads<L>,
) -> Result<Visited, Fault>
    requires message { IsMessage space.now }
    requires size { size ≡ length (segment_at space.now at.segment) }
    requires place { IsPlace space.now at }
    requires pointer { spec.target_from space.now at.segment at.word 0 pointer
        ≡ spec.target space.now at }
    requires left { left ≤ most_cost }
    ensures visits { Visits space.now base depth left at result }
    ensures reads { reads.new ≤ reads.old + 1 }
{
    let found = near(space, at.segment, size, at.word, 0, pointer, reads);
    visit_found(space, at, found, depth, left, base)
}

/// Returns the price, or the fault, of a visit of the slot at `at`, whose `pointer` names a near list of numbers. The
/// limits still allow `depth` levels of objects and a price of `left` words.
#[inline(always)]
pub fn visit_numbers<S: Space, L: Ledger>(
    space: &CountedSpace<'_, S, L>,
    at: Place,
    size: u32,
    pointer: Pointer,
    depth: u32,
    left: u32,
    base: u32,
    reads: &mut Reads<L>,
) -> Result<u32, Fault>
    requires size { size ≡ length (segment_at space.now at.segment) }
    requires pointer { spec.target_from space.now at.segment at.word 0 pointer
        ≡ spec.target space.now at }
    requires numbers { AreNumbers pointer }
    ensures visits { IfOk result (λ p. visits space.now base depth at ≡ pays at p ∷ []) }
    ensures price { IfOk result (λ p. p ≤ left) }
    ensures refused { IfErr result (λ e. judge left (visits space.now base depth at) ≡ refused e at 0 1) }
    ensures no_memory { IfErr result (λ e. e ≢ Memory) }
    ensures reads { reads.new ≤ reads.old + 1 }
{
    match near(space, at.segment, size, at.word, 0, pointer, reads) {
        Ok(target) => price_within(target, depth, left, base),
        Err(fault) => Err(fault),
    }
}

/// Visits the slot at `at`, whose `word` may be a pointer of any kind. The limits still allow `depth` levels of objects
/// and a price of `left` words.
#[inline(never)]
pub fn visit_elsewhere<S: Space, L: Ledger>(
    space: CountedSpace<'_, S, L>,
    at: Place,
    word: u64,
    depth: u32,
    left: u32,
    base: u32,
    reads: &mut Reads<L>,
) -> Result<Visited, Fault>
    requires message { IsMessage space }
    requires place { IsPlace space at }
    requires word { word ≡ word_at space at }
    requires left { left ≤ most_cost }
    ensures visits { Visits space.entry base depth left at result }
    ensures reads { reads.new ≤ reads.old + 8 }
{
    if let Pointer::Far {
        double: false,
        word,
        segment,
    } = split(word)
    {
        return visit_behind_pad(&space, at, segment, word, depth, left, base, reads);
    }
    let found = resolve(&space, at, reads);
    visit_found(&space, at, found, depth, left, base)
}

/// Visits the slot at `at`, whose far pointer names the landing pad of one word at `word` of `segment`. The limits
/// still allow `depth` levels of objects and a price of `left` words. For speed, a pad that names a struct has its own
/// match arm.
#[inline(always)]
fn visit_behind_pad<S: Space, L: Ledger>(
    space: &CountedSpace<'_, S, L>,
    at: Place,
    segment: u32,
    word: u32,
    depth: u32,
    left: u32,
    base: u32,
    reads: &mut Reads<L>,
) -> Result<Visited, Fault>
    requires message { IsMessage space.now }
    requires place { IsPlace space.now at }
    requires far { spec.pointer_in space.now at.segment at.word ≡ Far false word segment }
    requires left { left ≤ most_cost }
    ensures visits { Visits space.now base depth left at result }
    ensures reads { reads.new ≤ reads.old + 4 }
{
    if segment >= space.segments(reads) {
        return visit_found(space, at, Err(Fault::NoSegment), depth, left, base);
    }
    let size = segment_length(space, segment, reads);
    if word >= size {
        return visit_found(space, at, Err(Fault::PadRange), depth, left, base);
    }
    let pointer = pointer_at(space, segment, word, reads);
    match pointer {
        Pointer::Node { .. } => {
            let found = near(space, segment, size, word, 1, pointer, reads);
            visit_found(space, at, found, depth, left, base)
        }
        _ => {
            let found = near(space, segment, size, word, 1, pointer, reads);
            visit_found(space, at, found, depth, left, base)
        }
    }
}

/// Visits the slot at `at`. `found` is the target of the slot, or the slot's fault. The limits still allow `depth`
/// levels of objects and a price of `left` words.
#[inline(always)]
pub fn visit_found<S: Space, L: Ledger>(
    space: &CountedSpace<'_, S, L>,
    at: Place,
    found: Result<Target, Fault>,
    depth: u32,
    left: u32,
    base: u32,
) -> Result<Visited, Fault>
    requires message { IsMessage space.now }
    requires place { IsPlace space.now at }
    requires found { found ≡ spec.target space.now at }
    requires left { left ≤ most_cost }
    ensures { Visits space.now base depth left at result }
{
    let target = match found {
        Ok(target) => target,
        Err(fault) => return Err(fault),
    };
    match price_within(target, depth, left, base) {
        Ok(price) => Ok(Visited {
            price,
            capability: capability_of(target),
            below: slots_below(space, target),
        }),
        Err(fault) => Err(fault),
    }
}

/// Tests whether the elements of a list of `width` are neither pointers nor structs.
#[inline(always)]
pub fn is_plain(width: Width) -> bool
    ensures { IsTrue result ↔ IsPlain width }
{
    match width {
        Width::Link | Width::Rows => false,
        _ => true,
    }
}

/// Returns the lesser of `least` and `depth` if `DEEP` is true and `capability` is `None`, else `least`. `depth` is the
/// number of levels that remained at the visit.
#[inline(always)]
pub fn lowered<const DEEP: bool>(least: u32, depth: u32, capability: Option<u32>) -> u32
    ensures deep { (limit : ℕ) → IsTrue DEEP →
        limit + 1 - result ≡ max (limit + 1 - least) (levels_at limit depth capability) }
    ensures no_more { result ≤ least }
{
    if DEEP && capability.is_none() && depth < least {
        depth
    } else {
        least
    }
}
