//! The price of a step to a target, the faults of depth and budget, and the slots below the target.

ghost use Rattle.std.specs.Prelude.{◌≡◌, ◌<◌, ◌≤◌, ℕ, Ok, Err, IfOk, MatchResult};
ghost use Rattle.capn_words.specs.Message.{IsMessage};
ghost use Rattle.capn_target.specs.Shapes.{IsInMessage};
ghost use Rattle.capn_walk.specs.View as seen;
ghost use Rattle.capn_walk.specs.inner.Reach.{level};
ghost use Rattle.capn_walk.specs.inner.SlotsLeft.{places_of, owed, Lies};

use crate::price::price_of;
use crate::slots_left::SlotsLeft;
use capn_target::counted::CountedSpace;
use capn_target::{Fault, Target};
use capn_words::{Place, Space};
use std::sync::ledger::Ledger;

/// Returns the price of a step to `target`. The limits still allow `depth` levels of objects and a price of `left`
/// words. Each object costs `base` in addition to its size. Content is refused with `TooDeep` if `depth` is 0, else
/// with `OverBudget` if its price exceeds `left`. A target without content costs nothing.
#[inline(always)]
pub fn price_within(target: Target, depth: u32, left: u32, base: u32) -> Result<u32, Fault>
    ensures found { MatchResult result (λ p. seen.stepped base depth left (Ok target) ≡ Ok target)
        (λ e. seen.stepped base depth left (Ok target) ≡ Err e) }
    ensures price { IfOk result (λ p. p ≡ seen.toll base target) }
    ensures within { IfOk result (λ p. p ≤ left) }
    ensures deep { IfOk result (λ p. 0 < p → 0 < depth) }
{
    match target {
        Target::Content {
            segment: _,
            start: _,
            shape,
            pads,
        } => {
            if depth == 0 {
                return Err(Fault::TooDeep);
            }
            let price = price_of(shape, pads, base);
            if price > left as u64 {
                return Err(Fault::OverBudget);
            }
            Ok(price as u32)
        }
        _ => Ok(0),
    }
}

/// Returns the number of levels that `target` itself adds to the depth: 1 for content, else 0.
#[inline(always)]
pub fn levels(target: Target) -> u32
    ensures { result ≡ level target }
{
    match target {
        Target::Content { .. } => 1,
        _ => 0,
    }
}

/// Returns the index of the capability if `target` is one, else `None`.
#[inline(always)]
pub fn capability_of(target: Target) -> Option<u32>
    ensures { result ≡ seen.cap_in target }
{
    match target {
        Target::Cap(index) => Some(index),
        _ => None,
    }
}

/// Returns the slots of the content that `target` names. Null and a capability have none.
#[inline(always)]
pub fn slots_below<S: Space, L: Ledger>(space: &CountedSpace<'_, S, L>, target: Target) -> SlotsLeft
    requires message { IsMessage space.now }
    requires inside { IsInMessage space.now target }
    ensures places { places_of result ≡ seen.slots_below target }
    ensures lies { Lies space.now result }
    ensures owed { (base : ℕ) → owed result ≤ seen.toll base target }
{
    match target {
        Target::Content {
            segment,
            start,
            shape,
            pads: _,
        } => {
            let start = Place {
                segment,
                word: start,
            };
            SlotsLeft::of_object(start, shape)
        }
        _ => SlotsLeft::default(),
    }
}
