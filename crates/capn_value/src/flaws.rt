//! The search for the first misfit of a value.

ghost use Rattle.std.specs.Prelude.{◌≡◌, ◌||◌, IfNone};
ghost use Rattle.capn_value.specs.TreeOf.{tree_of, trees_of, rows_of};
ghost use Rattle.capn_value.specs.Fits as fits;
ghost use Rattle.capn_value.specs.InRange.{InRange};

use crate::cost_and_height::{MOST_COST, MOST_HEIGHT, capped_cost, capped_height};
use crate::misfit::Misfit;
use crate::part_flaws::{is_long, is_ragged, is_wide};
use crate::tariff::Tariff;
use crate::value::{Body, Value};
use std::alloc::Allocator;

/// The kinds of flaws that were found in a value and in the values below it.
#[derive(Clone, Copy)]
struct Flaws {
    wide: bool,
    long: bool,
    ragged: bool,
}

impl Flaws {
    const NONE: Flaws = Flaws {
        wide: false,
        long: false,
        ragged: false,
    };

    // Returns the flaws of `self` and of `other` together.
    fn or(self, other: Flaws) -> Flaws
        ensures wide { result.wide ≡ (self.wide || other.wide) }
        ensures long { result.long ≡ (self.long || other.long) }
        ensures ragged { result.ragged ≡ (self.ragged || other.ragged) }
    {
        Flaws {
            wide: self.wide || other.wide,
            long: self.long || other.long,
            ragged: self.ragged || other.ragged,
        }
    }
}

/// Returns the first misfit that `v` has, in the order of the variants of [`Misfit`], or `None` if `v` fits into a
/// message. If the result is `None`, the numbers in `v` are also in the range of their types.
#[tactic(auto, unfolding(crate::specs::Fits::misfit))]
pub fn misfit<A: Allocator>(v: &Value<A>) -> Option<Misfit>
    ensures reason { result ≡ fits.misfit (tree_of v.now) }
    ensures in_range { IfNone result (InRange (tree_of v.now)) }
{
    let found = flaws_of(v);
    if found.wide {
        Some(Misfit::Wide)
    } else if found.long {
        Some(Misfit::Long)
    } else if found.ragged {
        Some(Misfit::Ragged)
    } else if capped_cost(v, Tariff::Plain.base() as usize) > MOST_COST as usize {
        Some(Misfit::Costly)
    } else if capped_height(v) > MOST_HEIGHT {
        Some(Misfit::Tall)
    } else if !is_root(v) {
        Some(Misfit::BadRoot)
    } else {
        None
    }
}

#[tactic(auto, using(std::proofs::lemmas::Grind::common_steps, crate::specs::Views::views))]
fn is_root<A: Allocator>(v: &Value<A>) -> bool
    ensures { result ≡ fits.is_root (tree_of v.now) }
{
    match v {
        Value::Cap(_) => false,
        _ => true,
    }
}

// Finds the flaws of `v` and of all values below `v`.
#[cycle(flaws_of)]
fn flaws_of<A: Allocator>(v: &Value<A>) -> Flaws
    ensures wide { result.wide ≡ fits.anywhere fits.is_wide (tree_of v.now) }
    ensures long { result.long ≡ fits.anywhere fits.is_long (tree_of v.now) }
    ensures ragged { result.ragged ≡ fits.anywhere fits.is_ragged (tree_of v.now) }
{
    let here = own_flaws(v);
    match v {
        Value::Node(body) => here.or(flaws_of_each(body.slots.as_slice())),
        Value::Links(items) => here.or(flaws_of_each(items.as_slice())),
        Value::Rows(bodies) => here.or(flaws_of_rows(bodies.as_slice())),
        _ => here,
    }
}

#[cycle(flaws_of)]
fn flaws_of_each<A: Allocator>(items: &[Value<A>]) -> Flaws
    ensures wide { result.wide ≡ fits.anywhere_in fits.is_wide (trees_of items.now) }
    ensures long { result.long ≡ fits.anywhere_in fits.is_long (trees_of items.now) }
    ensures ragged { result.ragged ≡ fits.anywhere_in fits.is_ragged (trees_of items.now) }
{
    let mut found = Flaws::NONE;
    for v in items {
        found = found.or(flaws_of(v));
    }
    found
}

#[cycle(flaws_of)]
fn flaws_of_rows<A: Allocator>(bodies: &[Body<A>]) -> Flaws
    ensures wide { result.wide ≡ fits.anywhere_in_rows fits.is_wide (rows_of bodies.now) }
    ensures long { result.long ≡ fits.anywhere_in_rows fits.is_long (rows_of bodies.now) }
    ensures ragged { result.ragged ≡ fits.anywhere_in_rows fits.is_ragged (rows_of bodies.now) }
{
    let mut found = Flaws::NONE;
    for body in bodies {
        found = found.or(flaws_of_each(body.slots.as_slice()));
    }
    found
}

// Finds the flaws of `v` itself, without those of the values below `v`.
#[tactic(auto, using(std::proofs::lemmas::Grind::common_steps, crate::specs::Views::views))]
fn own_flaws<A: Allocator>(v: &Value<A>) -> Flaws
    ensures wide { result.wide ≡ fits.is_wide (tree_of v.now) }
    ensures long { result.long ≡ fits.is_long (tree_of v.now) }
    ensures ragged { result.ragged ≡ fits.is_ragged (tree_of v.now) }
{
    Flaws {
        wide: is_wide(v),
        long: is_long(v),
        ragged: is_ragged(v),
    }
}
