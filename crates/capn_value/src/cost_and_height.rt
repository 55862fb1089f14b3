//! The cost and the height of a value, capped so that no sum wraps.
//!
//! The cost of a list is computed from its typed slice, whose numbers are in the range of the type. The functions for
//! the cost therefore also prove that a value is in range, which costs nothing at run time.

ghost use Rattle.std.specs.Prelude.{◌≡◌, ◌+◌, ◌||◌, ◌^◌, min, length};
ghost use Rattle.std.specs.Int.{div_ceil};
ghost use Rattle.capn_value.specs.TreeOf.{tree_of, trees_of, rows_of};
ghost use Rattle.capn_value.specs.Tree.{row_words};
ghost use Rattle.capn_value.specs.Cost as sizes;
ghost use Rattle.capn_value.specs.InRange.{AllBelow, InRange, EachInRange, RowsInRange};

use crate::value::{Body, Value};
use std::alloc::Allocator;

/// The greatest cost of a value that fits, in words by the plain tariff.
pub const MOST_COST: u32 = 1 << 28;

/// The greatest height of a value that fits.
pub const MOST_HEIGHT: u32 = 256;

/// One more than the bound on the cost of a value that fits, by either tariff.
const DEAR: usize = 2 * MOST_COST as usize + 2;

// Returns `a + b`, but at most `DEAR`.
fn plus(a: usize, b: usize) -> usize
    ensures { result ≡ min (a + b) sizes.dear }
{
    a.saturating_add(b).min(DEAR)
}

// Returns the number of words that the bytes `xs` need.
fn byte_words(xs: &[u8]) -> usize
    ensures words { result ≡ div_ceil (length xs.now) 8 }
    ensures in_range { AllBelow (2 ^ 8) xs.now }
{
    xs.len().div_ceil(8)
}

fn pair_words(xs: &[u16]) -> usize
    ensures words { result ≡ div_ceil (length xs.now) 4 }
    ensures in_range { AllBelow (2 ^ 16) xs.now }
{
    xs.len().div_ceil(4)
}

fn quad_words(xs: &[u32]) -> usize
    ensures words { result ≡ div_ceil (length xs.now) 2 }
    ensures in_range { AllBelow (2 ^ 32) xs.now }
{
    xs.len().div_ceil(2)
}

fn oct_words(xs: &[u64]) -> usize
    ensures words { result ≡ length xs.now }
    ensures in_range { AllBelow (2 ^ 64) xs.now }
{
    xs.len()
}

// Returns the price of the rows `bodies` of a list, without the list's tag and the values in the slots, but at most
// `DEAR`. `words` is the number of data words and slots of all rows together, but at most `DEAR`.
#[tactic(auto, using(std::proofs::lemmas::Grind::common_steps, crate::proofs::shared::Prices::prices))]
fn capped_rows_price<A: Allocator>(bodies: &[Body<A>], words: usize) -> usize
    requires { words ≡ min (row_words (rows_of bodies.now)) sizes.dear }
    ensures { result ≡ min (sizes.rows_price (rows_of bodies.now)) sizes.dear }
{
    if words == 0 {
        bodies.len().min(DEAR)
    } else {
        words
    }
}

/// Returns the cost of `v` in words, but at most `DEAR`, if each content costs `base` in addition to its size.
#[cycle(cost)]
#[tactic(auto, using(std::proofs::lemmas::Grind::common_steps, crate::specs::Views::views))]
pub fn capped_cost<A: Allocator>(v: &Value<A>, base: usize) -> usize
    ensures value { result ≡ min (sizes.cost base (tree_of v.now)) sizes.dear }
    ensures in_range { InRange (tree_of v.now) }
{
    match v {
        Value::Nil => 0,
        Value::Cap(k) => {
            let _index = *k;
            0
        }
        Value::Node(body) => {
            let slots = body.slots.as_slice();
            let words = oct_words(body.words.as_slice());
            let own = plus(base, plus(words, slots.len()));
            plus(own, capped_costs(slots, base))
        }
        Value::Voids(n) => plus(base, *n as usize),
        Value::Bits(xs) => plus(base, xs.len().div_ceil(64)),
        Value::Bytes(xs) => plus(base, byte_words(xs.as_slice())),
        Value::Pairs(xs) => plus(base, pair_words(xs.as_slice())),
        Value::Quads(xs) => plus(base, quad_words(xs.as_slice())),
        Value::Octs(xs) => plus(base, oct_words(xs.as_slice())),
        Value::Links(items) => {
            let items = items.as_slice();
            plus(plus(base, items.len()), capped_costs(items, base))
        }
        Value::Rows(bodies) => {
            let bodies = bodies.as_slice();
            let rows = measured_rows(bodies, base);
            let own = plus(plus(base, 1), capped_rows_price(bodies, rows.words));
            plus(own, rows.costs)
        }
    }
}

#[cycle(cost)]
#[tactic(auto, using(std::proofs::lemmas::Grind::common_steps, crate::specs::Views::views))]
fn capped_costs<A: Allocator>(items: &[Value<A>], base: usize) -> usize
    ensures value { result ≡ min (sizes.costs base (trees_of items.now)) sizes.dear }
    ensures in_range { EachInRange (trees_of items.now) }
{
    let mut sum = 0;
    for v in items {
        sum = plus(sum, capped_cost(v, base));
    }
    sum
}

// The number of data words and slots of all rows together, and the cost of the values in the slots, each up to `DEAR`.
#[derive(Drop)]
struct RowSums {
    words: usize,
    costs: usize,
}

#[cycle(cost)]
#[tactic(auto, using(std::proofs::lemmas::Grind::common_steps, crate::specs::Views::views))]
fn measured_rows<A: Allocator>(bodies: &[Body<A>], base: usize) -> RowSums
    ensures words { result.words ≡ min (row_words (rows_of bodies.now)) sizes.dear }
    ensures costs { result.costs ≡ min (sizes.costs_in_rows base (rows_of bodies.now)) sizes.dear }
    ensures in_range { RowsInRange (rows_of bodies.now) }
{
    let mut words = 0;
    let mut costs = 0;
    for body in bodies {
        let slots = body.slots.as_slice();
        words = plus(words, plus(oct_words(body.words.as_slice()), slots.len()));
        costs = plus(costs, capped_costs(slots, base));
    }
    RowSums { words, costs }
}

/// One more than the greatest height of a value that fits.
const TALL: u32 = MOST_HEIGHT + 1;

fn taller(below: u32) -> u32
    ensures { result ≡ min (1 + below) (sizes.most_height + 1) }
{
    below.saturating_add(1).min(TALL)
}

/// Returns the height of `v`, but at most `TALL`.
#[cycle(height)]
#[tactic(auto, using(std::proofs::lemmas::Grind::common_steps, crate::specs::Views::views))]
pub fn capped_height<A: Allocator>(v: &Value<A>) -> u32
    ensures { result ≡ min (sizes.height (tree_of v.now)) (sizes.most_height + 1) }
{
    match v {
        Value::Nil | Value::Cap(_) => 0,
        Value::Node(body) => taller(capped_greatest(body.slots.as_slice())),
        Value::Links(items) => taller(capped_greatest(items.as_slice())),
        Value::Rows(bodies) => taller(capped_greatest_in_rows(bodies.as_slice())),
        _ => 1,
    }
}

#[cycle(height)]
#[tactic(auto, using(std::proofs::lemmas::Grind::common_steps, crate::specs::Views::views))]
fn capped_greatest<A: Allocator>(items: &[Value<A>]) -> u32
    ensures { result ≡ min (sizes.greatest (trees_of items.now)) (sizes.most_height + 1) }
{
    let mut most = 0;
    for v in items {
        most = capped_height(v).max(most);
    }
    most
}

#[cycle(height)]
#[tactic(auto, using(std::proofs::lemmas::Grind::common_steps, crate::specs::Views::views))]
fn capped_greatest_in_rows<A: Allocator>(bodies: &[Body<A>]) -> u32
    ensures { result ≡ min (sizes.greatest_in_rows (rows_of bodies.now)) (sizes.most_height + 1) }
{
    let mut most = 0;
    for body in bodies {
        most = capped_greatest(body.slots.as_slice()).max(most);
    }
    most
}
