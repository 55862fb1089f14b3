//! The flaws that a value has by itself, apart from the values below it.

ghost use Rattle.std.specs.Prelude.{◌≡◌, ◌||◌, length, nat_lt};
ghost use Rattle.capn_value.specs.TreeOf.{tree_of, trees_of, rows_of};
ghost use Rattle.capn_value.specs.Tree as trees;
ghost use Rattle.capn_value.specs.Fits as fits;

use crate::value::{Body, Value};
use std::alloc::Allocator;

/// Tests whether `v` is a struct that has more words or slots than a pointer can count, or a list with such a row.
#[tactic(auto, using(std::proofs::lemmas::Grind::common_steps, crate::specs::Views::views))]
pub fn is_wide<A: Allocator>(v: &Value<A>) -> bool
    ensures { result ≡ fits.is_wide (tree_of v.now) }
{
    match v {
        Value::Node(body) => is_wide_body(body),
        Value::Rows(bodies) => has_wide_row(bodies.as_slice()),
        _ => false,
    }
}

#[tactic(auto, using(std::proofs::lemmas::Grind::common_steps, crate::specs::Views::views))]
fn is_wide_body<A: Allocator>(body: &Body<A>) -> bool
    ensures { result ≡ fits.is_wide_body body.now.words (trees_of body.now.slots) }
{
    body.words.len() > 65535 || body.slots.len() > 65535
}

#[tactic(auto, using(std::proofs::lemmas::Grind::common_steps, crate::specs::Views::views))]
fn has_wide_row<A: Allocator>(bodies: &[Body<A>]) -> bool
    ensures { result ≡ fits.has_wide_row (rows_of bodies.now) }
{
    for body in bodies {
        if is_wide_body(body) {
            return true;
        }
    }
    false
}

/// The greatest number of elements that a list pointer can count.
const MOST_ELEMENTS: usize = 536_870_911;

/// Tests whether `v` is a list with more elements, or with more words in all rows, than a list pointer can count.
#[tactic(auto, using(std::proofs::lemmas::Grind::common_steps, crate::specs::Views::views))]
pub fn is_long<A: Allocator>(v: &Value<A>) -> bool
    ensures { result ≡ fits.is_long (tree_of v.now) }
{
    match v {
        Value::Nil | Value::Node(_) | Value::Cap(_) => false,
        Value::Voids(n) => *n as usize > MOST_ELEMENTS,
        Value::Bits(xs) => xs.len() > MOST_ELEMENTS,
        Value::Bytes(xs) => xs.len() > MOST_ELEMENTS,
        Value::Pairs(xs) => xs.len() > MOST_ELEMENTS,
        Value::Quads(xs) => xs.len() > MOST_ELEMENTS,
        Value::Octs(xs) => xs.len() > MOST_ELEMENTS,
        Value::Links(items) => items.len() > MOST_ELEMENTS,
        Value::Rows(bodies) => { bodies.len() > MOST_ELEMENTS || has_long_rows(bodies.as_slice()) }
    }
}

// Tests whether the rows `bodies` together have more words than a list may have.
#[tactic(auto, using(std::proofs::lemmas::Grind::common_steps, crate::specs::Views::views))]
fn has_long_rows<A: Allocator>(bodies: &[Body<A>]) -> bool
    ensures { result ≡ nat_lt 536870911 (trees.row_words (rows_of bodies.now)) }
{
    let mut words = 0usize;
    for body in bodies {
        words = words
            .saturating_add(body.words.len())
            .saturating_add(body.slots.len());
    }
    words > MOST_ELEMENTS
}

/// Tests whether `v` is a composite list with two rows that differ in their number of words or of slots.
#[tactic(auto, using(std::proofs::lemmas::Grind::common_steps, crate::specs::Views::views))]
pub fn is_ragged<A: Allocator>(v: &Value<A>) -> bool
    ensures { result ≡ fits.is_ragged (tree_of v.now) }
{
    match v {
        Value::Rows(bodies) => are_ragged(bodies.as_slice()),
        _ => false,
    }
}

#[tactic(auto, using(std::proofs::lemmas::Grind::common_steps, crate::specs::Views::views))]
fn are_ragged<A: Allocator>(bodies: &[Body<A>]) -> bool
    ensures { result ≡ fits.is_ragged (trees.rows (rows_of bodies.now)) }
{
    match bodies {
        [] => false,
        [first, rest @ ..] => !are_even(rest, first.words.len(), first.slots.len()),
    }
}

// Tests whether each of the rows `bodies` has `words` words and `slots` slots.
#[tactic(auto, using(std::proofs::lemmas::Grind::common_steps, crate::specs::Views::views))]
fn are_even<A: Allocator>(bodies: &[Body<A>], words: usize, slots: usize) -> bool
    ensures { result ≡ fits.are_even words slots (rows_of bodies.now) }
{
    for body in bodies {
        if body.words.len() != words || body.slots.len() != slots {
            return false;
        }
    }
    true
}
