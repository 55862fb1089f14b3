//! The test `same`, which compares values up to trailing zero words and trailing null slots of structs.

ghost use Rattle.std.specs.Prelude.{◌≡◌, ◌↔◌, ◌&&◌, IsTrue};
ghost use Rattle.capn_value.specs.TreeOf.{tree_of, trees_of, rows_of};
ghost use Rattle.capn_value.specs.Same.{Same};
ghost use Rattle.capn_value.specs.Tree.{is_null};
ghost use Rattle.capn_value.specs.inner.SameTest.{test, test_words, test_slots, test_each, test_rows, are_null};

use crate::value::{Body, Value};
use std::alloc::Allocator;

/// Tests whether `v` and `w` are equal up to trailing zero words and trailing null slots of structs, at every level.
/// (Page: canonicalization.)
///
/// An empty struct is not the same as null. All elements of lists are compared, and lists of different kinds differ.
/// The values need not fit into a message. Takes no memory.
#[tactic(auto, using(crate::proofs::Decided::test_decides))]
pub fn same<A: Allocator, B: Allocator>(v: &Value<A>, w: &Value<B>) -> bool
    ensures { IsTrue result ↔ Same (tree_of v.now) (tree_of w.now) }
{
    test(v, w)
}

/// Tests whether `v` is null.
#[tactic(auto, using(std::proofs::lemmas::Grind::common_steps, crate::proofs::Apart::apart))]
pub fn is_null<A: Allocator>(v: &Value<A>) -> bool
    ensures { result ≡ is_null (tree_of v.now) }
{
    match v {
        Value::Nil => true,
        _ => false,
    }
}

#[tactic(auto, using(std::proofs::lemmas::Grind::common_steps, crate::proofs::Apart::apart))]
fn are_null<A: Allocator>(items: &[Value<A>]) -> bool
    ensures { result ≡ are_null (trees_of items.now) }
{
    for v in items {
        if !is_null(v) {
            return false;
        }
    }
    true
}

// Tests whether word `i` of `a` equals word `i` of `b` for each `i`, where words past the end count as 0.
fn test_words(a: &[u64], b: &[u64]) -> bool
    ensures { result ≡ test_words a.now b.now }
{
    let n = a.len().max(b.len());
    for i in 0..n {
        if a.get(i).copied().unwrap_or(0) != b.get(i).copied().unwrap_or(0) {
            return false;
        }
    }
    true
}

#[cycle(sameness)]
#[tactic(auto, using(std::proofs::lemmas::Grind::common_steps, crate::proofs::Apart::apart))]
fn test<A: Allocator, B: Allocator>(v: &Value<A>, w: &Value<B>) -> bool
    ensures { result ≡ test (tree_of v.now) (tree_of w.now) }
{
    match (v, w) {
        (Value::Nil, Value::Nil) => true,
        (Value::Node(a), Value::Node(b)) => test_bodies(a, b),
        (Value::Voids(m), Value::Voids(n)) => *m == *n,
        (Value::Bits(xs), Value::Bits(ys)) => xs.as_slice() == ys.as_slice(),
        (Value::Bytes(xs), Value::Bytes(ys)) => xs.as_slice() == ys.as_slice(),
        (Value::Pairs(xs), Value::Pairs(ys)) => xs.as_slice() == ys.as_slice(),
        (Value::Quads(xs), Value::Quads(ys)) => xs.as_slice() == ys.as_slice(),
        (Value::Octs(xs), Value::Octs(ys)) => xs.as_slice() == ys.as_slice(),
        (Value::Links(xs), Value::Links(ys)) => test_each(xs.as_slice(), ys.as_slice()),
        (Value::Rows(xs), Value::Rows(ys)) => test_rows(xs.as_slice(), ys.as_slice()),
        (Value::Cap(j), Value::Cap(k)) => *j == *k,
        _ => false,
    }
}

#[cycle(sameness)]
#[tactic(auto, using(std::proofs::lemmas::Grind::common_steps, crate::proofs::Apart::apart))]
fn test_bodies<A: Allocator, B: Allocator>(a: &Body<A>, b: &Body<B>) -> bool
    ensures { result
        ≡ (test_words a.now.words b.now.words && test_slots (trees_of a.now.slots) (trees_of b.now.slots)) }
{
    test_words(a.words.as_slice(), b.words.as_slice())
        && test_slots(a.slots.as_slice(), b.slots.as_slice())
}

// Tests whether slot `i` of `a` is the same as slot `i` of `b` for each `i`, where slots past the end are null.
#[cycle(sameness)]
#[tactic(auto, using(std::proofs::lemmas::Grind::common_steps, crate::proofs::Apart::apart))]
fn test_slots<A: Allocator, B: Allocator>(a: &[Value<A>], b: &[Value<B>]) -> bool
    ensures { result ≡ test_slots (trees_of a.now) (trees_of b.now) }
{
    let shared = a.len().min(b.len());
    for i in 0..shared {
        if !test(&a[i], &b[i]) {
            return false;
        }
    }
    are_null(&a[shared..]) && are_null(&b[shared..])
}

#[cycle(sameness)]
#[tactic(auto, using(std::proofs::lemmas::Grind::common_steps, crate::proofs::Apart::apart))]
fn test_each<A: Allocator, B: Allocator>(a: &[Value<A>], b: &[Value<B>]) -> bool
    ensures { result ≡ test_each (trees_of a.now) (trees_of b.now) }
{
    if a.len() != b.len() {
        return false;
    }
    for i in 0..a.len() {
        if !test(&a[i], &b[i]) {
            return false;
        }
    }
    true
}

#[cycle(sameness)]
#[tactic(auto, using(std::proofs::lemmas::Grind::common_steps, crate::proofs::Apart::apart))]
fn test_rows<A: Allocator, B: Allocator>(a: &[Body<A>], b: &[Body<B>]) -> bool
    ensures { result ≡ test_rows (rows_of a.now) (rows_of b.now) }
{
    if a.len() != b.len() {
        return false;
    }
    for i in 0..a.len() {
        if !test_bodies(&a[i], &b[i]) {
            return false;
        }
    }
    true
}
