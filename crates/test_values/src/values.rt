//! Tests of values that do not fit into a tree, of the sameness of values, and of the parts that trimming keeps.

use crate::making::*;
use capn_value::{
    Body, Items, Misfit, Tariff, Tree, Value, cost, first_cap, height, kept_slots,
    kept_slots_of_rows, kept_words, kept_words_of_rows, same,
};
use std::alloc::{AllocError, Global};
use std::process::Abort;

/// Checks that a value fits into a tree if `want` is `None`, and otherwise is refused with the misfit `want`.
fn expect(rt: &impl Abort, made: Made, want: Option<Misfit>) {
    match tree(made) {
        Ok(tree) => {
            // One call of `drop` is cheaper for the prover than fields that are dropped one by one.
            drop(tree);
            assert!(rt; want.is_none());
        }
        Err(misfit) => assert!(rt; misfit.is_some() && misfit == want),
    }
}

/// Checks that a value fits into a tree, and has a height of `levels` and a cost of `words`.
fn expect_sizes(rt: &impl Abort, made: Made, levels: u32, words: u32) {
    match tree(made) {
        Ok(tree) => {
            let sizes = (height(&tree), cost(&tree, Tariff::Strict));
            drop(tree);
            assert!(rt; sizes == (levels, words));
        }
        Err(_) => assert!(rt; false, "the value doesn't fit"),
    }
}

/// Checks that a comparison of two values, in both orders, gives `want`.
fn expect_same(rt: &impl Abort, one: Made, other: Made, want: bool) {
    match (one, other) {
        (Ok(one), Ok(other)) => {
            let are_same = (same(&one, &other), same(&other, &one));
            drop(one);
            drop(other);
            assert!(rt; are_same == (want, want));
        }
        _ => assert!(rt; false, "out of memory"),
    }
}

fn of_words(alloc: Global, count: usize) -> Made {
    let words = vec![in alloc; 0; count]?;
    data(alloc, words.as_slice())
}

fn nulls(alloc: Global, count: u32) -> Result<Vec<Value>, AllocError> {
    let mut slots = Vec::new(alloc);
    for _ in 0..count {
        slots.push(Value::Nil)?;
    }
    Ok(slots)
}

fn of_slots(alloc: Global, count: u32) -> Made {
    Ok(Value::Node(body(alloc, &[], nulls(alloc, count)?)?))
}

/// Returns a chain of `count` structs, each in the only slot of the one before.
fn nested(alloc: Global, count: u32) -> Made {
    let mut value = data(alloc, &[])?;
    for _ in 1..count {
        value = holder(alloc, Ok(value))?;
    }
    Ok(value)
}

/// Returns two rows, only the first of which has a slot.
fn slots_in_one_row(alloc: Global) -> Made {
    let slot = nulls(alloc, 1)?;
    let rows = two_bodies(
        alloc,
        body(alloc, &[], slot),
        body(alloc, &[], Vec::new(alloc)),
    )?;
    Ok(Value::Rows(rows))
}

#[test]
fn wide_and_ragged(rt: HostRuntime) {
    let alloc = rt.alloc();
    expect(&rt, of_words(alloc, 65_536), Some(Misfit::Wide));
    expect(&rt, of_words(alloc, 65_535), None);
    expect(&rt, of_slots(alloc, 65_536), Some(Misfit::Wide));
    expect(&rt, of_slots(alloc, 65_535), None);
    let rows = two_rows(alloc, &[0], &[]);
    expect(&rt, holder(alloc, rows), Some(Misfit::Ragged));
    expect(
        &rt,
        holder(alloc, slots_in_one_row(alloc)),
        Some(Misfit::Ragged),
    );
}

/// Checks that a value fits into a tree, and costs `words` by the plain tariff.
fn expect_plain(rt: &impl Abort, made: Made, words: u32) {
    match tree(made) {
        Ok(tree) => {
            let paid = cost(&tree, Tariff::Plain);
            drop(tree);
            assert!(rt; paid == words);
        }
        Err(_) => assert!(rt; false, "the value doesn't fit"),
    }
}

/// Returns a struct with a list of `count` elements without bits.
fn voids(alloc: Global, count: u32) -> Made {
    holder(alloc, Ok(Value::Voids(count)))
}

#[test]
fn long_costly_and_tall(rt: HostRuntime) {
    let alloc = rt.alloc();
    for (count, misfit) in [
        (536_870_912, Misfit::Long),
        (536_870_911, Misfit::Costly),
        (268_435_456, Misfit::Costly),
    ] {
        expect(&rt, voids(alloc, count), Some(misfit));
    }
    for count in 268_435_453..=268_435_455 {
        expect_sizes(&rt, voids(alloc, count), 2, count + 3);
    }
    for count in 268_435_453..=268_435_455 {
        expect_plain(&rt, voids(alloc, count), count + 1);
    }
    expect(&rt, nested(alloc, 257), Some(Misfit::Tall));
    // A chain of 255 structs with one slot each, and a last one without.
    expect_sizes(&rt, nested(alloc, 256), 256, 511);
}

#[test]
fn roots(rt: HostRuntime) {
    expect_sizes(&rt, Ok(Value::Voids(1)), 1, 2);
    expect(&rt, Ok(Value::Cap(0)), Some(Misfit::BadRoot));
    expect_sizes(&rt, Ok(Value::Nil), 0, 0);
    match tree(Ok(Value::Nil)) {
        Ok(null) => assert!(rt; matches!(null.into_value(), Value::Nil)),
        Err(_) => assert!(rt; false, "null doesn't fit"),
    }
    let capability: Value = Value::Cap(7);
    match Tree::new(capability) {
        Err((value, _)) => assert!(rt; matches!(value, Value::Cap(7))),
        Ok(_) => assert!(rt; false, "a capability fits as a root"),
    }
}

/// Returns a struct with a word, a trailing zero word and a trailing null slot.
fn trailing(alloc: Global) -> Made {
    Ok(Value::Node(body(alloc, &[5, 0], nulls(alloc, 1)?)?))
}

#[test]
fn sameness(rt: HostRuntime) {
    let alloc = rt.alloc();
    expect_same(&rt, trailing(alloc), data(alloc, &[5]), true);
    let one = holder(alloc, data(alloc, &[]));
    expect_same(&rt, one, data(alloc, &[]), false);
    let zeros = two_rows(alloc, &[0], &[0]);
    expect_same(&rt, zeros, two_rows(alloc, &[], &[]), true);
    let null = link(alloc, Ok(Value::Nil));
    expect_same(&rt, null, Ok(Value::Links(Items::new(alloc))), false);
    expect_same(&rt, Ok(Value::Voids(0)), text(alloc, &[]), false);
}

/// Checks that the first capability of a value is `want`.
fn expect_capability(rt: &impl Abort, made: Made, want: Option<u32>) {
    match made {
        Ok(value) => {
            let capability = first_cap(&value);
            drop(value);
            assert!(rt; capability == want);
        }
        Err(_) => assert!(rt; false, "out of memory"),
    }
}

#[test]
fn first_capability(rt: HostRuntime) {
    let alloc = rt.alloc();
    let links = link(alloc, Ok(Value::Cap(7)));
    expect_capability(&rt, pair(alloc, links, Ok(Value::Cap(2))), Some(7));
    expect_capability(&rt, data(alloc, &[]), None);
    expect_capability(&rt, one_of_each(alloc, Value::Cap(2)), Some(2));
}

/// Returns two rows: one with a zero word after a word, and one with a null slot after a capability.
fn kept_rows(alloc: Global) -> Result<Items<Body>, AllocError> {
    let mut slots = nulls(alloc, 1)?;
    slots.push(Value::Cap(3))?;
    slots.push(Value::Nil)?;
    let first = body(alloc, &[0, 5, 0], Vec::new(alloc));
    two_bodies(alloc, first, body(alloc, &[1], slots))
}

/// Tests whether trimming keeps two words and two slots of each of two `rows`.
fn are_kept(rows: &[Body]) -> bool {
    match rows {
        [_, last] => kept_slots(last.slots.as_slice()) == 2
            && kept_words_of_rows(rows) == 2
            && kept_slots_of_rows(rows) == 2,
        _ => false,
    }
}

#[test]
fn kept_lengths(rt: HostRuntime) {
    assert!(rt; kept_words(&[0, 5, 0]) == 2);
    match kept_rows(rt.alloc()) {
        Ok(rows) => {
            let is_right = are_kept(rows.as_slice());
            drop(rows);
            assert!(rt; is_right);
        }
        Err(_) => assert!(rt; false, "out of memory"),
    }
}

#[test]
fn nulls_are_not_kept(rt: HostRuntime) {
    match nulls(rt.alloc(), 65_535) {
        Ok(nulls) => {
            let kept = kept_slots(&nulls);
            drop(nulls);
            assert!(rt; kept == 0);
        }
        Err(_) => assert!(rt; false, "out of memory"),
    }
}

fn seven_and_eight(alloc: Global) -> Result<Items<u16>, AllocError> {
    let mut items = Items::new(alloc);
    items.push(7)?;
    items.push(8)?;
    Ok(items)
}

#[test]
fn items(rt: HostRuntime) {
    let none: Items<u16> = Items::new(rt.alloc());
    match seven_and_eight(rt.alloc()) {
        Ok(items) => {
            assert!(rt; none.is_empty() && !items.is_empty() && items.len() == 2);
            assert!(rt; items.into_vec().as_slice() == [7, 8].as_slice());
        }
        Err(_) => assert!(rt; false, "out of memory"),
    }
}
