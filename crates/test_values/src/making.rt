//! Calls that make values by hand. They take results of other such calls, so that the last call reports a refused
//! allocation.

use capn_value::{Body, Items, Misfit, Tree, Value};
use std::alloc::{AllocError, Global};

/// A value, or the error that an allocation was refused.
pub(crate) type Made = Result<Value, AllocError>;

/// Returns the body of a struct or a row, with the data `words` and the `slots`.
pub(crate) fn body(alloc: Global, words: &[u64], slots: Vec<Value>) -> Result<Body, AllocError> {
    Ok(Body {
        words: Items::from_slice(alloc, words)?,
        slots: Items::from_vec(slots),
    })
}

/// Returns a struct with the data `words` and no slots.
pub(crate) fn data(alloc: Global, words: &[u64]) -> Made {
    Ok(Value::Node(body(alloc, words, Vec::new(alloc))?))
}

pub(crate) fn holder(alloc: Global, slot: Made) -> Made {
    let slots = with(Ok(Vec::new(alloc)), slot)?;
    Ok(Value::Node(body(alloc, &[], slots)?))
}

pub(crate) fn pair(alloc: Global, first: Made, second: Made) -> Made {
    let slots = with(with(Ok(Vec::new(alloc)), first), second)?;
    Ok(Value::Node(body(alloc, &[], slots)?))
}

/// Returns a list of one pointer.
pub(crate) fn link(alloc: Global, element: Made) -> Made {
    let elements = with(Ok(Vec::new(alloc)), element)?;
    Ok(Value::Links(Items::from_vec(elements)))
}

/// Returns a list of two pointers.
pub(crate) fn links(alloc: Global, first: Made, second: Made) -> Made {
    let elements = with(with(Ok(Vec::new(alloc)), first), second)?;
    Ok(Value::Links(Items::from_vec(elements)))
}

pub(crate) fn two_bodies(
    alloc: Global,
    first: Result<Body, AllocError>,
    second: Result<Body, AllocError>,
) -> Result<Items<Body>, AllocError> {
    let rows = row(Ok(Items::new(alloc)), first);
    row(rows, second)
}

/// Returns `rows` with `body` appended.
fn row(
    rows: Result<Items<Body>, AllocError>,
    body: Result<Body, AllocError>,
) -> Result<Items<Body>, AllocError> {
    let mut rows = rows?;
    rows.push(body?)?;
    Ok(rows)
}

/// Returns two rows with the data words `first` and `second`, and no slots.
pub(crate) fn two_rows(alloc: Global, first: &[u64], second: &[u64]) -> Made {
    let first = body(alloc, first, Vec::new(alloc));
    let second = body(alloc, second, Vec::new(alloc));
    Ok(Value::Rows(two_bodies(alloc, first, second)?))
}

pub(crate) fn text(alloc: Global, bytes: &[u8]) -> Made {
    Ok(Value::Bytes(Items::from_slice(alloc, bytes)?))
}

/// Returns `slots` with `slot` appended. Lists of slots are made by such calls, because a function with many `?` is
/// slow to prove.
fn with(slots: Result<Vec<Value>, AllocError>, slot: Made) -> Result<Vec<Value>, AllocError> {
    let mut slots = slots?;
    slots.push(slot?)?;
    Ok(slots)
}

pub(crate) fn bits(alloc: Global, bits: &[bool]) -> Made {
    Ok(Value::Bits(Items::from_slice(alloc, bits)?))
}

fn pairs(alloc: Global, numbers: &[u16]) -> Made {
    Ok(Value::Pairs(Items::from_slice(alloc, numbers)?))
}

fn quads(alloc: Global, numbers: &[u32]) -> Made {
    Ok(Value::Quads(Items::from_slice(alloc, numbers)?))
}

fn octs(alloc: Global, numbers: &[u64]) -> Made {
    Ok(Value::Octs(Items::from_slice(alloc, numbers)?))
}

/// Ten bits, all 1 except the second.
const BITS: [bool; 10] = [true, false, true, true, true, true, true, true, true, true];

/// Returns slots that are null or have lists without pointers.
fn plain_slots(alloc: Global) -> Result<Vec<Value>, AllocError> {
    let slots = with(Ok(Vec::new(alloc)), Ok(Value::Nil));
    let slots = with(slots, Ok(Value::Voids(3)));
    let slots = with(slots, bits(alloc, &BITS));
    let slots = with(slots, bits(alloc, &[]));
    let slots = with(slots, text(alloc, b"abc".as_slice()));
    let slots = with(slots, text(alloc, &[]));
    let slots = with(slots, pairs(alloc, &[0xffff, 0, 0x102]));
    let slots = with(slots, quads(alloc, &[0xffff_ffff, 0x102_0304]));
    with(
        slots,
        octs(alloc, &[0xffff_ffff_ffff_ffff, 0x102_0304_0506_0708]),
    )
}

/// Returns a struct with a slot of each kind, whose list of pointers has `element` and null.
pub(crate) fn one_of_each(alloc: Global, element: Value) -> Made {
    let slots = plain_slots(alloc);
    let slots = with(slots, links(alloc, Ok(element), Ok(Value::Nil)));
    let slots = with(slots, Ok(Value::Rows(Items::new(alloc))));
    let slots = with(slots, data(alloc, &[]))?;
    Ok(Value::Node(body(alloc, &[0xab_cdef], slots)?))
}

/// Returns the value as a tree. The error is its misfit, or `None` if an allocation was refused.
pub(crate) fn tree(made: Made) -> Result<Tree, Option<Misfit>> {
    match made {
        Ok(value) => match Tree::new(value) {
            Ok(tree) => Ok(tree),
            Err((_, misfit)) => Err(Some(misfit)),
        },
        Err(_) => Err(None),
    }
}
