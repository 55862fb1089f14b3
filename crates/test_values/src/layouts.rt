//! Tests of the canonical bytes of handmade values.

use crate::making::*;
use crate::words::bytes_of;
use capn_canon::{LayoutFault, layout};
use capn_value::{Items, Value};
use std::alloc::Global;

/// Returns the layout of a value, or `None` if the value was not made or does not fit into a tree.
fn laid(alloc: Global, made: Made) -> Option<Result<Vec<u8>, LayoutFault>> {
    match tree(made) {
        Ok(tree) => {
            let laid = layout(alloc, &tree);
            // One call of `drop` is cheaper for the prover than fields that are dropped one by one.
            drop(tree);
            Some(laid)
        }
        Err(_) => None,
    }
}

/// Tests whether the layout of a value has the words `want`.
fn is_laid(alloc: Global, made: Made, want: &[u64]) -> bool {
    match (laid(alloc, made), bytes_of(alloc, want)) {
        (Some(Ok(bytes)), Ok(want)) => bytes.as_slice() == want.as_slice(),
        _ => false,
    }
}

/// Tests whether a value has no layout because of its first capability, which must have the index `index`.
fn is_refused(alloc: Global, made: Made, index: u32) -> bool {
    matches!(laid(alloc, made), Some(Err(LayoutFault::Capability(first))) if first == index)
}

#[test]
fn structs(rt: HostRuntime) {
    let alloc = rt.alloc();
    assert!(rt; is_laid(alloc, data(alloc, &[]), &[0xffff_fffc]));
    assert!(rt; is_laid(alloc, data(alloc, &[5]), &[0x1_0000_0000, 5]));
    assert!(rt; is_laid(alloc, data(alloc, &[5, 0]), &[0x1_0000_0000, 5]));
    // A slot that points to an empty struct is kept, and a trailing null slot is cut.
    let empty = holder(alloc, data(alloc, &[]));
    assert!(rt; is_laid(alloc, empty, &[0x1_0000_0000_0000, 0xffff_fffc]));
    assert!(rt; is_laid(alloc, holder(alloc, Ok(Value::Nil)), &[0xffff_fffc]));
    // Two equal structs are laid out separately.
    let equal = pair(alloc, data(alloc, &[9]), data(alloc, &[9]));
    let want = [0x2_0000_0000_0000, 0x1_0000_0004, 0x1_0000_0004, 9, 9];
    assert!(rt; is_laid(alloc, equal, &want));
}

#[test]
fn rows(rt: HostRuntime) {
    let alloc = rt.alloc();
    // Two rows of which the last is zero, two rows of zeros, and a list without rows.
    let some = holder(alloc, two_rows(alloc, &[7], &[0]));
    let want = [0x1_0000_0000_0000, 0x17_0000_0001, 0x1_0000_0008, 7, 0];
    assert!(rt; is_laid(alloc, some, &want));
    let zero = holder(alloc, two_rows(alloc, &[0], &[0]));
    assert!(rt; is_laid(alloc, zero, &[0x1_0000_0000_0000, 0x7_0000_0001, 8]));
    let none = holder(alloc, Ok(Value::Rows(Items::new(alloc))));
    assert!(rt; is_laid(alloc, none, &[0x1_0000_0000_0000, 0x7_0000_0001, 0]));
}

#[test]
fn lists(rt: HostRuntime) {
    let alloc = rt.alloc();
    let three = holder(alloc, text(alloc, b"abc"));
    assert!(rt;
        is_laid(
            alloc,
            three,
            &[0x1_0000_0000_0000, 0x1a_0000_0001, 0x63_6261]
        )
    );
    let ten = holder(alloc, bits(alloc, &[true; 10]));
    assert!(rt; is_laid(alloc, ten, &[0x1_0000_0000_0000, 0x51_0000_0001, 0x3ff]));
    let nulls = holder(alloc, links(alloc, Ok(Value::Nil), Ok(Value::Nil)));
    assert!(rt; is_laid(alloc, nulls, &[0x1_0000_0000_0000, 0x16_0000_0001, 0, 0]));
    // An empty list of bytes points to the place of the next object.
    let before = pair(alloc, text(alloc, &[]), data(alloc, &[9]));
    let want = [0x2_0000_0000_0000, 0x2_0000_0005, 0x1_0000_0000, 9];
    assert!(rt; is_laid(alloc, before, &want));
}

/// The words of a struct with a slot of each kind. Its list of pointers has two nulls.
const ONE_OF_EACH: [u64; 23] = [
    0xc_0001_0000_0000,
    0xab_cdef,
    0,
    0x18_0000_0029,
    0x51_0000_0025,
    0x1_0000_0025,
    0x1a_0000_0021,
    0x2_0000_0021,
    0x1b_0000_001d,
    0x14_0000_001d,
    0x15_0000_001d,
    0x16_0000_0021,
    0x7_0000_0025,
    0xffff_fffc,
    0x3fd,
    0x63_6261,
    0x102_0000_ffff,
    0x102_0304_ffff_ffff,
    0xffff_ffff_ffff_ffff,
    0x102_0304_0506_0708,
    0,
    0,
    0,
];

#[test]
fn each_kind(rt: HostRuntime) {
    let alloc = rt.alloc();
    assert!(rt; is_laid(alloc, one_of_each(alloc, Value::Nil), &ONE_OF_EACH));
    assert!(rt; is_refused(alloc, one_of_each(alloc, Value::Cap(2)), 2));
}

/// The first capability in preorder is reported, even if a capability in a later slot is less deep.
#[test]
fn capabilities(rt: HostRuntime) {
    let alloc = rt.alloc();
    let links = link(alloc, Ok(Value::Cap(7)));
    assert!(rt; is_refused(alloc, pair(alloc, links, Ok(Value::Cap(2))), 7));
    let links = link(alloc, Ok(Value::Cap(7)));
    assert!(rt; is_refused(alloc, pair(alloc, Ok(Value::Cap(2)), links), 2));
}
