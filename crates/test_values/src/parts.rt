//! Tests of small parts of messages and values: tariffs, trees, entries of indexes, and buffers with holes.

use crate::making::{Made, data, holder};
use capn_layout::Patch;
use capn_value::{Tariff, Tree, same};
use capn_walk::{Entry, Kind};
use std::test::Fail;

#[test]
fn costs_beside_sizes(rt: HostRuntime) {
    assert!(rt; Tariff::Strict.base() == 1);
    assert!(rt; Tariff::Plain.base() == 0);
}

#[test]
fn a_tree_of_a_value_that_fits(rt: HostRuntime) -> Result<(), Fail> {
    let alloc = rt.alloc();
    let made: Made = holder(alloc, data(alloc, &[7]));
    let other = holder(alloc, data(alloc, &[7]))?;
    let tree = Tree::of_fit(made?);
    match Tree::new(other) {
        Ok(tested) => {
            assert!(rt; same(tree.value(), tested.value()));
        }
        Err(_) => return Err(Fail::new("the value doesn't fit")),
    }
    Ok(())
}

#[test]
fn the_entry_of_a_null_slot(rt: HostRuntime) {
    let null = Entry {
        start: 0,
        segment: 0,
        count: 0,
        span: 1,
        words: 0,
        slots: 0,
        kind: Kind::Nil,
    };
    assert!(rt; Entry::nil() == null);
    assert!(rt; Entry::bytes() == 24);
}

/// Words, a hole and bytes are appended, and the hole is filled.
#[test]
fn a_buffer_with_a_hole(rt: HostRuntime) -> Result<(), Fail> {
    let mut patch = Patch::new(rt.alloc());
    assert!(rt; patch.len() == 0);
    patch.push(1)?;
    let hole = patch.leave(1)?;
    assert!(rt; hole == 1);
    // Nine bytes take two words.
    patch.extend_bytes(&[1, 2, 3, 4, 5, 6, 7, 8, 9])?;
    assert!(rt; patch.len() == 4);
    patch.fill(hole, 0x0807_0605_0403_0201);
    let Ok(bytes) = patch.finish() else {
        return Err(Fail::new("out of memory"));
    };
    let want = [
        1, 0, 0, 0, 0, 0, 0, 0, 1, 2, 3, 4, 5, 6, 7, 8, 1, 2, 3, 4, 5, 6, 7, 8, 9, 0, 0, 0, 0, 0,
        0, 0,
    ];
    assert!(rt; bytes.as_slice() == want.as_slice());
    Ok(())
}
