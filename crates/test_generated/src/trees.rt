//! Tests of the layouts of a thousand values without capabilities, read as bare messages by all calls.

use crate::texts::value_of;
use capn_canon::{Form, canonicalise, is_canonical, layout};
use capn_value::{Tree, first_cap, same};
use capn_walk::{Limits, walk};
use capn_words::Bare;
use std::alloc::Global;
use std::test::Fail;

// Returns the value of the message of `seed`, unless it has a capability.
fn value_without_capability(alloc: Global, seed: u64) -> Result<Option<Tree>, Fail> {
    Ok(without_capability(value_of(alloc, seed)?))
}

// Returns `tree`, unless its value has a capability.
fn without_capability(tree: Tree) -> Option<Tree> {
    if first_cap(tree.value()).is_some() {
        drop(tree);
        return None;
    }
    Some(tree)
}

// Tests whether the walk of the canonical `bytes` finds the value of `tree`, and whether the layout of that value is
// `bytes` again.
fn is_walked(alloc: Global, tree: &Tree, bytes: &[u8]) -> bool {
    let Ok(space) = Bare::new(bytes) else {
        return false;
    };
    match walk(alloc, &space, Limits::usual()) {
        Ok(walked) => {
            let is_same = same(tree.value(), walked.tree.value());
            let again = layout(alloc, &walked.tree);
            // One call of `drop` is cheaper for the prover than fields that are dropped one by one.
            drop(walked);
            is_same && matches!(again, Ok(laid) if laid.as_slice() == bytes)
        }
        Err(_) => false,
    }
}

// Tests whether `canonicalise` and `is_canonical` both find `bytes` canonical.
fn is_own(alloc: Global, bytes: &[u8]) -> bool {
    let is_equal = match canonicalise(alloc, Form::Bare, bytes, Limits::usual()) {
        Ok(canonical) => canonical.bytes.as_slice() == bytes,
        Err(_) => false,
    };
    is_equal && is_canonical(alloc, bytes, Limits::usual()) == Ok(true)
}

// Tests whether every call reads the layout of `tree` as a bare message with the value of `tree`.
fn is_read_back(alloc: Global, tree: &Tree) -> bool {
    match layout(alloc, tree) {
        Ok(bytes) => is_walked(alloc, tree, bytes.as_slice()) && is_own(alloc, bytes.as_slice()),
        Err(_) => false,
    }
}

// Every call reads the layouts of a thousand values back, and none runs out of memory.
#[test]
fn layouts_of_a_thousand_values(rt: HostRuntime) -> Result<(), Fail> {
    let mut values = 0u64;
    for seed in 0..1_200u64 {
        if let Some(tree) = value_without_capability(rt.alloc(), seed)? {
            let is_right = is_read_back(rt.alloc(), &tree);
            drop(tree);
            assert!(rt; is_right, "at seed {seed}");
            values = values.saturating_add(1);
        }
    }
    assert!(rt; values >= 1_000, "{values}");
    Ok(())
}
