//! Tests of canonical checks and surveys that take no memory.

use crate::short_runs::accounted;
use crate::subject::{chain, limits};
use capn_canon::{Form, Refusal, is_canonical};
use capn_walk::Fault;
use std::alloc::Global;
use std::process::Abort;
use std::test::Fail;
use test_allocator::Refusing;

/// Tests whether the chain `deep` of 63 structs is found canonical, with the right price and visits.
fn is_told(heap: &Refusing<Global>, deep: &[u8]) -> bool {
    is_canonical(heap, deep, limits(64)) == Ok(true)
        && accounted(heap, Form::Bare, deep, limits(64)) == Ok((253, 127, None))
}

/// Tests whether the chain `deeper` of 64 structs is refused as too deep at its last object, as it is with enough
/// memory.
fn is_too_deep(heap: &Refusing<Global>, alloc: Global, deeper: &[u8]) -> bool {
    let is_stopped = match is_canonical(heap, deeper, limits(64)) {
        Err(Refusal::Walk(stopped)) => stopped.fault == Fault::TooDeep
            && stopped.place.word == 127
            && stopped.paid == 192
            && stopped.visits == 65,
        _ => false,
    };
    let refusal = accounted(heap, Form::Bare, deeper, limits(64));
    is_stopped && refusal == accounted(alloc, Form::Bare, deeper, limits(64))
}

/// The default depth of 64 objects is checked without memory, and the first deeper object is refused. If the limit
/// allows that object, the bytes are found canonical without memory, too.
#[test]
fn no_memory_for_64_objects(rt: HostRuntime) -> Result<(), Fail> {
    let deep = chain(rt.alloc(), 63)?;
    let deeper = chain(rt.alloc(), 64)?;
    let heap = Refusing::nth(rt.alloc(), 0);
    heap.refuse_each();
    assert!(rt; is_told(&heap, deep.as_slice()));
    assert!(rt; is_too_deep(&heap, rt.alloc(), deeper.as_slice()));
    assert!(rt; is_canonical(&heap, deeper.as_slice(), limits(256)) == Ok(true));
    assert!(rt; heap.count() == 0);
    Ok(())
}
