//! A test of many framers, each waiting for a message of the greatest size.

use capn_stream::{FrameFault, Framer};
use std::alloc::{AllocError, Global};
use std::process::Abort;
use std::test::Fail;
use test_allocator::Refusing;

/// Returns a framer that has read the table of a message of 2^28 words, and no more.
fn waiting<'a>(rt: &impl Abort, heap: &'a Refusing<Global>) -> Framer<&'a Refusing<Global>> {
    let mut framer = Framer::new(heap, 268_435_456);
    let fed = framer.feed(&[0, 0, 0, 0, 0, 0, 0, 0x10]);
    assert!(rt; fed == Ok(8));
    framer
}

/// Returns `count` framers, each of which waits for a message of 2^28 words.
fn waiting_each<'a>(
    rt: &impl Abort,
    alloc: Global,
    heap: &'a Refusing<Global>,
    count: u32,
) -> Result<Vec<Framer<&'a Refusing<Global>>>, AllocError> {
    let mut framers = Vec::new(alloc);
    for _ in 0..count {
        framers.push(waiting(rt, heap))?;
    }
    Ok(framers)
}

/// Tests whether each of `framers` runs out of memory when it is fed 256 bytes.
fn are_without_room(framers: &mut [Framer<&Refusing<Global>>]) -> bool {
    for framer in framers {
        if framer.feed(&[0; 256]) != Err(FrameFault::Memory) {
            return false;
        }
    }
    true
}

/// No framer takes memory for the words that a table announces: once allocations are refused, none has room for 256
/// bytes.
#[test]
fn many_framers_that_wait_for_the_greatest_message(rt: HostRuntime) -> Result<(), Fail> {
    let heap = Refusing::nth(rt.alloc(), 0);
    let mut framers = waiting_each(&rt, rt.alloc(), &heap, 65_536)?;
    heap.refuse_each();
    assert!(rt; framers.len() == 65_536 && are_without_room(&mut framers));
    Ok(())
}
