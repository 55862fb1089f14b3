//! Tests of the memory for the list of `pick --only`.

use capn_tool::{Limits, Only, StreamForm, pick_only};
use capn_words::Watched;
use std::alloc::{AllocError, Global};
use std::test::Fail;
use test_allocator::Refusing;

/// Three frames of a null root.
const FRAMES: [u8; 48] = [
    0, 0, 0, 0, 1, 0, 0, 0, 0, 0, 0, 0, 0, 0, 0, 0, 0, 0, 0, 0, 1, 0, 0, 0, 0, 0, 0, 0, 0, 0, 0, 0,
    0, 0, 0, 0, 1, 0, 0, 0, 0, 0, 0, 0, 0, 0, 0, 0,
];

/// Returns the number of bytes that a pick by `list` writes, if it ends with `Ok` and no allocation is above `most`
/// bytes.
fn picked_within(alloc: Global, list: &str, most: usize) -> Option<usize> {
    let heap = Refusing::nth(alloc, 0);
    heap.refuse_above(most);
    let only = Only {
        form: StreamForm::Stream,
        limits: Limits::usual(),
        list,
    };
    let mut reader = Watched::new(&FRAMES[..]);
    let mut writer = Watched::new(Vec::new(alloc));
    match pick_only(&heap, &only, &mut reader, &mut writer) {
        Ok(()) => Some(writer.into_inner().len()),
        Err(_) => None,
    }
}

/// Returns the list of the first `count` odd numbers.
fn odd(alloc: Global, count: u32) -> Result<String, AllocError> {
    let mut list = String::from_str(alloc, "1")?;
    for number in 1..count {
        let next = format!(in alloc; ",{}", 2 * number as u64 + 1)?;
        list.push_str(next.as_str())?;
    }
    Ok(list)
}

/// A list takes 16 to 32 bytes for each of its ranges. Code that takes the room of the longest list at once makes an
/// allocation of mebibytes.
#[test]
fn a_list_asks_for_the_room_of_its_ranges(rt: HostRuntime) -> Result<(), Fail> {
    assert!(rt; picked_within(rt.alloc(), "3", 256) == Some(16));
    let thousand = odd(rt.alloc(), 1_000)?;
    assert!(rt; picked_within(rt.alloc(), thousand.as_str(), 32_000) == Some(32));
    Ok(())
}
