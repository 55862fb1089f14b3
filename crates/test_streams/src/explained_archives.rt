//! Tests of the work and the memory of `explain` for the messages of an archive.

use capn_canon::{Form, Limits};
use capn_explain::{Explain, run_explain};
use capn_serve::RunFault;
use capn_words::Watched;
use std::alloc::{AllocError, Allocator, Global};
use std::test::Fail;
use test_allocator::Refusing;

/// Appends the frame of one segment with `words` to `archive`.
fn add_frame(archive: &mut Vec<u8>, words: &[u64]) -> Result<(), AllocError> {
    archive.extend_from_slice(&((words.len() as u64) << 32).to_le_bytes())?;
    for word in words {
        archive.extend_from_slice(&word.to_le_bytes())?;
    }
    Ok(())
}

/// Returns an archive of `count` messages, each with `words`.
fn archive_of(alloc: Global, words: &[u64], count: u32) -> Result<Vec<u8>, AllocError> {
    let mut archive = Vec::new(alloc);
    for _ in 0..count {
        add_frame(&mut archive, words)?;
    }
    Ok(archive)
}

/// Explains the message `number`, or the first refused one, with the allocator `heap`. Returns the result of the run,
/// and its output.
fn explained<A: Allocator + Copy>(
    alloc: Global,
    heap: A,
    number: Option<u64>,
    archive: &[u8],
) -> (Result<(), RunFault>, Vec<u8>) {
    let order = Explain {
        form: Form::Stream,
        limits: Limits::new(8_388_608, 268_435_456, 256).unwrap_or(Limits::usual()),
        number,
    };
    let mut reader = Watched::new(archive);
    let mut writer = Watched::new(Vec::new(alloc));
    let ending = run_explain(heap, order, &mut reader, &mut writer);
    (ending, writer.into_inner())
}

/// Returns the pointer to a struct of two slots after the next `between` words.
fn pair(between: u64) -> u64 {
    0x2_0000_0000_0000 | between << 2
}

/// Returns the words of a message with 63 levels of structs below its root. Each struct has two slots. Both point to
/// the next level, or are null in the last. The walk of the message exceeds every budget.
fn costly(alloc: Global) -> Result<Vec<u64>, AllocError> {
    let mut words = Vec::new(alloc);
    words.push(pair(0))?;
    for _ in 0..63u32 {
        words.push(pair(1))?;
        words.push(pair(0))?;
    }
    words.push(0)?;
    words.push(0)?;
    Ok(words)
}

/// No message before the one with the given number is walked. Code that walks these 5,000 messages makes 2^27 visits
/// for each, which takes an hour. Otherwise the test takes a second.
#[test]
fn no_message_before_the_number_is_walked(rt: HostRuntime) -> Result<(), Fail> {
    let words = costly(rt.alloc())?;
    let mut archive = archive_of(rt.alloc(), words.as_slice(), 5_000)?;
    add_frame(&mut archive, &[0])?;
    let (ending, text) = explained(rt.alloc(), rt.alloc(), Some(5_001), archive.as_slice());
    let lines = b"message: 5001 at 5200000\n\
segments: 1 of 1 words\n\
accepted: paid 0 visits 1 depth 0\n\
canonical: yes\n";
    assert!(rt; ending == Ok(()) && text.as_slice() == lines.as_slice());
    Ok(())
}

/// Counts the allocations of a run over `archive` that ends with `Ok` and writes something.
fn growths(alloc: Global, number: Option<u64>, archive: &[u8]) -> Option<u64> {
    let heap = Refusing::nth(alloc, 0);
    let (ending, text) = explained(alloc, &heap, number, archive);
    if ending == Ok(()) && !text.is_empty() {
        Some(heap.count())
    } else {
        None
    }
}

/// The words of a struct whose only word is zero, which is not canonical.
const ZERO: [u64; 2] = [0x1_0000_0000, 0];

/// No message after the first is laid out. Code that lays out each of the 2,000 messages takes at least one allocation
/// for each.
#[test]
fn no_later_message_is_laid_out(rt: HostRuntime) -> Result<(), Fail> {
    let two = archive_of(rt.alloc(), &ZERO, 2)?;
    let many = archive_of(rt.alloc(), &ZERO, 2_000)?;
    let of_two = growths(rt.alloc(), None, two.as_slice());
    let of_many = growths(rt.alloc(), None, many.as_slice());
    let is_right = match (of_two, of_many) {
        (Some(two), Some(many)) => many <= two.saturating_add(100),
        _ => false,
    };
    assert!(rt; is_right, "{of_two:?} {of_many:?}");
    Ok(())
}

/// The number of structs in a chain, each in the slot of the one before.
const LINKS: u64 = 200;

/// Returns the pointer to a struct of one slot after the next `between` words.
fn link(between: u64) -> u64 {
    0x1_0000_0000_0000 | between << 2
}

/// The pointer to an empty struct.
const EMPTY: u64 = 0xffff_fffc;

/// Returns the pointer to a list of three bytes after the next `between` words.
fn list(between: u64) -> u64 {
    0x1a_0000_0001 | between << 2
}

/// A word with three bytes and a byte of padding that is not zero.
const PADDED: u64 = 0x9_63_62_61;

/// Appends the structs of the chain to `words`.
fn add_chain(words: &mut Vec<u64>) -> Result<(), AllocError> {
    for _ in 1..LINKS {
        words.push(link(0))?;
    }
    words.push(EMPTY)?;
    Ok(())
}

/// Returns the frame of a struct of two slots, one with the chain and one with the list of `PADDED`. The list is in the
/// first slot if `comes_first`, and otherwise in the last.
fn chain_and_list(alloc: Global, comes_first: bool) -> Result<Vec<u8>, AllocError> {
    let mut words = Vec::new(alloc);
    words.push(pair(0))?;
    if comes_first {
        words.push(list(1))?;
        words.push(link(1))?;
        words.push(PADDED)?;
        add_chain(&mut words)?;
    } else {
        words.push(link(1))?;
        words.push(list(LINKS))?;
        add_chain(&mut words)?;
        words.push(PADDED)?;
    }
    let mut frame = Vec::new(alloc);
    add_frame(&mut frame, words.as_slice())?;
    Ok(frame)
}

/// The word that differs is found without a walk of the values before it. Code that walks these values goes down the
/// chain, and needs six more allocations for its path of 200 numbers.
#[test]
fn the_word_that_differs_is_found_without_a_search(rt: HostRuntime) -> Result<(), Fail> {
    let first = chain_and_list(rt.alloc(), true)?;
    let last = chain_and_list(rt.alloc(), false)?;
    let of_first = growths(rt.alloc(), Some(1), first.as_slice());
    let of_last = growths(rt.alloc(), Some(1), last.as_slice());
    let is_right = match (of_first, of_last) {
        (Some(first), Some(last)) => last <= first.saturating_add(2),
        _ => false,
    };
    assert!(rt; is_right, "{of_first:?} {of_last:?}");
    Ok(())
}
