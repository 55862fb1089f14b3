//! Tests of the number and the size of calls' allocations: for tables of many segments, for bytes fed one by one, and
//! for sizes that are only announced.

use crate::cuts::{long_table, start_of};
use crate::short_runs::output;
use crate::sizes::{long_list, stream_of, stream_through_each};
use crate::subject::{MOST, chain, limits};
use crate::words::bytes_of;
use capn_canon::{Form, Refusal, canonicalise, is_canonical};
use capn_commands::{Command, ToolFault};
use capn_stream::{Framer, first, frame};
use capn_walk::{Fault, walk};
use capn_words::{Bare, Space};
use std::alloc::{AllocError, Global};
use std::test::Fail;
use test_allocator::Refusing;

/// Tests whether the first message of `stream` is all of it, and has `segments` segments.
fn is_whole(alloc: Global, stream: &[u8], segments: u32) -> bool {
    match first(alloc, stream, MOST) {
        Ok((message, taken)) => taken == stream.len() && message.segments() == segments,
        Err(_) => false,
    }
}

/// Messages of 2 to 4,096 segments are read if there is memory. No message may have more segments. Each message is the
/// start of the longest one, with its own count of segments.
#[test]
fn each_number_of_segments(rt: HostRuntime) -> Result<(), Fail> {
    let mut stream = long_table(rt.alloc(), 4_095)?;
    for count in 2..=4_096u32 {
        stream[..4].copy_from_slice(&(count - 1).to_le_bytes());
        let len = (count / 2 + 2) as usize * 8;
        assert!(rt;
            is_whole(rt.alloc(), start_of(stream.as_slice(), len), count),
            "{count} segments"
        );
    }
    Ok(())
}

#[test]
fn the_longest_table_through_each_call(rt: HostRuntime) -> Result<(), Fail> {
    let stream = long_table(rt.alloc(), 4_095)?;
    stream_through_each(&rt, rt.alloc(), stream.as_slice())
}

/// Returns a stream of 4,096 segments of 32 words each: a table of 16,392 bytes, and a mebibyte.
fn many_segments(alloc: Global) -> Result<Vec<u8>, AllocError> {
    let mut stream = Vec::new(alloc);
    stream.extend_from_slice(&4_095u32.to_le_bytes())?;
    for _ in 0..4_096u32 {
        stream.extend_from_slice(&32u32.to_le_bytes())?;
    }
    stream.resize(1_064_968, 0)?;
    Ok(stream)
}

/// Returns the number and the greatest size of the allocations that it takes to read the message of `stream`, and then
/// of those that it takes to write its frame.
fn framed_growths(alloc: Global, stream: &[u8]) -> Option<((u64, usize), (u64, usize))> {
    let heap = Refusing::nth(alloc, 0);
    let (message, _) = first(&heap, stream, MOST).ok()?;
    let other = Refusing::nth(alloc, 0);
    let text = frame(&other, &message).ok()?;
    if text.as_slice() == stream {
        Some((
            (heap.count(), heap.greatest()),
            (other.count(), other.greatest()),
        ))
    } else {
        None
    }
}

/// To read a message takes four bytes for each segment, whatever the segment holds. To write its frame takes one
/// allocation of the frame's length.
#[test]
fn growths_of_many_segments(rt: HostRuntime) -> Result<(), Fail> {
    let stream = many_segments(rt.alloc())?;
    let growths = framed_growths(rt.alloc(), stream.as_slice());
    assert!(rt; matches!(growths, Some(((1, most), (1, 1_064_968))) if most <= 16_384));
    Ok(())
}

/// Counts the allocations of a framer that is fed `stream` byte by byte.
fn growths_by_the_byte(alloc: Global, stream: &[u8]) -> Option<u64> {
    let heap = Refusing::nth(alloc, 0);
    let mut framer = Framer::new(&heap, MOST);
    for byte in stream {
        if framer.feed(&[*byte]) != Ok(1) {
            return None;
        }
    }
    if framer.take().is_some() {
        Some(heap.count())
    } else {
        None
    }
}

/// Room for bytes grows with what has been fed, so that a message fed byte by byte is copied only a few times.
#[test]
fn a_mebibyte_byte_by_byte(rt: HostRuntime) -> Result<(), Fail> {
    let list = long_list(rt.alloc())?;
    let stream = stream_of(rt.alloc(), list.as_slice())?;
    let growths = growths_by_the_byte(rt.alloc(), stream.as_slice());
    assert!(rt; matches!(growths, Some(count) if count <= 20));
    Ok(())
}

/// Tests whether `bytes` are found canonical without an allocation of more than a kibibyte.
fn is_small(alloc: Global, bytes: &[u8]) -> bool {
    let heap = Refusing::nth(alloc, 0);
    let is_own = match canonicalise(&heap, Form::Bare, bytes, limits(64)) {
        Ok(canonical) => canonical.bytes.as_slice() == bytes,
        Err(_) => false,
    };
    is_own && is_canonical(&heap, bytes, limits(64)) == Ok(true) && heap.greatest() <= 1_024
}

/// A high price does not lead to large allocations. Eight million elements without bits cost eight million words, but
/// their canonical bytes are few.
#[test]
fn voids_by_the_million(rt: HostRuntime) -> Result<(), Fail> {
    let voids = [0x1_0000_0000_0000, 8_000_000 << 35 | 1];
    let bytes = bytes_of(rt.alloc(), &voids)?;
    assert!(rt; is_small(rt.alloc(), bytes.as_slice()));
    Ok(())
}

/// Returns the number and the greatest size of the allocations of `check` over packed bytes. Their first message must
/// be refused because it has no words.
fn priced_growths(alloc: Global, packed: &[u8]) -> Option<(u64, usize)> {
    let heap = Refusing::nth(alloc, 0);
    let command = Command::Check(Form::Packed, limits(64));
    let (outcome, _) = output(alloc, &heap, command, packed);
    match outcome {
        Err(ToolFault::Refused(Refusal::Walk(stopped))) if stopped.fault == Fault::NoRoot => {
            Some((heap.count(), heap.greatest()))
        }
        _ => None,
    }
}

/// Packed zeros that stand for 64 MiB are unpacked in small parts: no allocation is above 514 KiB.
#[test]
fn packed_zeros_are_unpacked_bit_by_bit(rt: HostRuntime) -> Result<(), Fail> {
    let mut packed = Vec::new(rt.alloc());
    for _ in 0..32_768u32 {
        packed.extend_from_slice(&[0, 255])?;
    }
    let growths = priced_growths(rt.alloc(), packed.as_slice());
    assert!(rt;
        matches!(growths, Some((_, most)) if most <= 526_336),
        "{growths:?}"
    );
    Ok(())
}

/// Counts the allocations of the walk of a message.
fn walked_growths(alloc: Global, bytes: &[u8]) -> Option<u64> {
    let heap = Refusing::nth(alloc, 0);
    let space = Bare::new(bytes).ok()?;
    let Ok(walked) = walk(&heap, &space, limits(256)) else {
        return None;
    };
    let count = heap.count();
    // One call of `drop` is cheaper for the prover than fields that are dropped one by one.
    drop(walked);
    Some(count)
}

/// Counts the allocations that it takes to show a message.
fn shown_growths(alloc: Global, stream: &[u8]) -> Option<u64> {
    let heap = Refusing::nth(alloc, 0);
    let command = Command::Show(Form::Stream, limits(256));
    match output(alloc, &heap, command, stream) {
        (Ok(()), _) => Some(heap.count()),
        _ => None,
    }
}

/// A message is shown without its tree: a few allocations suffice, for the message, its survey and a text of 64 KiB.
#[test]
fn a_message_is_shown_without_its_value(rt: HostRuntime) -> Result<(), Fail> {
    let deep = chain(rt.alloc(), 200)?;
    let stream = stream_of(rt.alloc(), deep.as_slice())?;
    let walked = walked_growths(rt.alloc(), deep.as_slice());
    let shown = shown_growths(rt.alloc(), stream.as_slice());
    let is_right = match (walked, shown) {
        (Some(walked), Some(shown)) => 200 <= walked && shown <= 40,
        _ => false,
    };
    assert!(rt; is_right, "{walked:?} {shown:?}");
    Ok(())
}
