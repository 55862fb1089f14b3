//! Tests of the memory for lines with texts between quotes.

use crate::streaming::{Counting, Repeating};
use capn_make::{Form, Watched, make_texts};
use std::alloc::Global;
use test_allocator::Refusing;

/// Returns the number of bytes that a run over `times` copies of `again` writes, if it ends with `Ok` and no allocation
/// is above `most` bytes.
fn written_within(alloc: Global, again: &[u8], times: u64, most: usize) -> Option<u64> {
    let heap = Refusing::nth(alloc, 0);
    heap.refuse_above(most);
    let mut reader = Watched::new(Repeating {
        begins: b"",
        again,
        times,
        ends: b"",
    });
    let mut writer = Watched::new(Counting { bytes: 0 });
    let outcome = make_texts(&heap, Form::Stream, &mut reader, &mut writer);
    let _ = reader.into_inner();
    match outcome {
        Ok(()) => Some(writer.into_inner().bytes),
        Err(_) => None,
    }
}

/// Four texts, each of one line with a text between quotes.
const FOUR: &[u8] = b"bytes \"a\"\nend\nbytes \"b\"\nend\nbytes 1 \"c\"\nend\nbytes \"d\"\nend\n";

/// None of 4,000 lines with quotes is remembered once its message is made. Code that keeps eight bytes for each line
/// until the end makes an allocation of 32,000 bytes.
#[test]
fn four_thousand_quoted_lines_in_a_kibibyte(rt: HostRuntime) {
    assert!(rt; written_within(rt.alloc(), FOUR, 1_000, 1_024) == Some(4_000 * 24));
}

/// A line with quotes takes the room of its own bytes and of a short text. Code that takes the room of the longest line
/// makes an allocation of mebibytes.
#[test]
fn a_quoted_line_asks_for_its_own_bytes(rt: HostRuntime) {
    let text = b"bytes \"abc\"\nend\n";
    assert!(rt; written_within(rt.alloc(), text, 1, 256) == Some(24));
}
