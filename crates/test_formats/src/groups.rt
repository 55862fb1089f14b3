//! Tests of unpacking in pieces: the complete groups at the front of some bytes.

use capn_pack::{Next, Progress, unpack, unpack_some};
use std::alloc::{AllocError, Global};
use std::test::Fail;
use test_allocator::Refusing;

/// Three groups: a word of one byte, three zero words, and a word of eight bytes with a raw word after it.
const TEXT: [u8; 22] = [
    0x01, 5, 0x00, 2, 0xff, 1, 2, 3, 4, 5, 6, 7, 8, 1, 0, 9, 0, 9, 0, 9, 0, 9,
];

/// The bytes of the six words of `TEXT`.
const WORDS: [u8; 48] = [
    5, 0, 0, 0, 0, 0, 0, 0, 0, 0, 0, 0, 0, 0, 0, 0, 0, 0, 0, 0, 0, 0, 0, 0, 0, 0, 0, 0, 0, 0, 0, 0,
    1, 2, 3, 4, 5, 6, 7, 8, 0, 9, 0, 9, 0, 9, 0, 9,
];

/// Returns what `unpack_some` returns for `bytes` within `most` words, and the bytes that it appended to `ab`.
fn unpacked(alloc: Global, bytes: &[u8], most: u32) -> Result<(Progress, Vec<u8>), Fail> {
    let mut out = Vec::new(alloc);
    out.extend_from_slice(b"ab")?;
    let progress = unpack_some(bytes, most, &mut out)?;
    match out.as_slice().get(2..) {
        Some(rest) => {
            let mut words = Vec::new(alloc);
            words.extend_from_slice(rest)?;
            Ok((progress, words))
        }
        None => Err(Fail::new("fewer bytes")),
    }
}

/// Tests whether the first groups of `bytes` are unpacked, which are `taken` bytes and `words` words.
fn is_unpacked(
    alloc: Global,
    bytes: &[u8],
    most: u32,
    taken: usize,
    words: u8,
    next: Next,
) -> Result<bool, Fail> {
    let (progress, out) = unpacked(alloc, bytes, most)?;
    let want = Progress {
        bytes: taken,
        words: words as u32,
        next,
    };
    let length = 8 * words.min(6) as usize;
    Ok(progress == want && out.as_slice() == &WORDS[..length])
}

/// The groups before the end of the bytes are unpacked. A group that this end cuts off is left, wherever it is cut.
#[test]
fn groups_up_to_the_end(rt: HostRuntime) -> Result<(), Fail> {
    let alloc = rt.alloc();
    for len in 0..=22usize {
        let (taken, words) = match len {
            0 | 1 => (0, 0),
            2 | 3 => (2, 1),
            22 => (22, 6),
            _ => (4, 4),
        };
        let next = if taken == len { Next::End } else { Next::Cut };
        assert!(rt; is_unpacked(alloc, &TEXT[..len], 6, taken, words, next)?);
    }
    Ok(())
}

/// A group is left if its words are more than what is left of the maximum. This is found before the group is complete.
#[test]
fn groups_within_a_maximum(rt: HostRuntime) -> Result<(), Fail> {
    let alloc = rt.alloc();
    assert!(rt; is_unpacked(alloc, &TEXT, 0, 0, 0, Next::TooLong)?);
    assert!(rt; is_unpacked(alloc, &TEXT, 3, 2, 1, Next::TooLong)?);
    assert!(rt; is_unpacked(alloc, &TEXT, 5, 4, 4, Next::TooLong)?);
    assert!(rt; is_unpacked(alloc, &TEXT[..14], 5, 4, 4, Next::TooLong)?);
    assert!(rt; is_unpacked(alloc, &TEXT[..13], 5, 4, 4, Next::Cut)?);
    assert!(rt; is_unpacked(alloc, &TEXT, u32::MAX, 22, 6, Next::End)?);
    assert!(rt; is_unpacked(alloc, &[], 0, 0, 0, Next::End)?);
    Ok(())
}

/// Unpacks `TEXT` by a call for its first `len` bytes, and a call for the bytes that are left.
fn in_two(alloc: Global, len: usize) -> Result<Vec<u8>, AllocError> {
    let mut out = Vec::new(alloc);
    let first = unpack_some(&TEXT[..len.min(22)], 6, &mut out)?;
    let rest = &TEXT[first.bytes.min(22)..];
    let _last = unpack_some(rest, 6u32.saturating_sub(first.words), &mut out)?;
    Ok(out)
}

/// Two calls unpack the words that one call of `unpack` does, wherever the text is parted.
#[test]
fn a_text_in_two_pieces(rt: HostRuntime) -> Result<(), Fail> {
    let whole = unpack(rt.alloc(), &TEXT, 6)?;
    assert!(rt; whole.as_slice() == WORDS.as_slice());
    for len in 0..=22usize {
        assert!(rt; in_two(rt.alloc(), len)?.as_slice() == WORDS.as_slice());
    }
    Ok(())
}

/// Memory can be refused only if there is a complete group to append.
#[test]
fn groups_without_memory(rt: HostRuntime) {
    let heap = Refusing::nth(rt.alloc(), 0);
    heap.refuse_each();
    let mut out = Vec::new(&heap);
    assert!(rt; unpack_some(&TEXT, 6, &mut out).is_err());
    let mut out = Vec::new(&heap);
    let cut = Progress {
        bytes: 0,
        words: 0,
        next: Next::Cut,
    };
    let told = unpack_some(&TEXT[..1], 6, &mut out);
    assert!(rt; matches!(told, Ok(progress) if progress == cut) && out.is_empty());
}
