//! The figures of a message whose frame or packing is refused, from the bytes that were read of the message.

ghost use Rattle.std.specs.Prelude.{◌≡◌, ◌*◌, ◌^◌, ◌≤◌, drop, slice_index, sum};
ghost use Rattle.capn_pack.specs.UnpackRefusal.{len_at};
ghost use Rattle.capn_stream.specs.FrameRefusal.{announced_segments, announced_words, entries, entry_number};
ghost use Rattle.capn_explain.specs.WhatCame as spec;
ghost use Rattle.capn_explain.specs.WhatCame.{IsLeastOfFrame, IsLeastOfGroup};

use capn_diagnostics::{FrameKey, SegmentsText};
use capn_words::MOST_SEGMENTS;

/// Returns the byte at `place`, or zero if `bytes` ends before `place`.
fn byte_at(bytes: &[u8], place: usize) -> u8
    ensures { result ≡ slice_index bytes.now place }
{
    match bytes.get(place) {
        Some(byte) => *byte,
        None => 0,
    }
}

/// Returns the little-endian number in the 4 bytes from byte `4 * index` of `bytes`. Missing bytes count as zeros.
fn entry_at(bytes: &[u8], index: usize) -> u32
    requires { index ≤ 2 ^ 32 }
    ensures { result ≡ entry_number (drop (4 * index) bytes.now) }
{
    let start = 4 * index;
    let first = u32::from(byte_at(bytes, start));
    let second = u32::from(byte_at(bytes, start + 1));
    let third = u32::from(byte_at(bytes, start + 2));
    let fourth = u32::from(byte_at(bytes, start + 3));
    first + 256 * (second + 256 * (third + 256 * fourth))
}

/// Returns the sum of the first `count` numbers of 4 bytes in `sizes`. Missing bytes count as zeros.
fn total_of(sizes: &[u8], count: u64) -> u64
    requires { count ≤ 2 ^ 32 }
    ensures { result ≡ sum (entries count sizes.now) }
{
    // Entries that begin after the end of `sizes` are zero.
    let begun = (sizes.len() / 4 + 1).min(count as usize);
    let mut total: u64 = 0;
    for index in 0..begun {
        total += u64::from(entry_at(sizes, index));
    }
    total
}

/// Returns the number of segments that the table at the start of `rest` announces. Missing bytes count as zeros.
fn segments_of(rest: &[u8]) -> u64
    ensures is { result ≡ announced_segments rest.now }
    ensures most { result ≤ 2 ^ 32 }
{
    u64::from(entry_at(rest, 0)) + 1
}

/// Returns the bytes of `rest` after the number of segments.
fn sizes_of(rest: &[u8]) -> &[u8]
    ensures { result.now ≡ drop 4 rest.now }
{
    if rest.len() < 4 {
        return &[];
    }
    &rest[4..]
}

/// Returns the number of words that the table at the start of `rest` announces. Missing bytes count as zeros.
fn words_of(rest: &[u8]) -> u64
    ensures { result ≡ announced_words rest.now }
{
    total_of(sizes_of(rest), segments_of(rest))
}

/// Returns the least number of bytes that a frame beginning with `rest` can have, but at most 2^64 - 1.
fn least_of(rest: &[u8]) -> u64
    ensures is { result ≡ spec.least_length rest.now }
    ensures least { IsLeastOfFrame rest.now result }
{
    let table = 8 * (segments_of(rest) / 2 + 1);
    words_of(rest).saturating_mul(8).saturating_add(table)
}

/// Returns the figures of a frame that is cut off, of which `rest` was read. They are the number of bytes read, and the
/// least number of bytes that the frame can have.
pub(crate) fn there(rest: &[u8]) -> FrameKey
    ensures { result ≡ spec.there rest.now }
{
    FrameKey::AtLeast(rest.len() as u64, least_of(rest))
}

/// Returns the first eight of the segment sizes in `sizes`. Missing bytes count as zeros.
fn first_of(sizes: &[u8]) -> [u32; 8]
    ensures { result ≡ entries 8 sizes.now }
{
    [
        entry_at(sizes, 0),
        entry_at(sizes, 1),
        entry_at(sizes, 2),
        entry_at(sizes, 3),
        entry_at(sizes, 4),
        entry_at(sizes, 5),
        entry_at(sizes, 6),
        entry_at(sizes, 7),
    ]
}

/// Returns the segments that the table in `rest` announces, if `rest` has the sizes of all segments and there are not
/// too many segments.
pub(crate) fn segments(rest: &[u8]) -> Option<SegmentsText>
    ensures { result ≡ spec.segments rest.now }
{
    let count = segments_of(rest);
    if u64::from(MOST_SEGMENTS) < count {
        return None;
    }
    if (rest.len() as u64) < 4 + 4 * count {
        return None;
    }
    Some(SegmentsText {
        count: count as u32,
        words: words_of(rest),
        first: first_of(sizes_of(rest)),
    })
}

/// Returns the number of bytes of the group that begins with `came`, from its tag and its count byte. Missing bytes
/// count as zeros.
fn len_of(came: &[u8]) -> u64
    ensures { result ≡ len_at came.now }
{
    match byte_at(came, 0) {
        0 => 2,
        255 => 10 + 8 * u64::from(byte_at(came, 9)),
        tag => 1 + u64::from(tag.count_ones()),
    }
}

/// Returns the least number of bytes that a group beginning with `came` can have.
#[tactic(auto, using(crate::proofs::AtLeast::least_of_group))]
fn needs_of(came: &[u8]) -> u64
    ensures is { result ≡ len_at came.now }
    ensures least { IsLeastOfGroup came.now result }
{
    len_of(came)
}

/// Returns the figures of a group that is cut off, of which `came` was read. They are the offset `at` in the packed
/// input, the tag, the least number of bytes that the group can have, and the number of bytes read.
pub(crate) fn group(at: u64, came: &[u8]) -> FrameKey
    ensures { result ≡ spec.group at came.now }
{
    FrameKey::Group(at, byte_at(came, 0), needs_of(came), came.len() as u64)
}
