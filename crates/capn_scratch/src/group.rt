//! One group of a packed text: the size of the group, and the words that the group unpacks to.

ghost use Rattle.std.specs.Prelude.{◌≡◌, ◌+◌, ◌*◌, ◌<◌, ◌≤◌, ◌++◌, ◌/◌, ◌%◌, length, take, slice_index};
ghost use Rattle.std.specs.Prelude.{count_ones};
ghost use Rattle.capn_pack.specs.Packed.{named_bytes, IsNamedBy};
ghost use Rattle.capn_pack.specs.UnpackRefusal.{len_at, words_at};
ghost use Rattle.capn_scratch.specs.inner.Groups.{SizeGives, Takes};

use crate::counted_bytes::CountedBytes;
use crate::counted_scratch::CountedText;
use crate::steps::Steps;
use std::sync::ledger::Ledger;

/// The reason why a group is not read.
#[derive(Clone, Copy)]
pub(crate) enum Stop {
    /// The bytes end within the group.
    Cut,
    /// The group unpacks to more words than the caller allows.
    TooLong,
}

/// The size of a complete group, packed and unpacked.
#[derive(Clone, Copy)]
pub(crate) struct Size {
    /// The number of packed bytes, including the tag.
    pub bytes: usize,
    /// The number of words that the group unpacks to.
    pub words: usize,
}

/// Returns the size of the group of zero words, with the tag 0, at the front of `rest`. Counts at most one step.
#[inline(always)]
fn size_of_zeros<L: Ledger>(
    rest: &CountedBytes<'_, L>,
    room: usize,
    steps: &mut Steps<L>,
) -> Result<Size, Stop>
    requires some { 0 < length rest.now }
    requires tag { slice_index rest.now 0 ≡ 0 }
    ensures size { SizeGives rest.now room result }
    ensures steps { steps.new ≤ steps.old + 1 }
{
    rest.bounds();
    if rest.len() < 2 {
        return Err(Stop::Cut);
    }
    let words = 1 + rest.byte(1, steps) as usize;
    if words > room {
        return Err(Stop::TooLong);
    }
    Ok(Size { bytes: 2, words })
}

/// Returns the size of the group of one word at the front of `rest`. The tag of the group is neither 0 nor 255.
#[tactic(auto, using(crate::proofs::Spread::some_ones))]
#[inline(always)]
fn size_of_named<L: Ledger>(rest: &CountedBytes<'_, L>, tag: u8, room: usize) -> Result<Size, Stop>
    requires some { 0 < length rest.now }
    requires tag { tag ≡ slice_index rest.now 0 }
    requires above { 0 < slice_index rest.now 0 }
    requires below { slice_index rest.now 0 < 255 }
    ensures { SizeGives rest.now room result }
{
    let bytes = 1 + tag.count_ones() as usize;
    if rest.len() < bytes {
        return Err(Stop::Cut);
    }
    if room < 1 {
        return Err(Stop::TooLong);
    }
    Ok(Size { bytes, words: 1 })
}

/// Returns the size of the group of raw words, with the tag 255, at the front of `rest`. Counts at most one step.
#[inline(always)]
fn size_of_raw<L: Ledger>(
    rest: &CountedBytes<'_, L>,
    room: usize,
    steps: &mut Steps<L>,
) -> Result<Size, Stop>
    requires some { 0 < length rest.now }
    requires tag { slice_index rest.now 0 ≡ 255 }
    ensures size { SizeGives rest.now room result }
    ensures steps { steps.new ≤ steps.old + 1 }
{
    if rest.len() < 10 {
        return Err(Stop::Cut);
    }
    let more = rest.byte(9, steps) as usize;
    if 1 + more > room {
        return Err(Stop::TooLong);
    }
    let bytes = 10 + 8 * more;
    if rest.len() < bytes {
        return Err(Stop::Cut);
    }
    Ok(Size {
        bytes,
        words: 1 + more,
    })
}

/// Returns the size of the group at the front of `rest`, if the group is complete and unpacks to at most `room` words.
/// Counts at most two steps.
#[inline(always)]
pub(crate) fn size_of<L: Ledger>(
    rest: &CountedBytes<'_, L>,
    room: usize,
    steps: &mut Steps<L>,
) -> Result<Size, Stop>
    requires { 0 < length rest.now }
    ensures size { SizeGives rest.now room result }
    ensures steps { steps.new ≤ steps.old + 2 }
{
    let tag = rest.byte(0, steps);
    match tag {
        0 => size_of_zeros(rest, room, steps),
        255 => size_of_raw(rest, room, steps),
        _ => size_of_named(rest, tag, room),
    }
}

/// Returns the next byte of an unpacked word: byte `next` of `bytes` if the lowest bit of `left` is set, else 0. Counts
/// one step for a byte that is read.
#[inline(always)]
fn byte_of<L: Ledger>(
    left: u8,
    bytes: &CountedBytes<'_, L>,
    next: usize,
    steps: &mut Steps<L>,
) -> u8
    requires { next + count_ones left ≤ length bytes.now }
    ensures none { left % 2 ≡ 0 → result ≡ 0 }
    ensures named { left % 2 ≡ 1 → result ≡ slice_index bytes.now next }
    ensures steps { steps.new ≡ steps.old + left % 2 }
{
    if left % 2 == 0 {
        0
    } else {
        bytes.byte(next, steps)
    }
}

/// Returns the word that `tag` and `bytes` unpack to. Each set bit of `tag` names a byte of the word. The named
/// bytes are the first of `bytes`, in order. The other bytes of the word are zero. Counts one step for each of the 8
/// bytes, and one more for each that is read.
#[inline(always)]
fn spread<L: Ledger>(tag: u8, bytes: &CountedBytes<'_, L>, steps: &mut Steps<L>) -> [u8; 8]
    requires { count_ones tag ≤ length bytes.now }
    ensures named { IsNamedBy tag result }
    ensures bytes { named_bytes tag result ≡ take (count_ones tag) bytes.now }
    ensures steps { steps.new ≤ steps.old + 8 + count_ones tag }
{
    let mut word = [0; 8];
    let mut left = tag;
    let mut next = 0;
    for index in 0..8 {
        steps.tick();
        word[index] = byte_of(left, bytes, next, steps);
        next += (left % 2) as usize;
        left /= 2;
    }
    word
}

/// Unpacks the group of zero words at the front of `rest`, of the given `size`, to `out` from offset `fill` on.
#[inline(always)]
fn put_zeros<L: Ledger>(
    rest: &CountedBytes<'_, L>,
    size: Size,
    out: &mut CountedText<'_, L>,
    fill: usize,
    steps: &mut Steps<L>,
)
    requires inside { 2 ≤ length rest.now }
    requires tag { slice_index rest.now 0 ≡ 0 }
    requires bytes { size.bytes ≡ 2 }
    requires words { size.words ≡ 1 + slice_index rest.now 1 }
    requires room { fill + 8 * size.words ≤ length out.old }
    ensures takes { Takes rest.now size.bytes size.words (take fill out.old) (take (fill + 8 * size.words) out.new) }
    ensures long { length out.new ≡ length out.old }
    ensures steps { steps.new ≤ steps.old + size.words }
{
    rest.bounds();
    out.store_zeros(fill, size.words, steps);
}

/// Unpacks the group of one word at the front of `rest` to `out`, from offset `fill` on. The tag of the group is
/// neither 0 nor 255.
#[inline(always)]
fn put_named<L: Ledger>(
    rest: &CountedBytes<'_, L>,
    tag: u8,
    size: Size,
    out: &mut CountedText<'_, L>,
    fill: usize,
    steps: &mut Steps<L>,
)
    requires some { 0 < length rest.now }
    requires tag { tag ≡ slice_index rest.now 0 }
    requires above { 0 < tag }
    requires below { tag < 255 }
    requires bytes { size.bytes ≡ 1 + count_ones tag }
    requires inside { size.bytes ≤ length rest.now }
    requires words { size.words ≡ 1 }
    requires room { fill + 8 * size.words ≤ length out.old }
    ensures takes { Takes rest.now size.bytes size.words (take fill out.old) (take (fill + 8 * size.words) out.new) }
    ensures long { length out.new ≡ length out.old }
    ensures steps { steps.new ≤ steps.old + size.bytes + 8 }
{
    let word = spread(tag, &rest.rest(1), steps);
    out.store(fill, &word, steps);
}

/// Unpacks the group of raw words at the front of `rest`, of the given `size`, to `out` from offset `fill` on.
#[inline(always)]
fn put_raw<L: Ledger>(
    rest: &CountedBytes<'_, L>,
    size: Size,
    out: &mut CountedText<'_, L>,
    fill: usize,
    steps: &mut Steps<L>,
)
    requires tag { slice_index rest.now 0 ≡ 255 }
    requires bytes { size.bytes ≡ 10 + 8 * slice_index rest.now 9 }
    requires inside { size.bytes ≤ length rest.now }
    requires words { size.words ≡ 1 + slice_index rest.now 9 }
    requires room { fill + 8 * size.words ≤ length out.old }
    ensures takes { Takes rest.now size.bytes size.words (take fill out.old) (take (fill + 8 * size.words) out.new) }
    ensures long { length out.new ≡ length out.old }
    ensures steps { steps.new ≤ steps.old + size.words }
{
    rest.bounds();
    let _room = out.len();
    rest.part(1, 9).copy_to(out, fill, steps);
    rest.part(10, size.bytes).copy_to(out, fill + 8, steps);
}

/// Unpacks the group at the front of `rest`, of the given `size`, to `out` from offset `fill` on. Counts at most one
/// step for each byte, and nine for each word.
#[inline(always)]
pub(crate) fn put_group<L: Ledger>(
    rest: &CountedBytes<'_, L>,
    size: Size,
    out: &mut CountedText<'_, L>,
    fill: usize,
    steps: &mut Steps<L>,
)
    requires some { 0 < length rest.now }
    requires bytes { size.bytes ≡ len_at rest.now }
    requires words { size.words ≡ words_at rest.now }
    requires inside { size.bytes ≤ length rest.now }
    requires room { fill + 8 * size.words ≤ length out.old }
    ensures takes { Takes rest.now size.bytes size.words (take fill out.old) (take (fill + 8 * size.words) out.new) }
    ensures long { length out.new ≡ length out.old }
    ensures steps { steps.new ≤ steps.old + size.bytes + 9 * size.words }
{
    let tag = rest.byte(0, steps);
    match tag {
        0 => put_zeros(rest, size, out, fill, steps),
        255 => put_raw(rest, size, out, fill, steps),
        _ => put_named(rest, tag, size, out, fill, steps),
    }
}
