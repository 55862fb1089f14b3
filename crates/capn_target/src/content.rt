//! The content that starts at a given word of a segment: the form of the content, or the fault of its range or tag
//! word.

ghost use Rattle.std.specs.Prelude.{◌≡◌, ℕ, ◌<◌, ◌≤◌, ◌+◌, ◌^◌, length, slice_index};
ghost use Rattle.capn_words.specs.Message.{segment_at};
ghost use Rattle.capn_target.specs.Target as spec;

use crate::reader::{CountedSpace, Reads};
use crate::target::{Fault, Shape, Target};
use capn_words::{Place, Space, Width};
use std::sync::ledger::Ledger;

/// Returns the number of words of `segment`, or 0 if there is no such segment. Counts in `reads` as one read.
#[tactic(auto, using(crate::proofs::shared::Segments::length_of_none, crate::proofs::shared::Segments::length_of_some))]
#[inline(always)]
pub fn segment_length<S: Space, L: Ledger>(
    space: &CountedSpace<'_, S, L>,
    segment: u32,
    reads: &mut Reads<L>,
) -> u32
    ensures length { result ≡ length (segment_at space.now segment) }
    ensures reads { reads.new ≡ reads.old + 1 }
{
    space.words(segment, reads).unwrap_or(0)
}

/// Returns the number of words of `segment`, or 0 if there is no such segment. The segment `known` has `size` words. If
/// `segment` equals `known`, reads nothing. Otherwise counts in `reads` as one read.
#[inline(always)]
pub fn size_of<S: Space, L: Ledger>(
    space: &CountedSpace<'_, S, L>,
    segment: u32,
    known: u32,
    size: u32,
    reads: &mut Reads<L>,
) -> u32
    requires { size ≡ length (segment_at space.now known) }
    ensures length { result ≡ length (segment_at space.now segment) }
    ensures reads { reads.new ≤ reads.old + 1 }
{
    if segment == known {
        size
    } else {
        segment_length(space, segment, reads)
    }
}

/// Returns the place of word `word` of `segment`.
#[inline(always)]
pub fn place(segment: u32, word: u32) -> Place
    ensures { result ≡ record { segment = segment; word = word } }
{
    Place { segment, word }
}

/// Returns the index of the word that `offset` leads to from the pointer at `word`, or `Range` if the index would be
/// negative.
#[inline(always)]
pub fn start_of(word: u32, offset: i32) -> Result<u64, Fault>
    ensures { result ≡ spec.content_start word offset }
{
    let start = word as i64 + 1 + offset as i64;
    if start < 0 {
        Err(Fault::Range)
    } else {
        Ok(start as u64)
    }
}

/// Returns the number of bits of an element of a list of the width `width`. For `Rows` the result is the number of bits
/// of a word, since the count of a composite list is in words.
#[inline(always)]
fn bits_of(width: Width) -> u64
    ensures value { result ≡ spec.bits_of width }
    ensures within { result ≤ 64 }
{
    match width {
        Width::W0 => 0,
        Width::W1 => 1,
        Width::W8 => 8,
        Width::W16 => 16,
        Width::W32 => 32,
        Width::W64 | Width::Link | Width::Rows => 64,
    }
}

/// Returns the number of words of the content of a list of `count` elements. For `Rows`, `count` is a number of words,
/// and the tag word is added.
#[inline(always)]
pub fn content_words(width: Width, count: u32) -> u64
    ensures { result ≡ spec.content_words width count }
{
    let words = (bits_of(width) * count as u64 + 63) / 64;
    if let Width::Rows = width {
        return words + 1;
    }
    words
}

/// Returns the struct with `words` data words and `slots` pointers whose content begins at word `start` of `segment`.
/// The segment has `size` words. The landing pad of the struct's pointer has `pads` words. Returns `Range` if the
/// content ends past the segment.
#[inline(always)]
pub fn node_at<S: Space, L: Ledger>(
    space: &CountedSpace<'_, S, L>,
    segment: u32,
    size: u32,
    start: u64,
    pads: u8,
    words: u16,
    slots: u16,
) -> Result<Target, Fault>
    requires size { size ≡ length (segment_at space.now segment) }
    requires start { start < 2 ^ 34 }
    ensures { result ≡ spec.struct space.now segment start pads words slots }
{
    if start + words as u64 + slots as u64 > size as u64 {
        return Err(Fault::Range);
    }
    let shape = Shape::Node { words, slots };
    Ok(Target::Content {
        segment,
        start: start as u32,
        shape,
        pads,
    })
}

/// Returns the list of `count` elements whose content begins at word `start` of `segment`, which has `size` words. The
/// landing pad of the list's pointer has `pads` words. Returns `Range` if the content ends past the segment, otherwise
/// the fault of the tag word if there is one. Counts in `reads` as at most one read.
#[inline(always)]
pub fn many_at<S: Space, L: Ledger>(
    space: &CountedSpace<'_, S, L>,
    segment: u32,
    size: u32,
    start: u64,
    pads: u8,
    width: Width,
    count: u32,
    reads: &mut Reads<L>,
) -> Result<Target, Fault>
    requires size { size ≡ length (segment_at space.now segment) }
    requires start { start < 2 ^ 34 }
    ensures list { result ≡ spec.list space.now segment start pads width count }
    ensures reads { reads.new ≤ reads.old + 1 }
{
    if start + content_words(width, count) > size as u64 {
        return Err(Fault::Range);
    }
    if let Width::Rows = width {
        return rows_at(space, segment, start as u32, pads, count, reads);
    }
    let shape = Shape::Many { width, count };
    Ok(Target::Content {
        segment,
        start: start as u32,
        shape,
        pads,
    })
}

/// Returns the composite list whose tag word is word `start` of `segment`, with `span` words after the tag word.
/// Returns the fault of the tag word if there is one.
#[tactic(auto, using(std::proofs::lemmas::Grind::common_steps))]
#[inline(always)]
fn rows_at<S: Space, L: Ledger>(
    space: &CountedSpace<'_, S, L>,
    segment: u32,
    start: u32,
    pads: u8,
    span: u32,
    reads: &mut Reads<L>,
) -> Result<Target, Fault>
    requires { start < length (segment_at space.now segment) }
    ensures rows { result ≡ spec.tagged space.now segment start pads span
        (slice_index (segment_at space.now segment) start) }
    ensures reads { reads.new ≤ reads.old + 1 }
{
    let at = Place {
        segment,
        word: start,
    };
    let tag = space.word(at, reads);
    if tag & 3 != 0 {
        return Err(Fault::BadTag);
    }
    let count = tag >> 2 & 0x3fff_ffff;
    let words = tag >> 32 & 0xffff;
    let slots = tag >> 48 & 0xffff;
    if count * (words + slots) > span as u64 {
        return Err(Fault::TagOverrun);
    }
    let shape = Shape::Rows {
        count: count as u32,
        words: words as u16,
        slots: slots as u16,
        span,
    };
    Ok(Target::Content {
        segment,
        start,
        shape,
        pads,
    })
}
