//! Tests whether the words of one object, without the objects below it, are laid out canonically. Any change here that
//! alters which bytes it accepts makes a new version of the canonical form.

ghost use Rattle.std.specs.Prelude.{◌≡◌, ◌+◌, ◌*◌, ◌/◌, ◌^◌, ◌<◌, ◌≤◌, IsTrue, ◌↔◌, [], ◌∷◌};
ghost use Rattle.std.specs.Prelude.{length, take, drop, slice_index, pos, ◌-◌, ◌%◌};
ghost use Rattle.capn_words.specs.Message.{IsMessage};
ghost use Rattle.capn_words.specs.Pointers.{word_of, field};
ghost use Rattle.capn_words.specs.declared.pointer.Pointer.TheVariants.{Node};
ghost use Rattle.capn_words.specs.declared.pointer.Width.TheVariants.{Rows};
ghost use Rattle.capn_value.specs.Trim.{kept_words};
ghost use Rattle.capn_layout.specs.Layout.{list_to};
ghost use Rattle.capn_layout.specs.FirstBits.{first_bits};
ghost use Rattle.capn_layout.specs.RowWords.{kept_each};
ghost use Rattle.capn_canon.specs.inner.WordsOfLayout.{Stand};

use crate::counted_words::{CountedWords, word_at, words_of};
use capn_layout::{list_pointer, tag_word};
use capn_target::counted::Reads;
use capn_words::{Space, Width};
use std::sync::ledger::Ledger;

/// Tests whether trimming keeps all `count` words from word `at` on: `count` is 0, or the last word is not zero.
#[inline(always)]
pub fn is_kept<S: Space, L: Ledger>(
    space: &CountedWords<'_, S, L>,
    at: u32,
    count: u32,
    reads: &mut Reads<L>,
) -> bool
    requires inside { at + count ≤ length space.now }
    requires room { length space.now ≤ 2 ^ 29 }
    ensures same { IsTrue result ↔ (kept_words (take count (drop at space.now)) ≡ count) }
    ensures reads { reads.new ≤ reads.old + 1 }
{
    count == 0 || word_at(space, at + count - 1, reads) != 0
}

/// The canonical pointer to a struct without words and slots: its offset is -1. (Page: canonicalization.)
pub const EMPTY: u64 = 0xffff_fffc;

/// Tests whether the word at `from` is the list pointer with `width` and `count` that leads to word `next`, and whether
/// the message has `words` words from `next` on.
fn is_list_at<S: Space, L: Ledger>(
    space: &CountedWords<'_, S, L>,
    width: Width,
    count: u32,
    words: u32,
    from: u32,
    next: u32,
    reads: &mut Reads<L>,
) -> bool
    requires message { IsMessage (space.now ∷ []) }
    requires few { count < 2 ^ 29 }
    requires short { words ≤ 2 ^ 30 }
    requires place { from < length space.now }
    requires order { from < next }
    requires room { next ≤ 2 ^ 29 }
    ensures same { IsTrue result ↔ (
        (slice_index space.now from ≡ list_to from next width count) × (next + words ≤ length space.now)) }
    ensures reads { reads.new ≤ reads.old + 2 }
{
    let word = list_pointer(from as usize, next as usize, width, count as usize);
    word_at(space, from, reads) == word && next + words <= words_of(space, reads)
}

/// Tests whether the bits after a list of `bits` bits at word `next` are zero up to the end of the last word.
pub fn are_bits_at<S: Space, L: Ledger>(
    space: &CountedWords<'_, S, L>,
    bits: u64,
    next: u32,
    reads: &mut Reads<L>,
) -> bool
    requires room { next + (bits + 63) / 64 ≤ length space.now }
    requires few { bits < 2 ^ 36 }
    requires place { next ≤ 2 ^ 29 }
    ensures same { IsTrue result ↔ Stand space.now next (first_bits bits (drop next space.now)) }
    ensures reads { reads.new ≤ reads.old + 1 }
{
    let rest = bits % 64;
    if rest == 0 {
        return true;
    }
    let last = word_at(space, next + (bits / 64) as u32, reads);
    last == last % (1 << rest)
}

/// The tag word of a list of structs: the number of rows, and the numbers of words and of slots in each row.
#[derive(Clone, Copy)]
pub struct Tag {
    pub count: u32,
    pub words: u16,
    pub slots: u16,
}

/// Returns the count, words and slots that the tag word `word` holds. The pointer kind of `word` is not tested.
#[inline(always)]
pub fn tag_of(word: u64) -> Tag
    ensures { result ≡ record { count = field 2 30 word; words = field 32 16 word; slots = field 48 16 word } }
{
    Tag {
        count: (word >> 2 & 0x3fff_ffff) as u32,
        words: (word >> 32 & 0xffff) as u16,
        slots: (word >> 48) as u16,
    }
}

/// Tests whether trimming would keep all `size` words of one section of the rows: `size` is 0, or in some row the last
/// word of the section isn't zero. There are `count` rows, one every `step` words from word `start` on, and the section
/// begins `inset` words into each row.
fn is_part_kept<S: Space, L: Ledger>(
    space: &CountedWords<'_, S, L>,
    start: u32,
    count: u32,
    step: u32,
    inset: u32,
    size: u32,
    reads: &mut Reads<L>,
) -> bool
    requires room { length space.now ≤ 2 ^ 29 }
    requires step { step ≤ 2 ^ 17 }
    requires content { start + count * step ≤ length space.now }
    requires part { inset + size ≤ step }
    ensures same { IsTrue result ↔ (kept_each (space.now ∷ []) 0 (start + inset) size step count ≡ size) }
    ensures reads { reads.new ≤ reads.old + 2 * (count * size) }
{
    if size == 0 {
        return true;
    }
    let mut last = start + inset + (size - 1);
    for _row in 0..count {
        reads.tick();
        if word_at(space, last, reads) != 0 {
            return true;
        }
        last += step;
    }
    false
}

/// Tests whether the list of structs at word `next` is canonical, without the objects below its slots. It is canonical
/// if four conditions hold. Trimmed rows have the sizes in `tag`. The word at `next` is the tag word of `tag`.
/// The word at `from` points to `next`. The message has all words of the rows.
pub fn are_rows_at<S: Space, L: Ledger>(
    space: &CountedWords<'_, S, L>,
    tag: Tag,
    from: u32,
    next: u32,
    reads: &mut Reads<L>,
) -> bool
    requires message { IsMessage (space.now ∷ []) }
    requires content { next + 1 + tag.count * (tag.words + tag.slots) ≤ length space.now }
    requires few { tag.count < 2 ^ 29 }
    requires span { tag.count * (tag.words + tag.slots) < 2 ^ 29 }
    requires place { from < length space.now }
    requires order { from < next }
    requires room { length space.now ≤ 2 ^ 29 }
    ensures same { IsTrue result ↔ (
        (kept_each (space.now ∷ []) 0 (next + 1) tag.words (tag.words + tag.slots) tag.count ≡ tag.words)
        × (kept_each (space.now ∷ []) 0 (next + 1 + tag.words) tag.slots (tag.words + tag.slots) tag.count ≡ tag.slots)
        × (slice_index space.now from ≡ list_to from next Rows (tag.count * (tag.words + tag.slots)))
        × (next + (1 + tag.count * (tag.words + tag.slots)) ≤ length space.now)
        × (slice_index space.now next ≡ word_of (Node (pos tag.count) tag.words tag.slots))) }
    ensures reads { reads.new ≤ reads.old + 2 * (tag.count * (tag.words + tag.slots)) + 3 }
{
    let count = tag.count;
    let words = tag.words as u32;
    let slots = tag.slots as u32;
    let step = words + slots;
    if !is_part_kept(space, next + 1, count, step, 0, words, reads) {
        return false;
    }
    if !is_part_kept(space, next + 1, count, step, words, slots, reads) {
        return false;
    }
    let size = count * step;
    if !is_list_at(space, Width::Rows, size, 1 + size, from, next, reads) {
        return false;
    }
    word_at(space, next, reads) == tag_word(count as usize, words as usize, slots as usize)
}
