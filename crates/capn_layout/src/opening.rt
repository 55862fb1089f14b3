//! The functions that open an object: they write the pointer to the object and the object's own words, before the
//! contents that the object's slots name. Any change here that alters canonical bytes makes a new version of the
//! canonical form.

ghost use Rattle.std.specs.Prelude.{◌^◌, ◌+◌, ◌*◌, ◌<◌, ◌≤◌, length};
ghost use Rattle.capn_value.specs.Tree.{Tree, Bodies, count_rows, row_words};
ghost use Rattle.capn_words.specs.Message.{words_in};
ghost use Rattle.capn_layout.specs.Ready.{IsOpened};
ghost use Rattle.capn_layout.specs.Layout.{size};
ghost use Rattle.capn_layout.specs.inner.Draft.{IsKept};
ghost use Rattle.capn_layout.specs.Sound.{Sound};
ghost use Rattle.capn_layout.specs.inner.Source.{IsStruct, AreLinks, AreStructs};

use crate::draft::{push, put};
use crate::pointer_words::{list_pointer, struct_pointer, tag_word};
use crate::source::Source;
use capn_words::Width;

/// An object whose own words are written: the word at which the first row begins, the word after the last row, and the
/// numbers of words and of slots that are kept of each row.
#[derive(Clone, Copy)]
pub struct Opened {
    pub first: usize,
    pub end: usize,
    pub words: u32,
    pub slots: u32,
}

/// Writes the pointer to the struct `row` over word `from`. Appends the kept words of the struct, and words in place of
/// its kept slots, after the first `len` words of `out`. Returns the opened struct.
#[inline(always)]
pub fn open_struct<S: Source>(
    row: &S::Rows,
    from: usize,
    out: &mut [u8],
    len: usize,
    reads: &mut S::Reads,
) -> Opened
    requires some { (v : Tree) × (bs : Bodies) × IsStruct v bs × S.are row.now bs × Sound v
        × (8 * (len + size v) ≤ length out.old) }
    requires order { from < len }
    requires short { length out.old ≤ 2 ^ 32 }
    ensures opened { (v : Tree) (bs : Bodies) → IsStruct v bs → S.are row.now bs → Sound v
        → IsOpened v bs from (words_in len out.old) (words_in result.end out.new) result.first result.words
        result.slots }
    ensures kept { IsKept result.end out.old out.new }
    ensures reads { (bs : Bodies) → S.are row.now bs
        → S.spent reads.new ≤ S.spent reads.old + 2 * count_rows bs + 5 * row_words bs }
{
    let words = S::kept_words(row, reads);
    let slots = S::kept_slots(row, reads);
    let word = struct_pointer(from, len, words as usize, slots as usize);
    put(out, from, word);
    let end = S::append_rows(row, words, slots, out, len, reads);
    Opened {
        first: len,
        end,
        words,
        slots,
    }
}

/// Writes the pointer to a list of `count` pointers over word `from`. Appends words in place of the elements of the
/// list after the first `len` words of `out`. Returns the opened list.
#[inline(always)]
pub fn open_links<S: Source>(
    row: &S::Rows,
    count: u32,
    from: usize,
    out: &mut [u8],
    len: usize,
    reads: &mut S::Reads,
) -> Opened
    requires some { (v : Tree) × (bs : Bodies) × AreLinks count v bs × S.are row.now bs × Sound v
        × (8 * (len + size v) ≤ length out.old) }
    requires order { from < len }
    requires short { length out.old ≤ 2 ^ 32 }
    ensures opened { (v : Tree) (bs : Bodies) → AreLinks count v bs → S.are row.now bs → Sound v
        → IsOpened v bs from (words_in len out.old) (words_in result.end out.new) result.first result.words
        result.slots }
    ensures kept { IsKept result.end out.old out.new }
    ensures reads { (bs : Bodies) → S.are row.now bs → S.spent reads.new ≤ S.spent reads.old + row_words bs }
{
    let word = list_pointer(from, len, Width::Link, count as usize);
    put(out, from, word);
    let end = S::append_rows(row, 0, count, out, len, reads);
    Opened {
        first: len,
        end,
        words: 0,
        slots: count,
    }
}

/// Writes the pointer to the list of `count` structs `rows` over word `from`. Appends the tag, and then each row (its
/// kept words, and words in place of its kept slots), after the first `len` words of `out`. Returns the opened list.
///
/// All rows are shortened to the same size. The function is not inlined, so that its stack frame does not stay on the
/// stack at each level of depth.
#[inline(never)]
pub fn open_rows<S: Source>(
    rows: &S::Rows,
    count: u32,
    from: usize,
    out: &mut [u8],
    len: usize,
    reads: &mut S::Reads,
) -> Opened
    requires some { (v : Tree) × (bs : Bodies) × AreStructs count v bs × S.are rows.now bs × Sound v
        × (8 * (len + size v) ≤ length out.old) }
    requires order { from < len }
    requires short { length out.old ≤ 2 ^ 32 }
    ensures opened { (v : Tree) (bs : Bodies) → AreStructs count v bs → S.are rows.now bs → Sound v
        → IsOpened v bs from (words_in len out.old) (words_in result.end out.new) result.first result.words
        result.slots }
    ensures kept { IsKept result.end out.old out.new }
    ensures reads { (bs : Bodies) → S.are rows.now bs
        → S.spent reads.new ≤ S.spent reads.old + 2 * count_rows bs + 5 * row_words bs }
{
    let words = S::kept_words(rows, reads);
    let slots = S::kept_slots(rows, reads);
    let size = count as usize * (words as usize + slots as usize);
    let word = list_pointer(from, len, Width::Rows, size);
    put(out, from, word);
    let tag = tag_word(count as usize, words as usize, slots as usize);
    let first = push(out, len, tag);
    let end = S::append_rows(rows, words, slots, out, first, reads);
    Opened {
        first,
        end,
        words,
        slots,
    }
}
