//! A visit of a slot that has been visited before, which covers the words of the earlier visit once more. All of them
//! are known, so no two objects are compared.

ghost use Rattle.std.specs.Prelude.{◌≡◌, ◌≤◌, ◌<◌, ◌+◌, ◌*◌, ◌++◌, length, slice_index_or};
ghost use Rattle.capn_words.specs.Message.{IsMessage, IsPlace, most_words, total};
ghost use Rattle.capn_target.specs.Target.{pointer_in};
ghost use Rattle.capn_target.specs.Shapes.{extent, RowsFit};
ghost use Rattle.capn_cover.specs.Numbers.{CountsBefore};
ghost use Rattle.capn_cover.specs.Parts.{part};
ghost use Rattle.capn_cover.specs.Covers.{run, rows_run, content_run, pad_run, unreached};
ghost use Rattle.capn_cover.specs.inner.Known.{IsKnown, AreKnown, is_repeated};
ghost use Rattle.capn_cover.specs.inner.Laid.{laid, touched_in, HasRoom, IsFollowed, Leads};

use crate::covered::{Covered, Role};
use crate::one_word::cover_again;
use crate::starts::number_of;
use capn_target::content_words;
use capn_walk::Shape;
use capn_words::{Place, Pointer, Space, Width, split};

/// Tests whether a visit of the slot with the number `slot` is not the first: the slot is followed, and isn't the
/// root's.
#[inline(always)]
pub fn is_repeated(cells: &[Covered], slot: u32) -> bool
    requires { slot < length cells.now }
    ensures { result ≡ is_repeated slot cells.now }
{
    slot > 0 && cells[slot as usize].is_followed
}

/// Covers the word with the number `word` once more in the given `role`, by the visit of the slot with the number
/// `slot`, which is marked as followed. The word is known to be of that visit's part.
#[inline(always)]
fn repeat_word<S: Space>(_space: &S, cells: &mut [Covered], word: usize, slot: u32, role: Role)
    requires known { IsKnown (S.message _space.now) (part (S.message _space.now) slot role)
        (slice_index_or cells.old word unreached) }
    requires within { word < length cells.old }
    requires room { HasRoom 1 cells.old }
    ensures { cells.new ≡ touched_in (S.message _space.now) word slot role cells.old }
{
    cover_again(&mut cells[word], false, slot, role);
}

/// Covers `count` words from the number `first` on, each once more.
#[inline(always)]
fn repeat_words<S: Space>(
    space: &S,
    cells: &mut [Covered],
    first: u32,
    count: u32,
    slot: u32,
    role: Role,
)
    requires known { AreKnown (S.message space.now) (run slot role first count) cells.old }
    requires followed { IsFollowed slot cells.old }
    requires within { first + count ≤ length cells.old }
    requires few { length cells.old ≤ most_words }
    requires room { HasRoom count cells.old }
    ensures cells { cells.new ≡ laid (S.message space.now) (run slot role first count) cells.old }
    ensures followed { IsFollowed slot cells.new }
{
    let start = first as usize;
    for i in 0..count {
        repeat_word(space, cells, start + i as usize, slot, role);
    }
}

/// Covers the words of `count` rows from the number `first` on, each once more. Each row has `words` data words and
/// then `slots` slots.
#[inline(always)]
fn repeat_rows<S: Space>(
    space: &S,
    cells: &mut [Covered],
    first: u32,
    count: u32,
    words: u16,
    slots: u16,
    slot: u32,
)
    requires known { AreKnown (S.message space.now) (rows_run slot first words slots count) cells.old }
    requires followed { IsFollowed slot cells.old }
    requires within { first + count * (words + slots) ≤ length cells.old }
    requires few { length cells.old ≤ most_words }
    requires room { HasRoom (count * (words + slots)) cells.old }
    ensures cells { cells.new ≡ laid (S.message space.now) (rows_run slot first words slots count) cells.old }
    ensures followed { IsFollowed slot cells.new }
{
    let mut next = first;
    for row in 0..count {
        repeat_words(space, cells, next, words as u32, slot, Role::Data);
        repeat_words(
            space,
            cells,
            next + words as u32,
            slots as u32,
            slot,
            Role::Slot,
        );
        next += words as u32 + slots as u32;
    }
}

/// Covers the words of an object of `shape` whose first word has the number `first`, each once more.
#[inline(always)]
fn repeat_content<S: Space>(space: &S, cells: &mut [Covered], first: u32, shape: Shape, slot: u32)
    requires known { AreKnown (S.message space.now) (content_run slot first shape) cells.old }
    requires followed { IsFollowed slot cells.old }
    requires fits { RowsFit shape }
    requires within { first + extent shape ≤ length cells.old }
    requires few { length cells.old ≤ most_words }
    requires room { HasRoom (extent shape) cells.old }
    ensures { cells.new ≡ laid (S.message space.now) (content_run slot first shape) cells.old }
{
    match shape {
        Shape::Node { words, slots } => {
            repeat_words(space, cells, first, words as u32, slot, Role::Data);
            repeat_words(
                space,
                cells,
                first + words as u32,
                slots as u32,
                slot,
                Role::Slot,
            );
        }
        Shape::Many { width, count } => match width {
            Width::Link => repeat_words(space, cells, first, count, slot, Role::Slot),
            _ => repeat_words(
                space,
                cells,
                first,
                content_words(width, count) as u32,
                slot,
                Role::Numbers,
            ),
        },
        Shape::Rows {
            count,
            words,
            slots,
            span,
        } => {
            let taken = count * (words as u32 + slots as u32);
            repeat_words(space, cells, first, 1, slot, Role::Tag);
            repeat_rows(space, cells, first + 1, count, words, slots, slot);
            repeat_words(
                space,
                cells,
                first + 1 + taken,
                span - taken,
                slot,
                Role::Slack,
            );
        }
    }
}

/// Covers the `pads` words of the landing pad of the slot at `at`, each once more.
#[inline(always)]
fn repeat_pads<S: Space>(
    space: &S,
    before: &[u32],
    cells: &mut [Covered],
    at: Place,
    pads: u8,
    slot: u32,
)
    requires message { IsMessage (S.message space.now) }
    requires counts { CountsBefore (S.message space.now) before.now }
    requires each { length cells.old ≡ total (S.message space.now) }
    requires place { IsPlace (S.message space.now) at }
    requires leads { Leads (S.message space.now) at pads }
    requires known { AreKnown (S.message space.now) (pad_run (S.message space.now) slot pads
        (pointer_in (S.message space.now) at.segment at.word)) cells.old }
    requires followed { IsFollowed slot cells.old }
    requires room { HasRoom (length (pad_run (S.message space.now) slot pads
        (pointer_in (S.message space.now) at.segment at.word))) cells.old }
    ensures cells { cells.new ≡ laid (S.message space.now)
        (pad_run (S.message space.now) slot pads (pointer_in (S.message space.now) at.segment at.word)) cells.old }
    ensures followed { IsFollowed slot cells.new }
{
    if pads == 0 {
        return;
    }
    let pointer = split(space.word(at));
    if let Pointer::Far {
        double: _,
        word,
        segment,
    } = pointer
    {
        let first = number_of(space, before, segment, word);
        repeat_words(space, cells, first, pads as u32, slot, Role::Pad);
    }
}

/// Covers the words of the visit of the slot at `at`, each once more: first the landing pad of `pads` words, then the
/// object of `shape` whose first word has the number `first`. The slot has the number `slot`, and is marked as
/// followed.
#[inline(always)]
pub fn repeat_object<S: Space>(
    space: &S,
    before: &[u32],
    cells: &mut [Covered],
    at: Place,
    pads: u8,
    slot: u32,
    first: u32,
    shape: Shape,
)
    requires message { IsMessage (S.message space.now) }
    requires counts { CountsBefore (S.message space.now) before.now }
    requires each { length cells.old ≡ total (S.message space.now) }
    requires place { IsPlace (S.message space.now) at }
    requires leads { Leads (S.message space.now) at pads }
    requires fits { RowsFit shape }
    requires within { first + extent shape ≤ length cells.old }
    requires known_pads { AreKnown (S.message space.now) (pad_run (S.message space.now) slot pads
        (pointer_in (S.message space.now) at.segment at.word)) cells.old }
    requires known { AreKnown (S.message space.now) (content_run slot first shape) cells.old }
    requires followed { IsFollowed slot cells.old }
    requires room { HasRoom (length (pad_run (S.message space.now) slot pads
        (pointer_in (S.message space.now) at.segment at.word) ++ content_run slot first shape)) cells.old }
    ensures { cells.new ≡ laid (S.message space.now) (pad_run (S.message space.now) slot pads
        (pointer_in (S.message space.now) at.segment at.word) ++ content_run slot first shape) cells.old }
{
    repeat_pads(space, before, cells, at, pads, slot);
    repeat_content(space, cells, first, shape, slot);
}
