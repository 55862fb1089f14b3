//! The words of one object, each of which one visit covers once more.

ghost use Rattle.std.specs.Prelude.{◌≡◌, ◌≤◌, ◌<◌, ◌+◌, ◌*◌, length};
ghost use Rattle.capn_words.specs.Message.{IsMessage, most_words};
ghost use Rattle.capn_target.specs.Shapes.{extent, RowsFit};
ghost use Rattle.capn_cover.specs.declared.covered.Role.TheVariants as roles;
ghost use Rattle.capn_cover.specs.Numbers.{CountsBefore};
ghost use Rattle.capn_cover.specs.Covers.{rows_run, content_run};
ghost use Rattle.capn_cover.specs.inner.Knows.{Knows};
ghost use Rattle.capn_cover.specs.inner.Laid.{laid, HasRoom};

use crate::comparison::Comparison;
use crate::covered::{Covered, Role};
use crate::word_runs::{cover_run, cover_words};
use capn_target::content_words;
use capn_walk::Shape;
use capn_words::{Space, Width};

/// Covers the words of `count` rows from the number `first` on, each once more. Each row has `words` data words and
/// then `slots` slots. `known` is the last comparison of the visit.
#[inline(always)]
fn cover_rows<S: Space>(
    space: &S,
    before: &[u32],
    cells: &mut [Covered],
    known: &mut Comparison,
    first: u32,
    count: u32,
    words: u16,
    slots: u16,
    slot: u32,
)
    requires message { IsMessage (S.message space.now) }
    requires counts { CountsBefore (S.message space.now) before.now }
    requires known { Knows (S.message space.now) slot roles.Data known.old }
    requires within { first + count * (words + slots) ≤ length cells.old }
    requires by { slot < length cells.old }
    requires few { length cells.old ≤ most_words }
    requires room { HasRoom (count * (words + slots)) cells.old }
    ensures cells { cells.new ≡ laid (S.message space.now) (rows_run slot first words slots count) cells.old }
    ensures known { Knows (S.message space.now) slot roles.Data known.new }
{
    let mut next = first;
    for row in 0..count {
        cover_words(
            space,
            before,
            cells,
            known,
            next,
            words as u32,
            slot,
            Role::Data,
        );
        cover_words(
            space,
            before,
            cells,
            known,
            next + words as u32,
            slots as u32,
            slot,
            Role::Slot,
        );
        next += words as u32 + slots as u32;
    }
}

/// Covers the words of an object of `shape` whose first word has the number `first`, each once more.
#[inline(always)]
pub fn cover_content<S: Space>(
    space: &S,
    before: &[u32],
    cells: &mut [Covered],
    first: u32,
    shape: Shape,
    slot: u32,
)
    requires message { IsMessage (S.message space.now) }
    requires counts { CountsBefore (S.message space.now) before.now }
    requires fits { RowsFit shape }
    requires within { first + extent shape ≤ length cells.old }
    requires by { slot < length cells.old }
    requires few { length cells.old ≤ most_words }
    requires room { HasRoom (extent shape) cells.old }
    ensures { cells.new ≡ laid (S.message space.now) (content_run slot first shape) cells.old }
{
    match shape {
        Shape::Node { words, slots } => {
            let mut known = Comparison::of_itself(slot, Role::Data);
            cover_words(
                space,
                before,
                cells,
                &mut known,
                first,
                words as u32,
                slot,
                Role::Data,
            );
            cover_words(
                space,
                before,
                cells,
                &mut known,
                first + words as u32,
                slots as u32,
                slot,
                Role::Slot,
            );
        }
        Shape::Many { width, count } => match width {
            Width::Link => cover_run(space, before, cells, first, count, slot, Role::Slot),
            _ => cover_run(
                space,
                before,
                cells,
                first,
                content_words(width, count) as u32,
                slot,
                Role::Numbers,
            ),
        },
        Shape::Rows {
            count,
            words,
            slots,
            span,
        } => {
            let taken = count * (words as u32 + slots as u32);
            let mut known = Comparison::of_itself(slot, Role::Tag);
            cover_words(space, before, cells, &mut known, first, 1, slot, Role::Tag);
            cover_rows(
                space,
                before,
                cells,
                &mut known,
                first + 1,
                count,
                words,
                slots,
                slot,
            );
            cover_words(
                space,
                before,
                cells,
                &mut known,
                first + 1 + taken,
                span - taken,
                slot,
                Role::Slack,
            );
        }
    }
}
