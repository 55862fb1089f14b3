//! The slots of a surveyed message, as a source of a layout. Any change here that alters canonical bytes makes a new
//! version of the canonical form.

ghost use Rattle.std.specs.Prelude.{ℕ, ◌+◌};
ghost use Rattle.capn_words.specs.Message.{IsMessage};
ghost use Rattle.capn_value.specs.Tree.{Tree as Value};
ghost use Rattle.capn_walk.specs.ValueAt.{IsInside};
ghost use Rattle.capn_target.specs.Shapes.{IsContent, RowsFit, extent};
ghost use Rattle.capn_target.proofs.shared.Ranges.{HasRoom};
ghost use Rattle.capn_walk.proofs.shared.Unique.{unique};
ghost use Rattle.capn_layout.specs.MessageSlots.{HasSlot, PacksBits, AreRows};
ghost use Rattle.capn_layout.specs.inner.Source.{IsItem};

use crate::kept::{kept_above, kept_each_counted};
use crate::known_target::target_at;
use crate::number_list_words::{append_bits, bits_of};
use crate::source::{Item, Source};
use crate::struct_list_words::push_rows;
use capn_target::counted::{CountedSpace, Reads};
use capn_walk::{Shape, Target};
use capn_words::{Place, Space, Width};
use std::sync::ledger::Ledger;

/// Consecutive slots of a message, from `start` on.
#[derive(Drop)]
pub struct MessageSlots<'a, S: Space, L: Ledger> {
    pub space: CountedSpace<'a, S, L>,
    pub start: Place,
}

/// The first `bits` bits of the words from `start` on.
#[derive(Drop)]
pub struct MessageBits<'a, S: Space, L: Ledger> {
    pub space: CountedSpace<'a, S, L>,
    pub start: Place,
    pub bits: u64,
}

/// Consecutive rows of a message, from `start` on.
#[derive(Drop)]
pub struct MessageRows<'a, S: Space, L: Ledger> {
    pub space: CountedSpace<'a, S, L>,
    pub start: Place,
    pub count: u32,
    pub words: u32,
    pub slots: u32,
}

impl<'a, S: Space, L: Ledger> Source for MessageSlots<'a, S, L> {
    type Numbers = MessageBits<'a, S, L>;

    type Rows = MessageRows<'a, S, L>;

    type Reads = Reads<L>;

    ghost has = { λ s k v. HasSlot s.space s.start.segment (s.start.word + k) v };

    ghost packs = { λ x ws. PacksBits x.space x.start x.bits ws };

    ghost are = { λ x bs. AreRows x.space x.start x.count x.words x.slots bs };

    ghost spent = { λ r. r };

    #[inline(always)]
    fn tick(reads: &mut Reads<L>) {
        reads.tick();
    }

    #[inline(always)]
    fn again(rows: &MessageRows<'a, S, L>) -> MessageRows<'a, S, L> {
        MessageRows {
            space: rows.space.again(),
            start: rows.start,
            count: rows.count,
            words: rows.words,
            slots: rows.slots,
        }
    }

    #[inline(always)]
    fn item(
        &self,
        slot: u32,
        reads: &mut Reads<L>,
    ) -> Item<MessageBits<'a, S, L>, MessageRows<'a, S, L>> {
        let at = Place {
            segment: self.start.segment,
            word: self.start.word + slot,
        };
        match target_at(&self.space, at, reads) {
            Target::Nil => Item::Nil,
            Target::Cap(index) => Item::Cap(index),
            Target::Content {
                segment,
                start,
                shape,
                pads: _,
            } => {
                let start = Place {
                    segment,
                    word: start,
                };
                item_at(&self.space, start, shape)
            }
        }
    }

    #[inline(always)]
    fn append_numbers(
        numbers: &MessageBits<'a, S, L>,
        out: &mut [u8],
        len: usize,
        reads: &mut Reads<L>,
    ) -> usize {
        append_bits(&numbers.space, numbers.start, numbers.bits, out, len, reads)
    }

    #[inline(always)]
    fn count_words(numbers: &MessageBits<'a, S, L>) -> u32 {
        numbers.bits.div_ceil(64) as u32
    }

    #[inline(always)]
    fn kept_words(rows: &MessageRows<'a, S, L>, reads: &mut Reads<L>) -> u32 {
        if rows.count == 1 {
            return kept_above(&rows.space, rows.start, rows.words, 0, reads);
        }
        let step = rows.words + rows.slots;
        kept_each_counted(
            rows.space.again(),
            rows.start,
            rows.count,
            step,
            0,
            rows.words,
            reads,
        )
    }

    #[inline(always)]
    fn kept_slots(rows: &MessageRows<'a, S, L>, reads: &mut Reads<L>) -> u32 {
        if rows.count == 1 {
            let below = Place {
                segment: rows.start.segment,
                word: rows.start.word + rows.words,
            };
            return kept_above(&rows.space, below, rows.slots, 0, reads);
        }
        let step = rows.words + rows.slots;
        kept_each_counted(
            rows.space.again(),
            rows.start,
            rows.count,
            step,
            rows.words,
            rows.slots,
            reads,
        )
    }

    #[inline(always)]
    fn append_rows(
        rows: &MessageRows<'a, S, L>,
        words: u32,
        slots: u32,
        out: &mut [u8],
        len: usize,
        reads: &mut Reads<L>,
    ) -> usize {
        push_rows(
            &rows.space,
            rows.start,
            rows.count,
            rows.words,
            rows.slots,
            words,
            slots,
            out,
            len,
            reads,
        )
    }

    #[inline(always)]
    fn slots(rows: &MessageRows<'a, S, L>, row: u32) -> MessageSlots<'a, S, L> {
        let before = row * (rows.words + rows.slots) + rows.words;
        MessageSlots {
            space: rows.space.again(),
            start: Place {
                segment: rows.start.segment,
                word: rows.start.word + before,
            },
        }
    }

    ghost one = { λ s k v w hv hw. unique s.space v w
        (record { segment = s.start.segment; word = s.start.word + k }) hv.at hw.at };
}

/// Returns the item for an object of `shape` whose content starts at `start`.
#[inline(always)]
fn item_at<'a, S: Space, L: Ledger>(
    space: &CountedSpace<'a, S, L>,
    start: Place,
    shape: Shape,
) -> Item<MessageBits<'a, S, L>, MessageRows<'a, S, L>>
    requires message { IsMessage space.now }
    requires content { IsContent space.now start (extent shape) }
    requires rows { RowsFit shape }
    requires room { HasRoom shape }
    requires some { (v : Value) × IsInside space.now shape start.segment start.word v }
    ensures { (v : Value) → IsInside space.now shape start.segment start.word v
        → IsItem (λ x ws. PacksBits x.space x.start x.bits ws)
        (λ x bs. AreRows x.space x.start x.count x.words x.slots bs) result v }
{
    match shape {
        Shape::Node { words, slots } => Item::Struct(MessageRows {
            space: space.again(),
            start,
            count: 1,
            words: words as u32,
            slots: slots as u32,
        }),
        Shape::Many { width, count } => match width {
            Width::Link => Item::Links(
                MessageRows {
                    space: space.again(),
                    start,
                    count: 1,
                    words: 0,
                    slots: count,
                },
                count,
            ),
            _ => Item::Numbers(
                MessageBits {
                    space: space.again(),
                    start,
                    bits: bits_of(width) * count as u64,
                },
                width,
                count,
            ),
        },
        Shape::Rows {
            count,
            words,
            slots,
            span: _,
        } => Item::Rows(
            MessageRows {
                space: space.again(),
                start: Place {
                    segment: start.segment,
                    word: start.word + 1,
                },
                count,
                words: words as u32,
                slots: slots as u32,
            },
            count,
        ),
    }
}
