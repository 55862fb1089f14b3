//! The slots of an object, as rows of equal sizes.

ghost use Rattle.std.specs.Prelude.{◌≡◌, ◌+◌, ◌*◌, ◌<◌, ◌^◌};
ghost use Rattle.capn_mismatch.specs.inner.Reached as spec;

use capn_target::Shape;
use capn_words::{Place, Width};

/// The slots of an object, in consecutive rows of equal sizes.
#[derive(Clone, Copy)]
pub struct SlotRows {
    /// The place at which the first row begins.
    pub at: Place,
    /// The number of rows: 1 for a struct or a list of pointers, and 0 for a list of numbers.
    pub count: u32,
    /// The number of data words of a row, which lie before the row's slots.
    pub words: u32,
    /// The number of slots of a row.
    pub slots: u32,
}

impl SlotRows {
    /// Returns the place of slot `slot` in row `row`.
    pub fn place(self, row: u32, slot: u32) -> Place
        requires row { row < self.count }
        requires slot { slot < self.slots }
        requires room { self.at.word + self.count * (self.words + self.slots) < 2 ^ 32 }
        ensures { result ≡ spec.place_in self row slot }
    {
        let before = row * (self.words + self.slots);
        Place {
            segment: self.at.segment,
            word: self.at.word + before + self.words + slot,
        }
    }
}

/// Returns the slots of an object of `shape` whose content starts at `start`.
pub fn slot_rows(start: Place, shape: Shape) -> SlotRows
    requires room { start.word + 1 < 2 ^ 32 }
    ensures { result ≡ spec.rows_of start shape }
{
    match shape {
        Shape::Node { words, slots } => SlotRows {
            at: start,
            count: 1,
            words: words as u32,
            slots: slots as u32,
        },
        Shape::Many { width, count } => match width {
            Width::Link => SlotRows {
                at: start,
                count: 1,
                words: 0,
                slots: count,
            },
            _ => SlotRows {
                at: start,
                count: 0,
                words: 0,
                slots: 0,
            },
        },
        Shape::Rows {
            count,
            words,
            slots,
            span: _,
        } => SlotRows {
            at: Place {
                segment: start.segment,
                word: start.word + 1,
            },
            count,
            words: words as u32,
            slots: slots as u32,
        },
    }
}
