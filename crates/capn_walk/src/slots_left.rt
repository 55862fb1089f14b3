//! The slots of an object that a survey or an index still has to visit.

ghost use Rattle.std.specs.Prelude.{◌≡◌, ℕ, ◌-◌, ◌<◌, ◌≤◌, ◌+◌, ◌*◌, ◌^◌, [], ◌∷◌, ◌↔◌, IsTrue};
ghost use Rattle.capn_walk.specs.Visits.{slots};
ghost use Rattle.capn_target.specs.Shapes.{slot_count, extent, RowsFit};
ghost use Rattle.capn_walk.specs.inner.SlotsLeft.{places_of, owed, end_of, HasRows};

use capn_target::Shape;
use capn_words::{Place, Width};

/// The slots of an object that are still to be visited, in order: the remaining slots of the current row, then the
/// slots of the later rows. A struct and a list of pointers count as one row.
#[derive(Clone, Copy, Default)]
pub struct SlotsLeft {
    /// The segment of the object.
    pub segment: u32,
    /// The word of the next slot, or of the next row if the current row has no slot left.
    pub next: u32,
    /// The number of remaining slots of the current row.
    pub left: u32,
    /// The number of rows after the current row, or 0 if the rows have no slots.
    pub rows: u32,
    /// The number of data words of each row after the current row.
    pub words: u16,
    /// The number of slots of each row after the current row.
    pub slots: u16,
}

/// An object that waits until everything below one of its slots is visited.
#[derive(Clone, Copy, Default)]
pub struct Waiting {
    /// The slots of the object that are still to be visited.
    pub frame: SlotsLeft,
    /// The number of levels that the depth limit still allows for the targets of the slots in `frame`.
    pub depth: u32,
}

impl SlotsLeft {
    /// Returns the slots of an object of `shape` whose content starts at `start`.
    #[inline(always)]
    pub fn of_object(start: Place, shape: Shape) -> SlotsLeft
        requires fits { RowsFit shape }
        requires end { start.word + extent shape < 2 ^ 32 }
        ensures places { places_of result ≡ slots start.segment start.word shape }
        ensures owed { owed result ≡ slot_count shape }
        ensures segment { result.segment ≡ start.segment }
        ensures end { end_of result ≤ start.word + extent shape }
        ensures rows { HasRows result }
    {
        let (next, left) = match shape {
            Shape::Node { words, slots } => (start.word + words as u32, slots as u32),
            Shape::Many {
                width: Width::Link,
                count,
            } => (start.word, count),
            Shape::Rows {
                count,
                words,
                slots,
                span: _,
            } => {
                return SlotsLeft {
                    segment: start.segment,
                    next: start.word + 1,
                    left: 0,
                    rows: if slots == 0 { 0 } else { count },
                    words,
                    slots,
                };
            }
            _ => (start.word, 0),
        };
        SlotsLeft {
            segment: start.segment,
            next,
            left,
            rows: 0,
            words: 0,
            slots: 0,
        }
    }

    /// Tests whether no slot is left.
    #[inline(always)]
    pub fn is_done(&self) -> bool
        requires { HasRows self.now }
        ensures { IsTrue result ↔ (owed self.now ≡ 0) }
    {
        self.left == 0 && self.rows == 0
    }

    /// Returns `self` with the next row as the current row.
    #[inline(always)]
    pub fn turned(self) -> SlotsLeft
        requires done { self.left ≡ 0 }
        requires some { 0 < self.rows }
        requires rows { HasRows self }
        requires end { end_of self < 2 ^ 32 }
        ensures places { places_of result ≡ places_of self }
        ensures owed { owed result ≡ owed self }
        ensures segment { result.segment ≡ self.segment }
        ensures end { end_of result ≡ end_of self }
        ensures rows { HasRows result }
        ensures some { 0 < result.left }
    {
        SlotsLeft {
            segment: self.segment,
            next: self.next + self.words as u32,
            left: self.slots as u32,
            rows: self.rows - 1,
            words: self.words,
            slots: self.slots,
        }
    }

    /// Returns the place of the next slot, and the slots that are left after that slot.
    #[inline(always)]
    pub fn take(self) -> (Place, SlotsLeft)
        requires some { 0 < self.left }
        requires rows { HasRows self }
        requires end { end_of self < 2 ^ 32 }
        ensures places { places_of self ≡ result.0 ∷ places_of result.1 }
        ensures owed { owed self ≡ owed result.1 + 1 }
        ensures here { result.0.segment ≡ self.segment }
        ensures within { result.0.word < end_of self }
        ensures segment { result.1.segment ≡ self.segment }
        ensures end { end_of result.1 ≡ end_of self }
        ensures kept { HasRows result.1 }
    {
        let at = Place {
            segment: self.segment,
            word: self.next,
        };
        let rest = SlotsLeft {
            next: self.next + 1,
            left: self.left - 1,
            ..self
        };
        (at, rest)
    }
}
