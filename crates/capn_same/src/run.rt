//! Consecutive words and rows of a message.

ghost use Rattle.std.specs.Prelude.{◌≡◌, ◌+◌, ◌^◌, ◌<◌};

use capn_words::Place;

/// A run of consecutive words: the data words of a struct, its slots, or the elements of a list of pointers.
#[derive(Clone, Copy)]
pub struct Run {
    pub start: Place,
    pub count: u32,
}

/// Returns the place `steps` words after `start`.
#[inline(always)]
pub fn behind(start: Place, steps: u32) -> Place
    requires { start.word + steps < 2 ^ 32 }
    ensures { result ≡ record { segment = start.segment; word = start.word + steps } }
{
    Place {
        segment: start.segment,
        word: start.word + steps,
    }
}

/// Consecutive rows of equal sizes: the start of the first row, and the numbers of words and of slots of each row.
#[derive(Clone, Copy)]
pub struct Rows {
    pub start: Place,
    pub words: u32,
    pub slots: u32,
}

/// Returns the data words of `row`.
#[inline(always)]
pub fn data_of(row: Rows) -> Run
    ensures { result ≡ record { start = row.start; count = row.words } }
{
    Run {
        start: row.start,
        count: row.words,
    }
}

/// Returns the slots of `row`.
#[inline(always)]
pub fn slots_of(row: Rows) -> Run
    requires { row.start.word + row.words < 2 ^ 32 }
    ensures { result ≡ record {
      start = record { segment = row.start.segment; word = row.start.word + row.words };
      count = row.slots;
    } }
{
    Run {
        start: behind(row.start, row.words),
        count: row.slots,
    }
}
