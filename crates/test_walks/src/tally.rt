//! The message that counts how often it is read.

ghost use Rattle.std.specs.Prelude.{◌≡◌};

use capn_words::{Place, Space};
use std::cell::Cell;

/// A message that counts how often it is read. Bytes count as the words that they take.
#[derive(Drop)]
pub(crate) struct Tally<'s, S: Space> {
    space: &'s S,
    times: Cell<u64>,
}

impl<'s, S: Space> Tally<'s, S> {
    /// Returns `space` with a count of zero.
    pub(crate) fn of(space: &'s S) -> Tally<'s, S>
        ensures { S.message result.space.now ≡ S.message space.now }
    {
        Tally {
            space,
            times: Cell::new(0),
        }
    }

    /// Adds `times` to the count.
    fn add(&self, times: u64) {
        self.times.set(self.times.get().wrapping_add(times));
    }

    /// Returns the count, and resets it to zero.
    pub(crate) fn taken(&self) -> u64 {
        let times = self.times.get();
        self.times.set(0);
        times
    }
}

impl<'s, S: Space> Space for Tally<'s, S> {
    ghost message = { λ a. S.message a.space.now };

    fn segments(&self) -> u32 {
        self.add(1);
        self.space.segments()
    }

    fn words(&self, segment: u32) -> Option<u32> {
        self.add(1);
        self.space.words(segment)
    }

    fn word(&self, at: Place) -> u64 {
        self.add(1);
        self.space.word(at)
    }

    fn bytes(&self, at: Place, len: usize) -> &[u8] {
        self.add(len.div_ceil(8) as u64);
        self.space.bytes(at, len)
    }
}
