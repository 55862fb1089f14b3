//! The type `Framed`, a message whose segments follow one another in borrowed bytes.

ghost use Rattle.std.specs.Prelude.{◌≡◌, ℕ, ◌+◌, ◌<◌};
ghost use Rattle.capn_stream.specs.Cuts.{AreEnds, cut};
ghost use Rattle.capn_stream.specs.inner.KeptEnds.{AreKept, kept};

use crate::ends::Ends;
use capn_words::{Bare, Place, Space};
use std::alloc::{Allocator, Global};
use std::marker::Model;

/// A message whose segments follow one another in borrowed bytes.
///
/// No byte is copied. The value has the borrow, and the ends of all segments except the last. Up to 63 ends are stored
/// in the value itself, so that a message of at most 64 segments takes no memory. Every segment is found in constant
/// time.
#[derive(Debug, Drop)]
pub struct Framed<'a, A: Allocator = Global> {
    words: Bare<'a>,
    ends: Ends<A>,
}

impl<'a, A: Allocator> Model for Framed<'a, A> {
    ghost use Rattle.std.specs.Prelude.{ℕ, List};
    ghost use Rattle.capn_stream.specs.Cuts.{AreEnds, cut};
    ghost use Rattle.capn_stream.specs.inner.KeptEnds.{AreKept, kept};

    ghost Value = { List (List ℕ) };

    ghost view = { λ f. cut 0 (kept f.ends) f.words };

    ghost invariant = { λ f. AreKept f.ends × AreEnds (kept f.ends) f.words };
}

impl<'a, A: Allocator> Framed<'a, A> {
    /// Returns the message whose segments are `words`, cut at `ends`.
    pub(crate) fn new(words: Bare<'a>, ends: Ends<A>) -> Framed<'a, A>
        requires kept { AreKept ends }
        requires ends { AreEnds (kept ends) words }
        ensures { result ≡ cut 0 (kept ends) words.entry }
    {
        Framed { words, ends }
    }
}

impl<'a, A: Allocator> Space for Framed<'a, A> {
    ghost message = { λ m. m };

    fn segments(&self) -> u32 {
        self.ends.count() as u32 + 1
    }

    fn words(&self, segment: u32) -> Option<u32> {
        let segment = segment as usize;
        if segment > self.ends.count() {
            return None;
        }
        let all = self.words.words(0).unwrap_or(0);
        Some(self.ends.end_of(all, segment) - self.ends.start_of(segment))
    }

    fn word(&self, at: Place) -> u64 {
        let start = self.ends.start_of(at.segment as usize);
        self.words.word(Place {
            segment: 0,
            word: start + at.word,
        })
    }

    fn bytes(&self, at: Place, len: usize) -> &[u8] {
        let start = self.ends.start_of(at.segment as usize);
        self.words.bytes(
            Place {
                segment: 0,
                word: start + at.word,
            },
            len,
        )
    }
}
