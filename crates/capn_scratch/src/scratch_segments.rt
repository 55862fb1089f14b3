//! A message in borrowed bytes, with the ends of its segments in borrowed words.

ghost use Rattle.std.specs.Prelude.{◌≡◌};
ghost use Rattle.capn_stream.specs.Cuts.{AreEnds, cut};
ghost use Rattle.capn_scratch.specs.inner.Ends.{numbers};

use crate::ends::{end_of, start_of};
use capn_words::{Bare, Place, Space};
use std::marker::Model;

/// A message whose segments follow one another in borrowed bytes. In contracts it is the list of its segments.
///
/// The words are not copied. The ends of all segments but the last are borrowed too. So nothing is allocated, and every
/// segment is found in constant time.
#[derive(Drop)]
pub(crate) struct ScratchSegments<'a> {
    words: Bare<'a>,
    ends: &'a [[u8; 8]],
}

impl<'a> Model for ScratchSegments<'a> {
    ghost use Rattle.std.specs.Prelude.{ℕ, List};
    ghost use Rattle.capn_stream.specs.Cuts.{AreEnds, cut};
    ghost use Rattle.capn_scratch.specs.inner.Ends.{numbers};

    ghost Value = { List (List ℕ) };

    ghost view = { λ s. cut 0 (numbers s.ends.now) s.words };

    ghost invariant = { λ s. AreEnds (numbers s.ends.now) s.words };
}

impl<'a> ScratchSegments<'a> {
    /// Cuts `words` into segments at `ends`.
    pub(crate) fn new(words: Bare<'a>, ends: &'a [[u8; 8]]) -> ScratchSegments<'a>
        requires { AreEnds (numbers ends.now) words }
        ensures { result ≡ cut 0 (numbers ends.now) words.entry }
    {
        ScratchSegments { words, ends }
    }
}

impl<'a> Space for ScratchSegments<'a> {
    ghost message = { λ m. m };

    fn segments(&self) -> u32 {
        self.ends.len() as u32 + 1
    }

    fn words(&self, segment: u32) -> Option<u32> {
        let segment = segment as usize;
        if segment > self.ends.len() {
            return None;
        }
        let all = self.words.words(0).unwrap_or(0);
        Some(end_of(self.ends, all, segment) - start_of(self.ends, segment))
    }

    fn word(&self, at: Place) -> u64 {
        let start = start_of(self.ends, at.segment as usize);
        self.words.word(Place {
            segment: 0,
            word: start + at.word,
        })
    }

    fn bytes(&self, at: Place, len: usize) -> &[u8] {
        let start = start_of(self.ends, at.segment as usize);
        self.words.bytes(
            Place {
                segment: 0,
                word: start + at.word,
            },
            len,
        )
    }
}
