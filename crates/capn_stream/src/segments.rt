//! The type `Segments`, a message of borrowed segments that lie apart in memory.

ghost use Rattle.std.specs.Prelude.{◌≡◌, ◌≤◌, ◌<◌, length, All, List, ℕ, Ok};
ghost use Rattle.capn_words.specs.Message.{most_message_words};
ghost use Rattle.capn_stream.specs.Segments.{counted_words, IsHeld, IsWord, message_of, ReadsSegments};

use crate::segment_bytes::{bytes_of, part, word_at};
use crate::segments_fault::SegmentsFault;
use capn_words::{MOST_SEGMENTS, Place, Space};
use std::marker::Model;

/// Returns the number of words of `segment`.
fn length_of(segment: &[[u8; 8]]) -> u64
    ensures count { result ≡ length segment.now }
    ensures each { All IsWord segment.now }
{
    let _bytes = bytes_of(segment);
    segment.len() as u64
}

/// Returns the number of words in all `segments` together, but at most 2^64 - 1.
fn words_in(segments: &[&[[u8; 8]]]) -> u64
    ensures count { result ≡ counted_words (message_of segments.now) }
    ensures each { All (λ segment. All IsWord segment.now) segments.now }
{
    let mut words = 0u64;
    for segment in segments {
        words = words.saturating_add(length_of(segment));
    }
    words
}

/// A message over borrowed segments. Contracts see the message as a list of segments, each a list of words.
///
/// No byte is copied, and each word is found in constant time.
#[derive(Debug, Drop)]
pub struct Segments<'a> {
    segments: &'a [&'a [[u8; 8]]],
}

impl<'a> Model for Segments<'a> {
    ghost use Rattle.std.specs.Prelude.{ℕ, List, All};
    ghost use Rattle.capn_words.specs.Message.{most_words};
    ghost use Rattle.capn_stream.specs.Segments.{IsHeld, IsWord, message_of};

    ghost Value = { List (List ℕ) };

    ghost view = { λ s. message_of s.segments.now };

    ghost invariant = { λ s. IsHeld (message_of s.segments.now) most_words
        × All (λ segment. All IsWord segment.now) s.segments.now };
}

impl<'a> Segments<'a> {
    /// Reads `segments` as a message. Each segment is a list of words of 8 bytes, the least significant byte first, and
    /// may be empty. Nothing is copied.
    ///
    /// Errors: `Empty` if there are no segments. `TooManySegments` with the number of segments, if above 4,096.
    /// `TooManyWords` with the number of words in all segments, if above `max_words`. (Our own: the limits.)
    pub fn new(segments: &'a [&'a [[u8; 8]]], max_words: u32) -> Result<Segments<'a>, SegmentsFault>
        requires { max_words ≤ most_message_words }
        // `ReadsSegments` states the meaning of `result`. If `segments` are within the limits, their words are
        // returned.
        ensures exact { ReadsSegments (message_of segments.now) max_words result }
        ensures only { IsHeld (message_of segments.now) max_words → result ≡ Ok (message_of segments.now) }
    {
        let count = segments.len();
        if count == 0 {
            return Err(SegmentsFault::Empty);
        }
        if count > MOST_SEGMENTS as usize {
            return Err(SegmentsFault::TooManySegments(count as u64));
        }
        let words = words_in(segments);
        if words > max_words as u64 {
            return Err(SegmentsFault::TooManyWords(words));
        }
        Ok(Segments { segments })
    }
}

impl<'a> Space for Segments<'a> {
    ghost message = { λ message. message };

    fn segments(&self) -> u32 {
        self.segments.len() as u32
    }

    fn words(&self, segment: u32) -> Option<u32> {
        if segment as usize >= self.segments.len() {
            return None;
        }
        Some(self.segments[segment as usize].len() as u32)
    }

    fn word(&self, at: Place) -> u64 {
        word_at(self.segments[at.segment as usize], at.word as usize)
    }

    fn bytes(&self, at: Place, len: usize) -> &[u8] {
        part(self.segments[at.segment as usize], at.word as usize, len)
    }
}
