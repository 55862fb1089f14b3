//! The type `Stored`, a message that owns its segments.

ghost use Rattle.std.specs.Prelude.{◌≡◌, ℕ, ◌+◌, ◌-◌, ◌*◌, ◌/◌, ◌%◌, ◌<◌, ◌≤◌, ◌∷◌, ◌++◌, [], List};
ghost use Rattle.std.specs.Prelude.{length, slice_index, take, drop};
ghost use Rattle.capn_words.specs.Message.{AreBytes, bytes, word_number, words_in};
ghost use Rattle.capn_stream.specs.Cuts.{AreEnds, cut};
ghost use Rattle.capn_stream.specs.inner.StoredWords.{IsTail};

use byteorder::{ByteOrder, LittleEndian};
use capn_words::{Place, Space};
use std::alloc::{Allocator, Global};
use std::marker::Model;

/// The words of a frame after its table. The value owns all of the frame.
#[derive(Debug, Drop)]
pub(crate) struct Words<A: Allocator = Global> {
    frame: Vec<u8, A>,
    start: usize,
}

impl<A: Allocator> Model for Words<A> {
    ghost use Rattle.std.specs.Prelude.{◌≡◌, ℕ, ◌/◌, ◌%◌, ◌^◌, ◌<◌, ◌≤◌, List, length, drop};
    ghost use Rattle.capn_words.specs.Message.{AreBytes, words_in};
    ghost use Rattle.capn_stream.specs.inner.StoredWords.{IsTail};

    ghost Value = { List ℕ };

    ghost view = { λ w. words_in (length (drop w.start w.frame.items) / 8) (drop w.start w.frame.items) };

    ghost invariant = { λ w. IsTail w.frame.items w.start };
}

/// Returns the number of words of `frame` from byte `start` on.
fn count_of(frame: &[u8], start: usize) -> usize
    requires { start ≤ length frame.now }
    ensures { result ≡ length (drop start frame.now) / 8 }
{
    (frame.len() - start) / 8
}

/// Returns word `index` of the words that begin at byte `start` of `frame`.
#[tactic(auto, unfolding(capn_words::specs::Message::word_number))]
fn word_of(frame: &[u8], start: usize, index: usize) -> u64
    requires { start + (8 * index + 8) ≤ length frame.now }
    ensures { result ≡ word_number (drop (8 * index) (drop start frame.now)) }
{
    let tail = &frame[start..];
    LittleEndian::read_u64(&tail[8 * index..])
}

/// Returns the `len` bytes from byte `start + from` of `frame` on.
fn part(frame: &[u8], start: usize, from: usize, len: usize) -> &[u8]
    requires { start + (from + len) ≤ length frame.now }
    ensures { result.now ≡ take len (drop from (drop start frame.now)) }
{
    let tail = &frame[start..];
    &tail[from..from + len]
}

impl<A: Allocator> Words<A> {
    /// Returns the number of words.
    fn len(&self) -> usize
        ensures { result ≡ length self.now }
    {
        count_of(&self.frame, self.start)
    }

    /// Returns word `index`.
    fn word(&self, index: usize) -> u64
        requires { index < length self.now }
        ensures { result ≡ slice_index self.now index }
    {
        word_of(&self.frame, self.start, index)
    }

    /// Returns the `len` bytes from the start of word `index` on.
    fn bytes(&self, index: usize, len: usize) -> &[u8]
        requires { 8 * index + len ≤ 8 * length self.now }
        ensures { result.now ≡ take len (drop (8 * index) (bytes self.now)) }
    {
        part(&self.frame, self.start, 8 * index, len)
    }
}

/// Returns the index of the word at which `segment` begins.
fn start_of(ends: &[u32], segment: usize) -> u32
    requires { segment ≤ length ends.now }
    ensures { result ≡ slice_index (0 ∷ ends.now) segment }
{
    if segment == 0 { 0 } else { ends[segment - 1] }
}

/// Returns the index of the word at which `segment` ends. The last segment ends with the message, which has `words`
/// words.
fn end_of(ends: &[u32], words: u32, segment: usize) -> u32
    requires { segment ≤ length ends.now }
    ensures { result ≡ slice_index (ends.now ++ words ∷ []) segment }
{
    if segment == ends.len() {
        words
    } else {
        ends[segment]
    }
}

/// A message that owns its segments.
///
/// [`Framer`](crate::Framer) and [`read_message`](crate::read_message) return such messages. The value has the frame as
/// it was received, in one buffer, and the ends of the segments, so that every segment is found in constant time.
#[derive(Debug, Drop)]
pub struct Stored<A: Allocator = Global> {
    words: Words<A>,
    ends: Vec<u32, A>,
}

impl<A: Allocator> Model for Stored<A> {
    ghost use Rattle.std.specs.Prelude.{ℕ, List};
    ghost use Rattle.capn_stream.specs.Cuts.{AreEnds, cut};

    ghost Value = { List (List ℕ) };

    ghost view = { λ f. cut 0 f.ends.items f.words };

    ghost invariant = { λ f. AreEnds f.ends.items f.words };
}

impl<A: Allocator> Stored<A> {
    /// Returns the message whose segments are the words of `frame` from byte `start` on, cut at `ends`.
    pub(crate) fn new(frame: Vec<u8, A>, start: usize, ends: Vec<u32, A>) -> Stored<A>
        requires tail { IsTail frame.items start }
        requires ends { AreEnds ends.items (words_in (length (drop start frame.items) / 8) (drop start frame.items)) }
        ensures { result ≡ cut 0 ends.items (words_in (length (drop start frame.items) / 8) (drop start frame.items)) }
    {
        Stored {
            words: Words { frame, start },
            ends,
        }
    }
}

impl<A: Allocator> Space for Stored<A> {
    ghost message = { λ m. m };

    fn segments(&self) -> u32 {
        self.ends.len() as u32 + 1
    }

    fn words(&self, segment: u32) -> Option<u32> {
        let segment = segment as usize;
        if segment > self.ends.len() {
            return None;
        }
        let all = self.words.len() as u32;
        Some(end_of(&self.ends, all, segment) - start_of(&self.ends, segment))
    }

    fn word(&self, at: Place) -> u64 {
        let start = start_of(&self.ends, at.segment as usize);
        self.words.word((start + at.word) as usize)
    }

    fn bytes(&self, at: Place, len: usize) -> &[u8] {
        let start = start_of(&self.ends, at.segment as usize);
        self.words.bytes((start + at.word) as usize, len)
    }
}
