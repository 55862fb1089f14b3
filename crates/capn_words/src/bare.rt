//! A message of one segment, read in place.

ghost use Rattle.std.specs.Prelude.{◌≡◌, ℕ, ◌<◌, ◌≤◌, ◌*◌, ◌+◌, List, [], ◌∷◌, length, take, drop};
ghost use Rattle.capn_words.specs.Message.{IsBare, ReadsBare, word_number};

use crate::limits::MOST_WORDS;
use crate::space::{Place, Space};
use byteorder::{ByteOrder, LittleEndian};
use std::error::Error;
use std::fmt;
use std::marker::Model;

/// The reason why bytes are not the words of one segment. The variants are in the order of the tests.
#[derive(Clone, Copy, Debug, PartialEq, Eq)]
pub enum BareFault {
    /// The number of bytes, if it is no multiple of 8.
    NotWhole(u64),
    /// The number of words, if it is above 2^28 + 1.
    TooLong(u64),
}

impl fmt::Display for BareFault {
    ghost use Rattle.std.specs.Prelude.{Some};
    ghost use Rattle.capn_words.specs.Display.{bare_text};

    ghost output = { λ fault. Some (bare_text fault) };

    fn fmt<W: fmt::Write>(&self, f: &mut fmt::Formatter<W>) -> fmt::Result {
        match self {
            BareFault::NotWhole(bytes) => write!(f, "NotWhole({bytes})"),
            BareFault::TooLong(words) => write!(f, "TooLong({words})"),
        }
    }
}

impl Error for BareFault {}

/// Returns the word at byte `8 * index` of `bytes`.
#[tactic(auto, unfolding(crate::specs::Message::word_number))]
fn word_of(bytes: &[u8], index: usize) -> u64
    requires { 8 * index + 8 ≤ length bytes.now }
    ensures { result ≡ word_number (drop (8 * index) bytes.now) }
{
    LittleEndian::read_u64(&bytes[8 * index..])
}

/// Returns the `len` bytes of `bytes` from byte `start` on.
fn part(bytes: &[u8], start: usize, len: usize) -> &[u8]
    requires { start + len ≤ length bytes.now }
    ensures { result.now ≡ take len (drop start bytes.now) }
{
    &bytes[start..start + len]
}

/// A message of one segment over borrowed bytes. Contracts see the message as the list of its words.
#[derive(Debug, Drop)]
pub struct Bare<'a> {
    bytes: &'a [u8],
}

impl<'a> Model for Bare<'a> {
    ghost use Rattle.std.specs.Prelude.{◌≡◌, ℕ, ◌/◌, ◌%◌, ◌≤◌, List, length};
    ghost use Rattle.capn_words.specs.Message.{most_words};
    ghost use Rattle.capn_words.specs.Message.{AreBytes, words_in};

    ghost Value = { List ℕ };

    ghost view = { λ b. words_in (length b.bytes.now / 8) b.bytes.now };

    ghost invariant = { λ b.
        (length b.bytes.now % 8 ≡ 0) × (length b.bytes.now / 8 ≤ most_words)
        × AreBytes b.bytes.now };
}

impl<'a> Bare<'a> {
    /// Reads `bytes` as the words of one segment, which may be empty. Nothing is copied.
    ///
    /// Errors: `NotWhole` with the number of bytes, if that is no multiple of 8. Otherwise `TooLong` with the number of
    /// words, if that is above 2^28 + 1. (Our own: the limit.)
    pub fn new(bytes: &'a [u8]) -> Result<Bare<'a>, BareFault>
        // `ReadsBare` states the meaning of `result`. If `IsBare` holds of `bytes` and `ws`, `result` is `Ok ws`.
        ensures exact { ReadsBare bytes.now result }
        ensures only { (ws : List ℕ) → IsBare bytes.now ws → result ≡ Ok ws }
    {
        let length = bytes.len() as u64;
        if length % 8 != 0 {
            return Err(BareFault::NotWhole(length));
        }
        let words = length / 8;
        if words > MOST_WORDS as u64 {
            return Err(BareFault::TooLong(words));
        }
        Ok(Bare { bytes })
    }
}

impl<'a> Space for Bare<'a> {
    ghost message = { λ words. words ∷ [] };

    fn segments(&self) -> u32 {
        // Reading a field gives the prover the type's invariant, which bounds the number and the range of the words.
        let _bytes = &self.bytes;
        1
    }

    fn words(&self, segment: u32) -> Option<u32> {
        if segment == 0 {
            Some((self.bytes.len() / 8) as u32)
        } else {
            None
        }
    }

    fn word(&self, at: Place) -> u64 {
        word_of(self.bytes, at.word as usize)
    }

    fn bytes(&self, at: Place, len: usize) -> &[u8] {
        part(self.bytes, 8 * at.word as usize, len)
    }
}
