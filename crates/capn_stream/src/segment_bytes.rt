//! The bytes of 8-byte words, borrowed without a copy.

ghost use Rattle.std.specs.Prelude.{◌≡◌, ◌+◌, ◌*◌, ◌<◌, ◌≤◌, ◌^◌, [], length, take, drop, All, slice_index_or};
ghost use Rattle.capn_words.specs.Message.{AreBytes, word_number};
ghost use Rattle.capn_stream.specs.Segments.{IsWord, joined};

use byteorder::{ByteOrder, LittleEndian};
use std::slice;

/// Returns the joined bytes of `words`, which are `count` bytes.
fn joined_bytes(words: &[[u8; 8]], count: usize) -> &[u8]
    requires { (count ≡ length (joined words.now)) × (count < 2 ^ 63) }
    ensures { result.now ≡ joined words.now }
{
    unsafe { slice::from_raw_parts(words.as_ptr() as *const u8, count) }
}

/// Returns `bytes`. The condition `each` tells the prover that each byte is below 256.
fn as_bytes(bytes: &[u8]) -> &[u8]
    ensures same { result.now ≡ bytes.now }
    ensures each { AreBytes bytes.now }
{
    bytes
}

/// Returns the bytes of `words` without a copy.
pub fn bytes_of(words: &[[u8; 8]]) -> &[u8]
    ensures value { result.now ≡ joined words.now }
    ensures count { length result.now ≡ 8 * length words.now }
    ensures each { All IsWord words.now }
{
    as_bytes(joined_bytes(words, 8 * words.len()))
}

/// Returns the `len` bytes from the start of word `start` of `words` on.
pub fn part(words: &[[u8; 8]], start: usize, len: usize) -> &[u8]
    requires { 8 * start + len ≤ 8 * length words.now }
    ensures { result.now ≡ take len (drop (8 * start) (joined words.now)) }
{
    let from = 8 * start;
    &bytes_of(words)[from..from + len]
}

/// Returns word `index` of `words` as a number, the least significant byte first.
#[tactic(auto, unfolding(capn_words::specs::Message::word_number))]
pub fn word_at(words: &[[u8; 8]], index: usize) -> u64
    requires { index < length words.now }
    ensures { result ≡ word_number (slice_index_or words.now index []) }
{
    LittleEndian::read_u64(&words[index])
}
