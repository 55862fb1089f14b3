//! The functions that write words, one after the other, into a slice of bytes. Any change here that alters canonical
//! bytes makes a new version of the canonical form. A function that appends takes the number of words written so far,
//! `len`, and returns the new number.

ghost use Rattle.std.specs.Prelude.{◌≡◌, ℕ, ◌+◌, ◌*◌, ◌/◌, ◌%◌, ◌<◌, ◌≤◌, [], ◌∷◌, length, replicate};
ghost use Rattle.std.specs.List.{flat_map};
ghost use Rattle.byteorder.specs.Endian.{little_bytes};
ghost use Rattle.capn_words.specs.Message.{words_in, word_bytes};
ghost use Rattle.capn_target.specs.Target.{words_for};
ghost use Rattle.capn_layout.specs.Layout.{packed};
ghost use Rattle.capn_layout.specs.inner.Draft.{Writes, Appends, Puts};

use byteorder::{ByteOrder, LittleEndian};
use capn_target::counted::PaidBytes;

/// Writes the bytes `xs` over the bytes of `out` from offset `at` on.
#[inline(always)]
fn write(out: &mut [u8], at: usize, xs: &[u8])
    requires { at + length xs.now ≤ length out.old }
    ensures { Writes at xs.now out.old out.new }
{
    out[at..at + xs.len()].copy_from_slice(xs);
}

/// Writes `word` over the 8 bytes of `out` from offset `at` on, with one store.
#[inline(always)]
#[tactic(auto, unfolding(capn_words::specs::Message::word_bytes))]
fn write_word(out: &mut [u8], at: usize, word: u64)
    requires { at + 8 ≤ length out.old }
    ensures { Writes at (word_bytes word) out.old out.new }
{
    LittleEndian::write_u64(&mut out[at..at + 8], word);
}

/// Appends `word` after the first `len` words of `out`. Returns the new number of words.
#[inline(always)]
pub fn push(out: &mut [u8], len: usize, word: u64) -> usize
    requires { 8 * len + 8 ≤ length out.old }
    ensures { Appends len result (word ∷ []) out.old out.new }
{
    write_word(out, 8 * len, word);
    len + 1
}

/// Writes the bytes `xs` of a message over the bytes of `out` from offset `at` on.
#[inline(always)]
fn write_paid(out: &mut [u8], at: usize, xs: PaidBytes<'_>)
    requires { at + length xs ≤ length out.old }
    ensures { Writes at xs.entry out.old out.new }
{
    let end = at + xs.len();
    xs.copy_to(&mut out[at..end]);
}

/// Appends the bytes `xs` of a message after the first `len` words of `out`. The number of bytes is a multiple of 8.
/// Returns the new number of words.
#[inline(always)]
pub fn extend(out: &mut [u8], len: usize, xs: PaidBytes<'_>) -> usize
    requires whole { length xs % 8 ≡ 0 }
    requires room { 8 * len + length xs ≤ length out.old }
    ensures { Appends len result (words_in (length xs.entry / 8) xs.entry) out.old out.new }
{
    let words = xs.len() / 8;
    write_paid(out, 8 * len, xs);
    len + words
}

/// Writes `word` over word `at` of `out`.
#[inline(always)]
pub fn put(out: &mut [u8], at: usize, word: u64)
    requires { 8 * at + 8 ≤ length out.old }
    ensures { (n : ℕ) → at < n → 8 * n ≤ length out.old → Puts n at word out.old out.new }
{
    write_word(out, 8 * at, word);
}

/// Writes `n` zeros over the bytes of `out` from offset `at` on.
fn write_zeros(out: &mut [u8], at: usize, n: usize)
    requires { at + n ≤ length out.old }
    ensures { Writes at (replicate n 0) out.old out.new }
{
    out[at..at + n].fill(0);
}

/// Appends `n` words of zeros after the first `len` words of `out`. Returns the new number of words.
pub fn extend_zeros(out: &mut [u8], len: usize, n: usize) -> usize
    requires { 8 * (len + n) ≤ length out.old }
    ensures words { Appends len result (replicate n 0) out.old out.new }
    ensures bytes { Writes (8 * len) (replicate (8 * n) 0) out.old out.new }
{
    write_zeros(out, 8 * len, 8 * n);
    len + n
}

/// Writes the numbers `xs` of 2 bytes over the bytes of `out` from offset `at` on.
fn write_pairs(out: &mut [u8], at: usize, xs: &[u16])
    requires { at + 2 * length xs.now ≤ length out.old }
    ensures { Writes at (flat_map (little_bytes 2) xs.now) out.old out.new }
{
    let size = 2 * xs.len();
    LittleEndian::write_u16_into(xs, &mut out[at..at + size]);
}

/// Writes the numbers `xs` of 4 bytes over the bytes of `out` from offset `at` on.
fn write_quads(out: &mut [u8], at: usize, xs: &[u32])
    requires { at + 4 * length xs.now ≤ length out.old }
    ensures { Writes at (flat_map (little_bytes 4) xs.now) out.old out.new }
{
    let size = 4 * xs.len();
    LittleEndian::write_u32_into(xs, &mut out[at..at + size]);
}

/// Writes the numbers `xs` of 8 bytes over the bytes of `out` from offset `at` on.
fn write_octs(out: &mut [u8], at: usize, xs: &[u64])
    requires { at + 8 * length xs.now ≤ length out.old }
    ensures { Writes at (flat_map (little_bytes 8) xs.now) out.old out.new }
{
    let size = 8 * xs.len();
    LittleEndian::write_u64_into(xs, &mut out[at..at + size]);
}

/// Appends the bytes `xs`, packed eight to a word, after the first `len` words of `out`. Returns the new number of
/// words.
pub fn extend_bytes(out: &mut [u8], len: usize, xs: &[u8]) -> usize
    requires { 8 * (len + words_for (8 * length xs.now)) ≤ length out.old }
    ensures { Appends len result (packed 8 8 (words_for (8 * length xs.now)) xs.now) out.old out.new }
{
    let end = extend_zeros(out, len, xs.len().div_ceil(8));
    write(out, 8 * len, xs);
    end
}

/// Appends the 16-bit numbers `xs`, packed four to a word, after the first `len` words of `out`. Returns the new number
/// of words.
pub fn extend_pairs(out: &mut [u8], len: usize, xs: &[u16]) -> usize
    requires { 8 * (len + words_for (16 * length xs.now)) ≤ length out.old }
    ensures { Appends len result (packed 4 16 (words_for (16 * length xs.now)) xs.now) out.old out.new }
{
    let end = extend_zeros(out, len, xs.len().div_ceil(4));
    write_pairs(out, 8 * len, xs);
    end
}

/// Appends the 32-bit numbers `xs`, packed two to a word, after the first `len` words of `out`. Returns the new number
/// of words.
pub fn extend_quads(out: &mut [u8], len: usize, xs: &[u32]) -> usize
    requires { 8 * (len + words_for (32 * length xs.now)) ≤ length out.old }
    ensures { Appends len result (packed 2 32 (words_for (32 * length xs.now)) xs.now) out.old out.new }
{
    let end = extend_zeros(out, len, xs.len().div_ceil(2));
    write_quads(out, 8 * len, xs);
    end
}

/// Appends the words `xs` after the first `len` words of `out`. Returns the new number of words.
pub fn extend_octs(out: &mut [u8], len: usize, xs: &[u64]) -> usize
    requires { 8 * (len + length xs.now) ≤ length out.old }
    ensures { Appends len result xs.now out.old out.new }
{
    write_octs(out, 8 * len, xs);
    len + xs.len()
}
