//! A buffer of words and holes.

ghost use Rattle.std.specs.Prelude.{◌≡◌, ℕ, ◌+◌, ◌*◌, ◌<◌, ◌≤◌, [], ◌∷◌, ◌++◌, length, take, drop, set, replicate};
ghost use Rattle.std.specs.Prelude.{Some, None, IfOk, IfErr, OnOk, OnErr, IsOk};
ghost use Rattle.capn_words.specs.Message.{word_bytes, bytes as bytes_of_words};
ghost use Rattle.capn_layout.specs.Patch.{IsHole, IsWhole, filled, whole};
ghost use Rattle.capn_target.specs.Target.{words_for};
ghost use Rattle.capn_layout.specs.Layout.{packed};

use crate::elements::append_bytes;
use crate::marks::{cover, mark, unmark};
use byteorder::{ByteOrder, LittleEndian};
use capn_value::Memory;
use std::alloc::{Allocator, Global};
use std::marker::Model;

/// A list of words and holes. A hole is a word that is not known yet.
///
/// The words are stored as bytes. In addition each word has a bit that says whether the word is a hole.
#[derive(Debug, Drop)]
pub struct Patch<A: Allocator = Global> {
    bytes: Vec<u8, A>,
    holes: Vec<u64, A>,
}

impl<A: Allocator> Model for Patch<A> {
    ghost use Rattle.std.specs.Prelude.{ℕ, List, Option};
    ghost use Rattle.capn_layout.specs.Patch.{patched, IsPatched};

    ghost Value = { List (Option ℕ) };

    ghost view = { λ p. patched p.holes.items p.bytes.items };

    ghost invariant = { λ p. IsPatched p.holes.items p.bytes.items };
}

/// Returns the 8 bytes of `word`.
#[tactic(auto, unfolding(capn_words::specs::Message::word_bytes))]
pub(crate) fn bytes_of(word: u64) -> [u8; 8]
    ensures { result ≡ word_bytes word }
{
    let mut bytes = [0; 8];
    LittleEndian::write_u64(&mut bytes, word);
    bytes
}

/// Writes `word` over the 8 bytes of `bytes` from offset `start` on.
pub(crate) fn write_at<A: Allocator>(bytes: &mut Vec<u8, A>, start: usize, word: u64)
    requires { start + 8 ≤ length bytes.old.items }
    ensures { bytes.new.items
        ≡ take start bytes.old.items ++ (word_bytes word ++ drop (start + 8) bytes.old.items) }
{
    let word = bytes_of(word);
    bytes[start..start + 8].copy_from_slice(&word);
}

impl<A: Allocator + Copy> Patch<A> {
    /// Returns an empty buffer. No memory is allocated on `alloc` until something is appended.
    pub fn new(alloc: A) -> Patch<A>
        ensures { result ≡ [] }
    {
        Patch {
            bytes: Vec::new(alloc),
            holes: Vec::new(alloc),
        }
    }
}

impl<A: Allocator> Patch<A> {
    /// Returns the number of words and holes.
    pub fn len(&self) -> usize
        ensures { result ≡ length self.now }
    {
        self.bytes.len() / 8
    }

    /// Appends `n` words of zeros.
    #[inline(always)]
    fn append_zeros(&mut self, n: usize) -> Result<(), Memory>
        ensures ok { OnOk result (self.new ≡ self.old ++ replicate n (Some 0)) }
        ensures err { OnErr result (self.new ≡ self.old) }
    {
        let len = self.bytes.len();
        cover(&mut self.holes, (len / 8).saturating_add(n))?;
        self.bytes
            .resize(len.saturating_add(n.saturating_mul(8)), 0)?;
        Ok(())
    }

    /// Makes word `at` a hole.
    #[inline(always)]
    fn open(&mut self, at: usize)
        requires { at < length self.old }
        ensures { self.new ≡ set self.old at None }
    {
        mark(&mut self.holes, at);
    }

    /// Appends `word`.
    ///
    /// Returns `Memory` if an allocation was refused. The buffer is then unchanged.
    pub fn push(&mut self, word: u64) -> Result<(), Memory>
        ensures ok { OnOk result (self.new ≡ self.old ++ Some word ∷ []) }
        ensures err { OnErr result (self.new ≡ self.old) }
    {
        let len = self.bytes.len() / 8;
        cover(&mut self.holes, len + 1)?;
        let word = bytes_of(word);
        self.bytes.extend_from_slice(&word)?;
        Ok(())
    }

    /// Appends `n` holes. Returns the length of the buffer before the call, the place of the first hole if `n` isn't 0.
    ///
    /// Returns `Memory` if an allocation was refused. The buffer is then unchanged.
    #[inline(always)]
    pub fn leave(&mut self, n: usize) -> Result<usize, Memory>
        ensures ok { IfOk result (λ at. (at ≡ length self.old)
            × (self.new ≡ self.old ++ replicate n None)) }
        ensures err { OnErr result (self.new ≡ self.old) }
    {
        let at = self.len();
        if n == 0 {
            return Ok(at);
        }
        self.append_zeros(n)?;
        let end = self.len();
        for i in at..end {
            self.open(i);
        }
        Ok(at)
    }

    /// Appends the bytes `xs`, packed eight to a word. Returns `Memory` if an allocation was refused. The buffer is
    /// then unchanged.
    pub fn extend_bytes(&mut self, xs: &[u8]) -> Result<(), Memory>
        ensures ok { OnOk result (self.new
            ≡ self.old ++ whole (packed 8 8 (words_for (8 * length xs.now)) xs.now)) }
        ensures err { OnErr result (self.new ≡ self.old) }
    {
        let words = self.bytes.len() / 8;
        cover(&mut self.holes, words.saturating_add(xs.len().div_ceil(8)))?;
        append_bytes(&mut self.bytes, xs)?;
        Ok(())
    }

    /// Writes `word` into the hole at `at`.
    pub fn fill(&mut self, at: usize, word: u64)
        requires { IsHole self.old at }
        ensures { self.new ≡ set self.old at (Some word) }
    {
        write_at(&mut self.bytes, 8 * at, word);
        unmark(&mut self.holes, at);
    }

    /// Returns the bytes of the words. No hole may be left.
    ///
    /// The buffer is moved, so nothing is copied and no memory is allocated. An `Err`, which would return the buffer
    /// with `Memory`, never occurs.
    pub fn finish(self) -> Result<Vec<u8, A>, (Patch<A>, Memory)>
        requires { IsWhole self }
        ensures ok { IfOk result (λ v. v.items ≡ bytes_of_words (filled self)) }
        ensures err { IfErr result (λ e. e.0 ≡ self) }
        ensures never { IsOk result }
    {
        Ok(self.bytes)
    }
}
