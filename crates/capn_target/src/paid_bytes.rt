//! The type `PaidBytes`, bytes whose reads were counted when the bytes were returned.

ghost use Rattle.std.specs.Prelude.{◌≡◌, ◌≤◌, length, drop, slice_index, IfOk};
ghost use Rattle.byteorder.specs.Endian.{little_number};

use byteorder::{ByteOrder, LittleEndian};
use capn_value::Items;
use std::alloc::{AllocError, Allocator};
use std::marker::Model;

/// Bytes of a message that were counted as read when they were returned. Each byte can be read once. A byte that was
/// read is removed, and a copy takes all bytes that are left. No call returns the slice, so the count bounds the reads.
#[derive(Drop)]
pub struct PaidBytes<'s> {
    bytes: &'s [u8],
}

impl<'s> Model for PaidBytes<'s> {
    ghost use Rattle.std.specs.Prelude.{ℕ, List};

    ghost Value = { List ℕ };

    ghost view = { λ b. b.bytes.now };
}

impl<'s> PaidBytes<'s> {
    /// Wraps `bytes`. Each byte can be read once.
    #[inline(always)]
    pub(crate) fn of(bytes: &'s [u8]) -> PaidBytes<'s>
        ensures { result ≡ bytes.now }
    {
        PaidBytes { bytes }
    }

    /// Returns the number of bytes that are left.
    #[inline(always)]
    pub fn len(&self) -> usize
        ensures { result ≡ length self.now }
    {
        self.bytes.len()
    }

    /// Reads the next byte.
    #[inline(always)]
    pub fn next_byte(&mut self) -> u8
        requires { 1 ≤ length self.old }
        ensures byte { result ≡ slice_index self.old 0 }
        ensures rest { self.new ≡ drop 1 self.old }
    {
        let byte = self.bytes[0];
        self.bytes = &self.bytes[1..];
        byte
    }

    /// Reads the next two bytes as a number, the least significant byte first.
    #[inline(always)]
    pub fn next_pair(&mut self) -> u16
        requires { 2 ≤ length self.old }
        ensures number { result ≡ little_number 2 self.old }
        ensures rest { self.new ≡ drop 2 self.old }
    {
        let pair = LittleEndian::read_u16(self.bytes);
        self.bytes = &self.bytes[2..];
        pair
    }

    /// Reads the next four bytes as a number, the least significant byte first.
    #[inline(always)]
    pub fn next_quad(&mut self) -> u32
        requires { 4 ≤ length self.old }
        ensures number { result ≡ little_number 4 self.old }
        ensures rest { self.new ≡ drop 4 self.old }
    {
        let quad = LittleEndian::read_u32(self.bytes);
        self.bytes = &self.bytes[4..];
        quad
    }

    /// Reads the next eight bytes as a number, the least significant byte first.
    #[inline(always)]
    pub fn next_word(&mut self) -> u64
        requires { 8 ≤ length self.old }
        ensures number { result ≡ little_number 8 self.old }
        ensures rest { self.new ≡ drop 8 self.old }
    {
        let word = LittleEndian::read_u64(self.bytes);
        self.bytes = &self.bytes[8..];
        word
    }

    /// Copies the bytes that are left into `out`, which has exactly their length.
    #[inline(always)]
    pub fn copy_to(self, out: &mut [u8])
        requires { length self ≡ length out.old }
        ensures { out.new ≡ self.entry }
    {
        out.copy_from_slice(self.bytes);
    }

    /// Copies the bytes that are left into new memory of `alloc`, which has exactly their size. Returns `AllocError` if
    /// the allocation was refused.
    #[inline(always)]
    pub fn into_items<A: Allocator>(self, alloc: A) -> Result<Items<u8, A>, AllocError>
        ensures { IfOk result (λ bytes. bytes ≡ self.entry) }
    {
        Items::from_slice(alloc, self.bytes)
    }
}
