//! The type `NumberLine`, a line with numbers that is built from its end to its beginning in a fixed buffer.

ghost use Rattle.std.specs.Prelude.{◌≡◌, ◌+◌, ◌≤◌, [], ◌++◌, length};
ghost use Rattle.std.specs.Fmt.{decimal};

use std::marker::Model;

/// A line of at most `ROOM` bytes that is built from its end to its beginning, like the digits of a number. Building a
/// line takes no memory.
#[derive(Drop)]
pub struct NumberLine<const ROOM: usize> {
    bytes: [u8; ROOM],
    start: usize,
}

impl<const ROOM: usize> Model for NumberLine<ROOM> {
    ghost use Rattle.std.specs.Prelude.{ℕ, ◌≤◌, List, drop};

    ghost Value = { List ℕ };

    ghost view = { λ line. drop line.start line.bytes };

    ghost invariant = { λ line. line.start ≤ ROOM };
}

impl<const ROOM: usize> NumberLine<ROOM> {
    /// Returns an empty line.
    #[inline(always)]
    pub fn new() -> NumberLine<ROOM>
        ensures { result ≡ [] }
    {
        NumberLine {
            bytes: [0; ROOM],
            start: ROOM,
        }
    }

    /// Returns the bytes of the line.
    #[inline(always)]
    pub fn as_bytes(&self) -> &[u8]
        ensures { result.now ≡ self.now }
    {
        let bytes = &self.bytes[..];
        &bytes[self.start..]
    }

    /// Writes `part` in front of the line.
    #[inline(always)]
    pub fn put(&mut self, part: &[u8])
        requires { length part.now + length self.old ≤ ROOM }
        ensures { self.new ≡ part.now ++ self.old }
    {
        let start = self.start - part.len();
        let bytes = &mut self.bytes[..];
        bytes[start..self.start].copy_from_slice(part);
        self.start = start;
    }

    /// Writes the decimal digits of `n` in front of the line.
    #[inline(always)]
    pub fn put_number(&mut self, n: u64)
        requires { 20 + length self.old ≤ ROOM }
        ensures number { self.new ≡ decimal n ++ self.old }
        ensures few { length self.new ≤ 20 + length self.old }
    {
        self.start = itoa::write_digits(n, &mut self.bytes, self.start);
    }

    /// Writes `name` and the decimal digits of `n` in front of the line.
    #[inline(always)]
    pub fn put_named(&mut self, name: &[u8], n: u64)
        requires { length name.now + 20 + length self.old ≤ ROOM }
        ensures named { self.new ≡ name.now ++ (decimal n ++ self.old) }
        ensures few { length self.new ≤ length name.now + 20 + length self.old }
    {
        self.put_number(n);
        self.put(name);
    }
}
