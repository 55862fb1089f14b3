//! The pieces from which an emitter makes a text. A list of bytes that is a text has no piece: `put_text` writes the
//! list.

use capn_words::Width;

/// A piece of a text, which an emitter turns into bytes.
#[derive(Clone, Copy, Debug, PartialEq, Eq)]
pub enum Piece {
    /// A null pointer.
    Nil,
    /// A capability, with its index.
    Cap(u32),
    /// The head of a struct, with its number of data words and its number of slots.
    Body(u16, u16),
    /// A data word.
    Word(u64),
    /// The text between the data words of a struct and its slots.
    EndWords,
    /// The end of slots, rows, or a list of numbers.
    EndItems,
    /// The head of a list of pointers, with its length.
    Links(u32),
    /// The head of a list of structs, with the number of rows.
    Rows(u32),
    /// A list of elements of zero bits, with its length.
    Voids(u32),
    /// The head of a list of bits, with its length.
    Bits(u32),
    /// The head of a list of bytes in digits, with its length.
    Bytes(u32),
    /// The head of a list of 16-bit numbers, with its length.
    Pairs(u32),
    /// The head of a list of 32-bit numbers, with its length.
    Quads(u32),
    /// The head of a list of 64-bit numbers, with its length.
    Octs(u32),
    /// A number in a list of numbers, with the width of an element.
    Number(Width, u64),
    /// The text before the digits of bits or bytes.
    Digits,
    /// The text after the digits of bits or bytes.
    EndDigits,
    /// The text in place of the digits, if a list of bits or bytes is empty.
    NoDigits,
}
