//! The text of the object that holds a slot. Stored cases and docs/DIAGNOSTICS.md have it as `explain` prints it.

ghost use Rattle.std.specs.Prelude.{◌≡◌};
ghost use Rattle.capn_words.specs.Message.{IsPlace};
ghost use Rattle.capn_diagnostics.specs.Refusal as spec;

use crate::byte_of_place::long_place_byte;
use capn_path::Holder;
use capn_words::Space;
use std::fmt;

/// The object that holds a slot, displayed in one line without its newline.
#[derive(Clone, Copy, Debug, PartialEq, Eq)]
pub enum HolderText {
    /// A struct, with the numbers of its data words and its slots, and the offset in bytes at which the struct begins.
    Struct(u16, u16, u128),
    /// A list of pointers, with its length, and the offset in bytes of the first pointer.
    Pointers(u32, u128),
    /// A row of a list of structs. The fields are the number of the row, counted from 0, the number of rows, and the
    /// offset in bytes at which the row begins.
    Row(u32, u32, u128),
}

impl HolderText {
    /// Returns the text of `holder`, an object of the message `space` that holds a slot. The object has to begin at a
    /// place in range.
    ///
    /// `offset` is the byte of the stream at which the message's table begins. `table` is the number of words of that
    /// table, and 0 for a bare segment.
    pub fn of<S: Space>(space: &S, offset: u64, table: u32, holder: Holder) -> HolderText
        requires { IsPlace (S.message space.now) (spec.beginning holder) }
        ensures { result ≡ spec.with_byte (S.message space.now) offset table holder }
    {
        match holder {
            Holder::Struct { words, slots, at } => {
                HolderText::Struct(words, slots, long_place_byte(space, offset, table, at))
            }
            Holder::Pointers { count, at } => {
                HolderText::Pointers(count, long_place_byte(space, offset, table, at))
            }
            Holder::Row { row, count, at } => {
                HolderText::Row(row, count, long_place_byte(space, offset, table, at))
            }
        }
    }
}

impl fmt::Display for HolderText {
    ghost use Rattle.std.specs.Prelude.{Some};
    ghost use Rattle.capn_diagnostics.specs.SlotTexts.{holder_text};

    ghost output = { λ holder. Some (holder_text holder) };

    fn fmt<W: fmt::Write>(&self, f: &mut fmt::Formatter<W>) -> fmt::Result {
        match self {
            HolderText::Struct(words, slots, byte) => {
                write!(
                    f,
                    "struct of {words} words and {slots} slots at byte {byte}"
                )
            }
            HolderText::Pointers(count, byte) => {
                write!(f, "list of {count} pointers at byte {byte}")
            }
            HolderText::Row(row, count, byte) => write!(f, "row {row} of {count} at byte {byte}"),
        }
    }
}
