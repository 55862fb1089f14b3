//! The text of a slot. Stored cases and docs/DIAGNOSTICS.md have it as `explain` prints it.

ghost use Rattle.std.specs.Prelude.{◌≡◌};
ghost use Rattle.capn_words.specs.Message.{IsPlace};
ghost use Rattle.capn_diagnostics.specs.Slot.{placed};

use crate::byte_of_place::long_place_byte;
use crate::pointer_text::PointerText;
use crate::word_text::WordText;
use capn_words::{Place, Space};
use std::fmt;

/// A slot, displayed in one line without its newline. The line has the offset in bytes and the place of the slot's
/// word, the bytes of the word, and the pointer that they encode.
#[derive(Clone, Copy, Debug, PartialEq, Eq)]
pub struct SlotText {
    /// The byte of the stream at which the word begins.
    pub byte: u128,
    /// The place of the word.
    pub place: Place,
    /// The word of the slot.
    pub word: u64,
}

impl SlotText {
    /// Returns the text of the slot at `at` of the message `space`. The place has to be in range.
    ///
    /// `offset` is the byte of the stream at which the message's table begins. `table` is the number of words of that
    /// table, and 0 for a bare segment.
    pub fn at<S: Space>(space: &S, offset: u64, table: u32, at: Place) -> SlotText
        requires { IsPlace (S.message space.now) at }
        ensures { result ≡ placed (S.message space.now) offset table at }
    {
        SlotText {
            byte: long_place_byte(space, offset, table, at),
            place: at,
            word: space.word(at),
        }
    }
}

impl fmt::Display for SlotText {
    ghost use Rattle.std.specs.Prelude.{Some};
    ghost use Rattle.capn_diagnostics.specs.Texts.{slot_text};

    ghost output = { λ slot. Some (slot_text slot.byte slot.place slot.word) };

    fn fmt<W: fmt::Write>(&self, f: &mut fmt::Formatter<W>) -> fmt::Result {
        let byte = self.byte;
        let segment = self.place.segment;
        let word = self.place.word;
        write!(
            f,
            "byte {byte}, segment {segment} word {word}: {}: {}",
            WordText(self.word),
            PointerText::of(self.word)
        )
    }
}
