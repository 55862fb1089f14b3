//! The text of a word's bytes. Stored cases and docs/DIAGNOSTICS.md have it as `explain` prints it.

ghost use Rattle.std.specs.Prelude.{◌≡◌};
ghost use Rattle.std.specs.Int.{to_le_bytes, w64};
ghost use Rattle.hex.specs.Hex.{encode_lower};

use std::{fmt, str};

/// Returns the hexadecimal digits of the bytes of `word`, in their order in the message.
fn digits_of(word: u64) -> [u8; 16]
    ensures { result ≡ encode_lower (to_le_bytes w64 word) }
{
    let mut digits = [0u8; 16];
    // The array has 16 bytes, one for each digit, so the call cannot fail.
    let _done = hex::encode_to_slice(word.to_le_bytes(), &mut digits);
    digits
}

/// The bytes of a word in their order in the message, displayed as two hexadecimal digits each, in lower case.
#[derive(Clone, Copy, Debug, PartialEq, Eq)]
pub struct WordText(pub u64);

impl fmt::Display for WordText {
    ghost use Rattle.std.specs.Prelude.{Some};
    ghost use Rattle.capn_diagnostics.specs.Texts.{word_text};

    ghost output = { λ text. Some (word_text text.0) };

    fn fmt<W: fmt::Write>(&self, f: &mut fmt::Formatter<W>) -> fmt::Result {
        let digits = digits_of(self.0);
        let Ok(text) = str::from_utf8(&digits) else {
            unreachable!();
        };
        f.write_str(text)
    }
}
