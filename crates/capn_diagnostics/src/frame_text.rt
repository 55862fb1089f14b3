//! The line about a message whose frame, packing or length is refused. Stored cases and docs/DIAGNOSTICS.md have it as
//! `explain` prints it.

ghost use Rattle.std.specs.Prelude.{◌≡◌, [], ◌∷◌};
ghost use Rattle.hex.specs.Hex.{encode_lower};

use std::{fmt, str};

/// The sizes that explain why a frame, a packing or a length is refused. They are displayed in one line with its
/// newline, or as nothing.
#[derive(Clone, Copy, Debug, PartialEq, Eq)]
pub enum FrameKey {
    /// Nothing, for a fault that no sizes explain.
    Nothing,
    /// The number of bytes of a bare message that were read.
    There(u64),
    /// The number of bytes of a framed message that were read, and the least number of bytes that the message has.
    AtLeast(u64, u64),
    /// The number of segments or words that a table announces, and the greatest number that is allowed.
    Announced(u64, u64),
    /// A group of a packed input. The fields are the offset in bytes at which the group begins, its tag, the least
    /// number of bytes of the group, and the number of bytes that were read.
    Group(u64, u8, u64, u64),
}

/// Returns the two hexadecimal digits of `byte`.
fn digits_of(byte: u8) -> [u8; 2]
    ensures { result ≡ encode_lower (byte ∷ []) }
{
    let mut digits = [0u8; 2];
    // The array has a byte for each of the two digits, so the call cannot fail.
    let _done = hex::encode_to_slice([byte], &mut digits);
    digits
}

/// A byte, displayed as two hexadecimal digits in lower case.
#[derive(Drop)]
struct ByteText(u8);

impl fmt::Display for ByteText {
    ghost use Rattle.std.specs.Prelude.{Some, ◌∷◌, []};
    ghost use Rattle.hex.specs.Hex.{encode_lower};

    ghost output = { λ text. Some (encode_lower (text.0 ∷ [])) };

    fn fmt<W: fmt::Write>(&self, f: &mut fmt::Formatter<W>) -> fmt::Result {
        let digits = digits_of(self.0);
        let Ok(text) = str::from_utf8(&digits) else {
            unreachable!();
        };
        f.write_str(text)
    }
}

impl fmt::Display for FrameKey {
    ghost use Rattle.std.specs.Prelude.{Some};
    ghost use Rattle.capn_diagnostics.specs.MessageTexts.{key_line};

    ghost output = { λ key. Some (key_line key) };

    fn fmt<W: fmt::Write>(&self, f: &mut fmt::Formatter<W>) -> fmt::Result {
        match self {
            FrameKey::Nothing => write!(f, ""),
            FrameKey::There(came) => write!(f, "there: {came} bytes\n"),
            FrameKey::AtLeast(came, least) => {
                write!(f, "there: {came} bytes of at least {least}\n")
            }
            FrameKey::Announced(announced, most) => {
                write!(f, "announced: {announced}, at most {most}\n")
            }
            FrameKey::Group(byte, tag, needs, came) => {
                let tag = ByteText(*tag);
                write!(
                    f,
                    "group: byte {byte} of the packed input, tag {tag}: needs {needs} bytes, {came} came\n"
                )
            }
        }
    }
}
