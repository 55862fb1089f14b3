//! The stages of a text between quotes: which bytes may follow those that came.

ghost use Rattle.std.specs.Prelude.{◌≡◌, ◌≤◌, ◌<◌, ◌^◌, true};
ghost use Rattle.capn_quoted.specs.Reading as spec;

use crate::hidden::{begins_hidden, is_from, is_hidden};
use crate::texts::is_printable;

/// A stage of the reading of a text between quotes, after the opening quote. A flag is `true` if the text has to end
/// with `\0`.
#[derive(Clone, Copy, Debug, PartialEq, Eq)]
pub enum Stage {
    /// No byte came after the opening quote.
    First,
    /// A code point is complete.
    Next(bool),
    /// A backslash came.
    Marked(bool),
    /// A backslash and `u` came.
    Opening,
    /// A backslash, `u{` and the digits of this number came. The number is 0 before its first digit.
    Number(u32),
    /// Some bytes of a code point came, which have the value `code`, and `left` more are to come. `least` is the least
    /// code point of as many bytes.
    Inside {
        /// The least code point of as many bytes.
        least: u32,
        /// The number of bytes that are to come.
        left: u8,
        /// The value of the bytes that came.
        code: u16,
    },
    /// `\0` came.
    Zero,
    /// The closing quote came.
    Closed,
}

/// Returns the value of the hexadecimal digit `c`, in lower case, or 16 if `c` is no such digit.
fn digit_value(c: u8) -> u32
    ensures value { result ≡ spec.digit_value c }
    ensures small { result ≤ 16 }
{
    match c {
        b'0'..=b'9' => (c - b'0') as u32,
        b'a'..=b'f' => (c - 87) as u32,
        _ => 16,
    }
}

/// Returns `true` if the code point `c` stands as it is between quotes. `c` has at least two bytes, and `least` is the
/// least code point of as many bytes.
fn stands(least: u32, c: u32) -> bool
    ensures { result ≡ spec.stands least c }
{
    least <= c && 160 <= c && (c < 0xd800 || is_from(0xe000, 0x10ffff, c)) && !is_hidden(c)
}

/// Returns `true` if some code point stands as it is that has `left` more bytes after those of `code`. `least` is the
/// least code point of as many bytes.
fn leads(least: u32, left: u8, code: u32) -> bool
    requires { code < 2 ^ 22 }
    ensures value { result ≡ spec.leads least left code }
    ensures small { result ≡ true → 0 < left → code < 2 ^ 16 }
{
    if left == 0 {
        stands(least, code)
    } else if left == 1 {
        let first = code * 64;
        least <= first
            && (first < 0xd800 || is_from(0xe000, 0x10ffff, first))
            && !is_from(0xe0000, 0xe007f, first)
    } else {
        let first = code as u64 * 4096;
        least as u64 <= first && first < 0x110000
    }
}

/// Returns the stage after the first byte `c` of a code point of two to four bytes, or `None` if `c` is no such byte.
fn after_lead(c: u8) -> Option<Stage>
    ensures { result ≡ spec.after_lead c }
{
    if 194 <= c && c <= 223 {
        Some(Stage::Inside {
            least: 128,
            left: 1,
            code: (c - 192) as u16,
        })
    } else if 224 <= c && c <= 239 {
        Some(Stage::Inside {
            least: 2048,
            left: 2,
            code: (c - 224) as u16,
        })
    } else if 240 <= c && c <= 244 {
        Some(Stage::Inside {
            least: 65536,
            left: 3,
            code: (c - 240) as u16,
        })
    } else {
        None
    }
}

/// Returns the stage after the byte `c` between two code points, if `c` is no quote. `wide` is `true` if the text has
/// to end with `\0`.
fn between(wide: bool, c: u8) -> Option<Stage>
    ensures { result ≡ spec.between wide c }
{
    if c == b'\\' {
        Some(Stage::Marked(wide))
    } else if c < 128 {
        if is_printable(c) {
            Some(Stage::Next(wide))
        } else {
            None
        }
    } else {
        after_lead(c)
    }
}

/// Returns the stage after the byte `c`, which stands after a backslash.
fn after_mark(wide: bool, c: u8) -> Option<Stage>
    ensures { result ≡ spec.after_mark wide c }
{
    match c {
        b'"' | b'\\' => Some(Stage::Next(wide)),
        b'0' => Some(Stage::Zero),
        b't' | b'n' | b'r' => Some(Stage::Next(true)),
        b'u' => Some(Stage::Opening),
        _ => None,
    }
}

/// Returns the stage after the byte `c`, which stands after the digits of the number `n`.
fn after_digits(n: u32, c: u8) -> Option<Stage>
    ensures { result ≡ spec.after_digits n c }
{
    if c == b'}' {
        if is_hidden(n) {
            return Some(Stage::Next(true));
        }
        return None;
    }
    let d = digit_value(c);
    if d < 16 && n < 0x10000 && begins_hidden(n * 16 + d) {
        Some(Stage::Number(n * 16 + d))
    } else {
        None
    }
}

/// Returns the stage after the byte `c` inside a code point.
fn after_inside(least: u32, left: u8, code: u16, c: u8) -> Option<Stage>
    ensures { result ≡ spec.after_inside least left code c }
{
    if !(128 <= c && c <= 191) {
        return None;
    }
    let left = left.saturating_sub(1);
    let code = code as u32 * 64 + c as u32 % 64;
    if !leads(least, left, code) {
        return None;
    }
    if left == 0 {
        Some(Stage::Next(true))
    } else {
        Some(Stage::Inside {
            least,
            left,
            code: code as u16,
        })
    }
}

impl Stage {
    /// Returns the stage after the byte `c`, or `None` if no text goes on with `c`.
    pub fn follow(self, c: u8) -> Option<Stage>
        ensures { result ≡ spec.follow self c }
    {
        match self {
            Stage::First => { if c == b'"' { None } else { between(false, c) } }
            Stage::Next(wide) => {
                if c == b'"' {
                    if wide { None } else { Some(Stage::Closed) }
                } else {
                    between(wide, c)
                }
            }
            Stage::Marked(wide) => after_mark(wide, c),
            Stage::Opening => {
                if c == b'{' {
                    Some(Stage::Number(0))
                } else {
                    None
                }
            }
            Stage::Number(n) => after_digits(n, c),
            Stage::Inside { least, left, code } => after_inside(least, left, code, c),
            Stage::Zero => { if c == b'"' { Some(Stage::Closed) } else { None } }
            Stage::Closed => None,
        }
    }

    /// Returns `true` after the closing quote.
    pub fn is_closed(self) -> bool
        ensures { result ≡ spec.is_closed self }
    {
        match self {
            Stage::Closed => true,
            _ => false,
        }
    }
}
