//! The tokens of a line, read from left to right. Each function returns the token that was read with the bytes after
//! it.

ghost use Rattle.std.specs.Prelude.{◌≡◌, ◌≤◌, ◌<◌, nat_lt, length, MatchOption, IfOk, IfSome, Some, None};
ghost use Rattle.capn_text.specs.Streams.{few};
ghost use Rattle.capn_text.specs.inner.Tokens as tokens;
ghost use Rattle.capn_text.specs.inner.Tokens.{Gives, GivesIdly};
ghost use Rattle.capn_text.specs.inner.Stops as spec;
ghost use Rattle.capn_text.specs.inner.Stops.{GivesLine};

use crate::fault::Stop;

/// Returns the bytes of `text` after `front`, or `None` if `text` does not begin with `front`.
pub fn skip<'t>(text: &'t [u8], front: &[u8]) -> Option<&'t [u8]>
    ensures { MatchOption result (tokens.strip front.now text.now ≡ None)
        (λ rest. tokens.strip front.now text.now ≡ Some rest.now) }
{
    let mut rest = text;
    let mut left = front;
    while let [c, others @ ..] = left {
        let [d, after @ ..] = rest else {
            return None;
        };
        if *c != *d {
            return None;
        }
        left = others;
        rest = after;
    }
    Some(rest)
}

/// Returns the bytes of `text` after `front`, or a stop if `text` does not begin with `front`.
pub fn pass<'t>(text: &'t [u8], front: &[u8]) -> Result<&'t [u8], Stop>
    ensures { GivesIdly (λ rest. rest.now) result (tokens.strip front.now text.now) }
{
    match skip(text, front) {
        Some(rest) => Ok(rest),
        None => Err(Stop::Left(text.len())),
    }
}

/// Returns the bytes of `text` after the indent of `level`: two spaces for each level.
pub fn indent_at(level: u32, text: &[u8]) -> Result<&[u8], Stop>
    ensures { GivesIdly (λ rest. rest.now) result (tokens.indent_at level text.now) }
{
    let mut rest = text;
    for _ in 0..level {
        let after = pass(rest, b"  ")?;
        rest = after;
    }
    Ok(rest)
}

/// Reads the number in decimal digits at the front of `text`.
pub fn decimal_at(text: &[u8]) -> Result<(u64, &[u8]), Stop>
    ensures { GivesIdly (λ x. (x.0, x.1.now)) result (tokens.decimal_at text.now) }
{
    match text {
        [b'0', rest @ ..] => Ok((0, rest)),
        [b'1'..=b'9', ..] => digits_at(text),
        _ => Err(Stop::Left(text.len())),
    }
}

fn digits_at(text: &[u8]) -> Result<(u64, &[u8]), Stop>
    ensures { GivesIdly (λ x. (x.0, x.1.now)) result (tokens.digits_at 0 text.now) }
{
    let mut number: u64 = 0;
    let mut rest = text;
    while let [c, after @ ..] = rest {
        if !is_digit(*c) {
            return Ok((number, rest));
        }
        let Some(tens) = number.checked_mul(10) else {
            return Err(Stop::Left(text.len()));
        };
        let Some(more) = tens.checked_add(u64::from(*c - b'0')) else {
            return Err(Stop::Left(text.len()));
        };
        number = more;
        rest = after;
    }
    Ok((number, rest))
}

/// Returns `true` if `c` is a decimal digit.
pub fn is_digit(c: u8) -> bool
    ensures { result ≡ tokens.is_digit c }
{
    b'0' <= c && c <= b'9'
}

/// Reads two hexadecimal digits at the front of `text` as a byte.
pub fn byte_at(text: &[u8]) -> Result<(u8, &[u8]), Stop>
    ensures { Gives (λ x. (x.0, x.1.now)) result (tokens.byte_at text.now) }
{
    let [high, low, rest @ ..] = text else {
        return Err(Stop::Left(text.len()));
    };
    let Some(a) = nibble(*high) else {
        return Err(Stop::Left(text.len()));
    };
    let Some(b) = nibble(*low) else {
        return Err(Stop::Left(text.len()));
    };
    Ok((a * 16 + b, rest))
}

/// Returns `true` if all bytes of `text` are hexadecimal digits in lower case.
pub fn are_hex(text: &[u8]) -> bool
    ensures { result ≡ tokens.are_all tokens.is_hex text.now }
{
    let mut rest = text;
    while let [c, after @ ..] = rest {
        let (b'0'..=b'9' | b'a'..=b'f') = *c else {
            return false;
        };
        rest = after;
    }
    true
}

/// Returns `true` if all bytes of `text` are the digit 0 or 1.
pub fn are_bits(text: &[u8]) -> bool
    ensures { result ≡ tokens.are_all tokens.is_bit text.now }
{
    let mut rest = text;
    while let [c, after @ ..] = rest {
        let (b'0' | b'1') = *c else {
            return false;
        };
        rest = after;
    }
    true
}

fn nibble(c: u8) -> Option<u8>
    ensures value { result ≡ tokens.nibble c }
    ensures within { IfSome result (λ d. d < 16) }
{
    match c {
        b'0'..=b'9' => Some(c - b'0'),
        b'a'..=b'f' => Some(c - 87),
        _ => None,
    }
}

/// Reads the digit 0 or 1 at the front of `text` as a bit.
pub fn bit_at(text: &[u8]) -> Result<(bool, &[u8]), Stop>
    ensures { Gives (λ x. (x.0, x.1.now)) result (tokens.bit_at text.now) }
{
    match text {
        [b'1', rest @ ..] => Ok((true, rest)),
        [b'0', rest @ ..] => Ok((false, rest)),
        _ => Err(Stop::Left(text.len())),
    }
}

// Reads the eight bytes of a word at the front of `text`, in hexadecimal digits, the most significant byte first.
fn eight_at(text: &[u8]) -> Result<([u8; 8], &[u8]), Stop>
    ensures { Gives (λ x. (x.0, x.1.now)) result (tokens.many tokens.byte_at 8 text.now) }
{
    let mut bytes = [0; 8];
    let mut rest = text;
    for i in 0..8 {
        let (byte, after) = byte_at(rest)?;
        bytes[i] = byte;
        rest = after;
    }
    Ok((bytes, rest))
}

/// Reads 16 hexadecimal digits at the front of `text` as a number.
pub fn word_at(text: &[u8]) -> Result<(u64, &[u8]), Stop>
    ensures { Gives (λ x. (x.0, x.1.now)) result (tokens.word_at text.now) }
{
    let (bytes, rest) = eight_at(text)?;
    Ok((u64::from_be_bytes(bytes), rest))
}

/// An upper bound for the number of bytes in a line, unless the line has the digits of a list.
const FEW: usize = 2048;

/// Returns `true` if `text` has fewer than [`FEW`] bytes.
pub fn is_short(text: &[u8]) -> bool
    ensures { result ≡ nat_lt (length text.now) few }
{
    text.len() < FEW
}

/// Returns the stop for a `text` that does not begin with the expected line, which has at most [`FEW`] bytes. The stop
/// is `Cut` if `text` has fewer than [`FEW`] bytes, since more bytes may complete the line, and `Left` otherwise.
pub fn stop_in(text: &[u8]) -> Stop
    ensures { result ≡ spec.stop_in text.now }
{
    if is_short(text) {
        Stop::Cut(text.len())
    } else {
        Stop::Left(text.len())
    }
}

/// Reads the line of a data word at this `level`, at the front of `text`.
pub fn word_line_at(level: u32, text: &[u8]) -> Result<(u64, &[u8]), Stop>
    requires { level ≤ 600 }
    ensures { GivesLine (λ x. (x.0, x.1.now)) result (tokens.word_line_at level) text.now }
{
    match word_in_line(level, text) {
        Ok((word, rest)) => Ok((word, rest)),
        Err(Stop::Memory) => Err(Stop::Memory),
        Err(Stop::Left(_)) => Err(stop_in(text)),
        Err(Stop::Cut(_)) => Err(stop_in(text)),
        Err(Stop::Deep) => Err(stop_in(text)),
    }
}

#[tactic(auto, unfolding(crate::specs::inner::Tokens::word_line_at))]
fn word_in_line(level: u32, text: &[u8]) -> Result<(u64, &[u8]), Stop>
    ensures { Gives (λ x. (x.0, x.1.now)) result (tokens.word_line_at level text.now) }
{
    let line = indent_at(level, text)?;
    let digits = pass(line, b"word ")?;
    let (word, rest) = word_at(digits)?;
    let rest = pass(rest, b"\n")?;
    Ok((word, rest))
}

/// Reads the line of a number at this `level`, at the front of `text`. The number has to be at most `greatest`.
pub fn number_line_at(greatest: u64, level: u32, text: &[u8]) -> Result<(u64, &[u8]), Stop>
    requires { level ≤ 600 }
    ensures value { GivesLine (λ x. (x.0, x.1.now)) result (tokens.number_line_at greatest level) text.now }
    ensures within { IfOk result (λ x. x.0 ≤ greatest) }
{
    match number_in_line(greatest, level, text) {
        Ok((number, rest)) => Ok((number, rest)),
        Err(_) => Err(stop_in(text)),
    }
}

#[tactic(auto, unfolding(crate::specs::inner::Tokens::number_line_at))]
fn number_in_line(greatest: u64, level: u32, text: &[u8]) -> Result<(u64, &[u8]), Stop>
    ensures value { GivesIdly (λ x. (x.0, x.1.now)) result (tokens.number_line_at greatest level text.now) }
    ensures within { IfOk result (λ x. x.0 ≤ greatest) }
{
    let line = indent_at(level, text)?;
    let (number, rest) = decimal_at(line)?;
    let rest = pass(rest, b"\n")?;
    if number > greatest {
        return Err(Stop::Left(text.len()));
    }
    Ok((number, rest))
}
