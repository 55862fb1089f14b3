//! The plain form of a text: lists of bytes between quotes become lines of digits, and other lines are unchanged.

ghost use Rattle.std.specs.Prelude.{◌≡◌, ◌≢◌, ◌≤◌, ◌<◌, ◌+◌, ◌*◌, ◌^◌, [], ◌∷◌, ◌++◌, length, replicate};
ghost use Rattle.std.specs.Prelude.{IfOk, OnOk, OnErr, MatchOption};
ghost use Rattle.std.specs.Fmt.{decimal};
ghost use Rattle.hex.specs.Hex.{encode_lower};
ghost use Rattle.capn_show.specs.Quoting.{plain_bytes};
ghost use Rattle.capn_text.specs.Quoted.{IsPlain};
ghost use Rattle.capn_text.specs.PlainForm as form;
ghost use Rattle.capn_text.specs.Streams.{ended_lines};

use crate::fault::Stop;
use crate::quoted_line::quoted_at;
use std::alloc::{AllocError, Allocator};

/// Appends the indent of `level` to `out`: two spaces for each level.
fn push_indent<A: Allocator>(out: &mut Vec<u8, A>, level: usize) -> Result<(), AllocError>
    ensures { OnOk result (out.new.items ≡ out.old.items ++ replicate (2 * level) 32) }
{
    for _i in 0..level {
        out.extend_from_slice(b"  ")?;
    }
    Ok(())
}

/// Appends `n` in decimal digits and a newline to `out`.
fn push_number<A: Allocator>(out: &mut Vec<u8, A>, n: u64) -> Result<(), AllocError>
    ensures { OnOk result (out.new.items ≡ out.old.items ++ (decimal n ++ 10 ∷ [])) }
{
    let mut digits = [b'\n'; 21];
    let start = itoa::write_digits(n, &mut digits, 20);
    out.extend_from_slice(&digits[start..])
}

/// Appends the two hexadecimal digits of `byte` to `out`.
fn push_byte<A: Allocator>(out: &mut Vec<u8, A>, byte: u8) -> Result<(), AllocError>
    ensures { OnOk result (out.new.items ≡ out.old.items ++ encode_lower (byte ∷ [])) }
{
    let mut digits = [0u8; 2];
    // The array has a byte for each of the two digits, so the call cannot fail.
    let _done = hex::encode_to_slice([byte], &mut digits);
    out.extend_from_slice(&digits)
}

/// Appends the hexadecimal digits of `bytes` to `out`, two for each byte.
#[tactic(auto, using(std::proofs::lemmas::Grind::common_steps, crate::proofs::PlainLines::digits))]
fn push_digits<A: Allocator>(out: &mut Vec<u8, A>, bytes: &[u8]) -> Result<(), AllocError>
    ensures { OnOk result (out.new.items ≡ out.old.items ++ encode_lower bytes.now) }
{
    for byte in bytes {
        push_byte(out, *byte)?;
    }
    Ok(())
}

/// Appends the two lines of the list `bytes` at this `level` to `out`: the line with its length, and the line of its
/// digits.
fn push_bytes<A: Allocator>(
    out: &mut Vec<u8, A>,
    level: usize,
    bytes: &[u8],
) -> Result<(), AllocError>
    requires some { 0 < length bytes.now }
    requires room { level + 1 < 2 ^ 64 }
    ensures { OnOk result (out.new.items ≡ out.old.items ++ plain_bytes level bytes.now) }
{
    push_indent(out, level)?;
    out.extend_from_slice(b"bytes ")?;
    push_number(out, bytes.len() as u64)?;
    push_indent(out, level + 1)?;
    push_digits(out, bytes)?;
    out.push(b'\n')?;
    Ok(())
}

/// Appends the plain form of `line` to `out`. `line` is given without its newline. Returns `true` if `line` has bytes
/// between quotes. Takes memory for the lines that are added and for the bytes of a quoted line.
pub fn push_plain<A: Allocator + Copy>(
    alloc: A,
    out: &mut Vec<u8, A>,
    line: &[u8],
) -> Result<bool, AllocError>
    ensures added { OnOk result (out.new.items ≡ out.old.items ++ form.plain_line line.now) }
    ensures quoted { IfOk result (λ quoted. quoted ≡ form.is_quoted line.now) }
{
    match quoted_at(alloc, line) {
        Ok((level, bytes)) => {
            push_bytes(out, level, &bytes)?;
            Ok(true)
        }
        Err(Stop::Memory) => Err(AllocError),
        Err(Stop::Left(_) | Stop::Cut(_) | Stop::Deep) => {
            out.extend_from_slice(line)?;
            out.push(b'\n')?;
            Ok(false)
        }
    }
}

/// Splits `text` into its first line, without the newline, and the bytes after that newline. Returns `None` if no line
/// ends in `text`. Takes no memory.
pub fn next_line(text: &[u8]) -> Option<(&[u8], &[u8])>
    ensures { MatchOption result (ended_lines text.now ≡ 0)
        (λ x. (text.now ≡ x.0.now ++ 10 ∷ x.1.now) × (ended_lines x.0.now ≡ 0)) }
{
    for i in 0..text.len() {
        if text[i] == b'\n' {
            return Some((&text[..i], &text[i + 1..]));
        }
    }
    None
}

/// Returns the plain form of `text`. In `text`, a list of bytes may stand between quotes, as a line `bytes N "T"` or
/// `bytes "T"`. Such a line becomes the lines that [`capn_value::show`] writes for the bytes of T. Any other line stays
/// as it is. T is what [`capn_quoted`] writes of some text of N bytes: a quote is `\"`, a backslash `\\`, tab `\t`,
/// newline `\n`, carriage return `\r`, a last zero `\0`, and a hidden code point `\u{H}`. (Our own.)
///
/// Takes time linear in the text. Takes memory of `alloc` for the plain form, up to twice as much while it grows, and
/// for the bytes of one line.
pub fn plain_text<A: Allocator + Copy>(alloc: A, text: &[u8]) -> Result<Vec<u8, A>, AllocError>
    ensures found { IfOk result (λ plain. IsPlain text.now plain.items) }
    // If `text` is empty, the call does not fail.
    ensures memory { OnErr result (text.now ≢ []) }
{
    if text.is_empty() {
        return Ok(Vec::new(alloc));
    }
    let mut out = Vec::with_capacity(alloc, text.len())?;
    let mut rest = text;
    while let Some((line, after)) = next_line(rest) {
        let _quoted = push_plain(alloc, &mut out, line)?;
        rest = after;
    }
    out.extend_from_slice(rest)?;
    Ok(out)
}

/// Returns the number of elements of `lines` that are at most `n`. Takes no memory.
#[tactic(auto, using(crate::proofs::OwnLines::count_within))]
pub fn count_to(lines: &[u64], n: u64) -> u64
    ensures exact { result ≡ form.count_to n lines.now }
    ensures within { result ≤ length lines.now }
{
    let mut count: u64 = 0;
    let mut rest = lines;
    while let [line, after @ ..] = rest {
        if *line <= n {
            count += 1;
        }
        rest = after;
    }
    count
}
