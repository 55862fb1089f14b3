//! The bytes of a text between quotes in lines.

ghost use Rattle.std.specs.Prelude.{◌<◌, length, IfErr, IfOk, OnOk};
ghost use Rattle.capn_quoted.specs.Escapes as spec;
ghost use Rattle.capn_quoted.specs.Hidden as hidden;
ghost use Rattle.capn_show.specs.Outgoing.{Adds, BreaksOff, outgoing};
ghost use Rattle.capn_show.specs.ReadyPlaces.{AddsFront};

use crate::fault::Broken;
use crate::output::put;
use capn_quoted::{after_first, code_at, hexadecimal, is_hidden, split_bare};
use capn_words::Watched;
use std::alloc::Allocator;
use std::io::Write;

/// Appends `byte` to `text` as it is written between quotes in lines.
fn put_escaped<W: Write, A: Allocator>(
    text: &mut Vec<u8, A>,
    writer: &mut Watched<W>,
    byte: u8,
) -> Result<(), Broken>
    ensures shown { OnOk result (Adds (outgoing W.contents writer.old text.old.items)
        (outgoing W.contents writer.new text.new.items) (spec.escaped byte)) }
    ensures cut { IfErr result (λ e. BreaksOff (outgoing W.contents writer.old text.old.items)
        (outgoing W.contents writer.new text.new.items) e (spec.escaped byte)) }
{
    match byte {
        b'"' => put(text, writer, b"\\\""),
        b'\\' => put(text, writer, b"\\\\"),
        b'\t' => put(text, writer, b"\\t"),
        b'\n' => put(text, writer, b"\\n"),
        b'\r' => put(text, writer, b"\\r"),
        0 => put(text, writer, b"\\0"),
        _ => put(text, writer, &[byte]),
    }
}

/// Appends the number `c`, which is below 2^20, to `text` in hexadecimal digits, without a zero before it.
fn put_hexadecimal<W: Write, A: Allocator>(
    text: &mut Vec<u8, A>,
    writer: &mut Watched<W>,
    c: u32,
) -> Result<(), Broken>
    ensures shown { OnOk result (Adds (outgoing W.contents writer.old text.old.items)
        (outgoing W.contents writer.new text.new.items) (hidden.hexadecimal c)) }
    ensures cut { IfErr result (λ e. BreaksOff (outgoing W.contents writer.old text.old.items)
        (outgoing W.contents writer.new text.new.items) e (hidden.hexadecimal c)) }
{
    let (digits, start) = hexadecimal(c);
    put(text, writer, &digits[start..])
}

/// Appends the hidden code point `c` to `text`, as its number.
fn put_numbered<W: Write, A: Allocator>(
    text: &mut Vec<u8, A>,
    writer: &mut Watched<W>,
    c: u32,
) -> Result<(), Broken>
    ensures shown { OnOk result (Adds (outgoing W.contents writer.old text.old.items)
        (outgoing W.contents writer.new text.new.items) (hidden.numbered c)) }
    ensures cut { IfErr result (λ e. BreaksOff (outgoing W.contents writer.old text.old.items)
        (outgoing W.contents writer.new text.new.items) e (hidden.numbered c)) }
{
    put(text, writer, b"\\u{")?;
    put_hexadecimal(text, writer, c)?;
    put(text, writer, b"}")
}

/// Appends the byte `first`, which is followed by `rest`, to `text`, or the hidden code point that begins with it.
fn put_first<W: Write, A: Allocator>(
    text: &mut Vec<u8, A>,
    writer: &mut Watched<W>,
    first: u8,
    rest: &[u8],
) -> Result<(), Broken>
    ensures shown { OnOk result (Adds (outgoing W.contents writer.old text.old.items)
        (outgoing W.contents writer.new text.new.items) (spec.first_written first rest.now)) }
    ensures cut { IfErr result (λ e. BreaksOff (outgoing W.contents writer.old text.old.items)
        (outgoing W.contents writer.new text.new.items) e (spec.first_written first rest.now)) }
{
    let code = code_at(first, rest);
    if is_hidden(code) {
        put_numbered(text, writer, code)
    } else {
        put_escaped(text, writer, first)
    }
}

/// Appends the front of `bytes` to `text` as it is written between quotes in lines: a run of bytes that need no escape,
/// and the byte or the hidden code point after the run, if there is one. Returns the bytes after this front.
fn put_front<'b, W: Write, A: Allocator>(
    text: &mut Vec<u8, A>,
    writer: &mut Watched<W>,
    bytes: &'b [u8],
) -> Result<&'b [u8], Broken>
    requires some { 0 < length bytes.now }
    ensures shown { IfOk result (λ rest. AddsFront (outgoing W.contents writer.old text.old.items)
        (outgoing W.contents writer.new text.new.items) bytes.now rest.now) }
    ensures shorter { IfOk result (λ rest. length rest.now < length bytes.now) }
    ensures cut { IfErr result (λ e. BreaksOff (outgoing W.contents writer.old text.old.items)
        (outgoing W.contents writer.new text.new.items) e (spec.escapes bytes.now)) }
{
    let (bare, left) = split_bare(bytes);
    put(text, writer, bare)?;
    let Some((first, rest)) = left.split_first() else {
        return Ok(left);
    };
    let next = after_first(*first, rest);
    put_first(text, writer, *first, rest)?;
    Ok(next)
}

/// Appends `bytes` to `text` as they are written between quotes in lines.
pub fn put_between_quotes<W: Write, A: Allocator>(
    text: &mut Vec<u8, A>,
    writer: &mut Watched<W>,
    bytes: &[u8],
) -> Result<(), Broken>
    ensures shown { OnOk result (Adds (outgoing W.contents writer.old text.old.items)
        (outgoing W.contents writer.new text.new.items) (spec.escapes bytes.now)) }
    ensures cut { IfErr result (λ e. BreaksOff (outgoing W.contents writer.old text.old.items)
        (outgoing W.contents writer.new text.new.items) e (spec.escapes bytes.now)) }
{
    let mut rest = bytes;
    while let [_, ..] = rest {
        rest = put_front(text, writer, rest)?;
    }
    Ok(())
}
