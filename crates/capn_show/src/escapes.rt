//! The escapes of a text between quotes, in JSON.

ghost use Rattle.std.specs.Prelude.{◌≡◌, ◌≤◌, length, take, IfErr, OnOk};
ghost use Rattle.capn_show.specs.JsonTexts as json;
ghost use Rattle.capn_show.specs.Outgoing.{Adds, BreaksOff, outgoing};
ghost use Rattle.capn_show.specs.ReadyPlaces as places;

use crate::fault::Broken;
use crate::output::put;
use capn_words::Watched;
use std::alloc::Allocator;
use std::io::Write;

/// The length of the longest run of unescaped bytes that is appended at once.
const PIECE: usize = 4096;

/// Returns `true` if JSON escapes `byte` between quotes.
fn is_escaped(byte: u8) -> bool
    ensures { result ≡ places.is_escaped byte }
{
    byte == b'"' || byte == b'\\' || byte == b'\t' || byte == b'\n' || byte == b'\r'
}

/// Appends `byte` to `text` as it is written between quotes in JSON.
fn put_escaped<W: Write, A: Allocator>(
    text: &mut Vec<u8, A>,
    writer: &mut Watched<W>,
    byte: u8,
) -> Result<(), Broken>
    ensures shown { OnOk result (Adds (outgoing W.contents writer.old text.old.items)
        (outgoing W.contents writer.new text.new.items) (json.json_escaped byte)) }
    ensures cut { IfErr result (λ e. BreaksOff (outgoing W.contents writer.old text.old.items)
        (outgoing W.contents writer.new text.new.items) e (json.json_escaped byte)) }
{
    match byte {
        b'"' => put(text, writer, b"\\\""),
        b'\\' => put(text, writer, b"\\\\"),
        b'\t' => put(text, writer, b"\\t"),
        b'\n' => put(text, writer, b"\\n"),
        b'\r' => put(text, writer, b"\\r"),
        _ => put(text, writer, &[byte]),
    }
}

/// Returns the number of bytes at the front of `bytes` that need no escape in JSON.
/// The result is at most `PIECE`.
fn bare_run(bytes: &[u8]) -> usize
    ensures within { result ≤ length bytes.now }
    ensures bare { json.json_escapes (take result bytes.now) ≡ take result bytes.now }
{
    for i in 0..bytes.len() {
        if is_escaped(bytes[i]) {
            return i;
        }
        if i == PIECE {
            return i;
        }
    }
    bytes.len()
}

/// Appends `bytes` to `text` as they are written between quotes in JSON. Each turn of
/// the loop appends a run of bytes that need no escape, and then the byte after the run, if there is one.
pub fn put_escapes<W: Write, A: Allocator>(
    text: &mut Vec<u8, A>,
    writer: &mut Watched<W>,
    bytes: &[u8],
) -> Result<(), Broken>
    ensures shown { OnOk result (Adds (outgoing W.contents writer.old text.old.items)
        (outgoing W.contents writer.new text.new.items) (json.json_escapes bytes.now)) }
    ensures cut { IfErr result (λ e. BreaksOff (outgoing W.contents writer.old text.old.items)
        (outgoing W.contents writer.new text.new.items) e (json.json_escapes bytes.now)) }
{
    let mut done = 0;
    while done < bytes.len() {
        let rest = &bytes[done..];
        let run = bare_run(rest);
        put(text, writer, &rest[..run])?;
        if run == rest.len() {
            return Ok(());
        }
        put_escaped(text, writer, rest[run])?;
        done += run + 1;
    }
    Ok(())
}
