//! The bytes of a list between quotes, as `show --text` writes ASCII.

ghost use Rattle.std.specs.Prelude.{◌≡◌, ◌++◌, OnOk, true};
ghost use Rattle.capn_quoted.specs.Escapes.{escaped, escapes};
ghost use Rattle.capn_quoted.specs.Texts.{ends_in_zero, is_ascii_text};
ghost use Rattle.capn_annotate.specs.Quotations as spec;

use crate::parts_of_bytes::front;
use capn_quoted::is_ascii_text;
use std::alloc::{AllocError, Allocator};

/// The greatest number of bytes that are quoted.
const MOST: usize = 32;

/// Appends `byte` to `line` as it is written between quotes.
fn put_escaped<A: Allocator>(line: &mut Vec<u8, A>, byte: u8) -> Result<(), AllocError>
    ensures { OnOk result (line.new.items ≡ line.old.items ++ escaped byte) }
{
    match byte {
        b'"' => line.extend_from_slice(b"\\\""),
        b'\\' => line.extend_from_slice(b"\\\\"),
        b'\t' => line.extend_from_slice(b"\\t"),
        b'\n' => line.extend_from_slice(b"\\n"),
        b'\r' => line.extend_from_slice(b"\\r"),
        0 => line.extend_from_slice(b"\\0"),
        _ => Ok(line.push(byte)?),
    }
}

/// Appends `bytes`, an ASCII text, to `line` as they are written between quotes.
#[tactic(auto, using(crate::proofs::Escapes::escapes_step, crate::proofs::Escapes::ascii_low))]
fn put_escapes<A: Allocator>(line: &mut Vec<u8, A>, bytes: &[u8]) -> Result<(), AllocError>
    requires ascii { is_ascii_text bytes.now ≡ true }
    ensures { OnOk result (line.new.items ≡ line.old.items ++ escapes bytes.now) }
{
    for i in 0..bytes.len() {
        put_escaped(line, bytes[i])?;
    }
    Ok(())
}

/// Tests whether the last of `bytes` is zero.
#[tactic(auto, using(crate::proofs::Escapes::zero_at))]
fn ends_in_zero(bytes: &[u8]) -> bool
    ensures { result ≡ ends_in_zero bytes.now }
{
    if bytes.is_empty() {
        return false;
    }
    bytes[bytes.len() - 1] == 0
}

/// Tests whether `bytes` may stand between quotes. `ends` says whether the last of them is the last byte of its list,
/// which may be zero.
fn is_quoted(ends: bool, bytes: &[u8]) -> bool
    ensures { result ≡ spec.is_quoted ends bytes.now }
{
    is_ascii_text(bytes) && (ends || !ends_in_zero(bytes))
}

/// Appends a blank and `bytes` between quotes to `line`, and two dots if `more` bytes follow. Nothing is appended if
/// the bytes may not stand between quotes. `ends` says whether the last of them is the last byte of its list.
fn put_between<A: Allocator>(
    line: &mut Vec<u8, A>,
    ends: bool,
    more: bool,
    bytes: &[u8],
) -> Result<(), AllocError>
    ensures { OnOk result (line.new.items ≡ line.old.items ++ spec.quotation ends more bytes.now) }
{
    if !is_quoted(ends, bytes) {
        return Ok(());
    }
    line.extend_from_slice(b" \"")?;
    put_escapes(line, bytes)?;
    if more {
        line.extend_from_slice(b"\"..")
    } else {
        line.extend_from_slice(b"\"")
    }
}

/// Appends the quotation of `bytes` to `line`: a blank and at most 32 bytes between quotes, and two dots if there are
/// more. `last` says whether `bytes` end with the last byte of their list. Only the last byte of a list may be zero,
/// and any other byte is from 0x20 to 0x7e, else nothing is appended.
pub fn put_quotation<A: Allocator>(
    line: &mut Vec<u8, A>,
    last: bool,
    bytes: &[u8],
) -> Result<(), AllocError>
    ensures { OnOk result (line.new.items ≡ line.old.items ++ spec.quotation_of last bytes.now) }
{
    let more = MOST < bytes.len();
    put_between(line, last && !more, more, front(bytes, MOST))
}
