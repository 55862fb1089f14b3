//! The reading of a text between quotes.

ghost use Rattle.std.specs.Prelude.{◌≡◌, ◌≢◌, ◌++◌, [], ◌∷◌, length, ◌<◌, OnOk, IfErr, IfOk, MatchResult, None, Some};
ghost use Rattle.std.specs.Char.{encode_utf8};
ghost use Rattle.capn_quoted.specs.Reading as spec;
ghost use Rattle.capn_quoted.specs.declared.reading.Unread.{Unread};
ghost use Rattle.capn_quoted.specs.declared.reading.Unread.TheVariants as unread;

use crate::stage::Stage;
use std::alloc::{AllocError, Allocator};

/// Why a text between quotes is not read.
#[derive(Debug, Drop, Clone, Copy, PartialEq, Eq)]
pub enum Unread {
    /// An allocation was refused.
    Memory,
    /// The bytes are not what is written of a text, and a closing quote. The number counts the bytes from the first
    /// wrong byte on, with which no text goes on. It is 0 if no byte is wrong, but the closing quote is missing.
    Wrong(usize),
}

impl From<AllocError> for Unread {
    ghost from_gives = { λ _ e. e ≡ unread.Memory };

    fn from(_: AllocError) -> Unread {
        Unread::Memory
    }
}

/// Returns the byte that a backslash and `c` stand for.
fn unmarked(c: u8) -> u8
    ensures { result ≡ spec.unmarked c }
{
    match c {
        b'0' => 0,
        b't' => b'\t',
        b'n' => b'\n',
        b'r' => b'\r',
        _ => c,
    }
}

/// Appends the UTF-8 of the code point `n` to `bytes`, if `n` is one.
fn push_code<A: Allocator>(bytes: &mut Vec<u8, A>, n: u32) -> Result<(), AllocError>
    ensures { OnOk result (bytes.new.items ≡ bytes.old.items ++ spec.encoded n) }
{
    let Some(c) = char::from_u32(n) else {
        return Ok(());
    };
    let mut room = [0; 4];
    let code = c.encode_utf8(&mut room);
    bytes.extend_from_slice(code.as_bytes())
}

/// Appends the bytes that are read by the byte `c` in the given `stage` to `bytes`.
fn give<A: Allocator>(bytes: &mut Vec<u8, A>, stage: Stage, c: u8) -> Result<(), AllocError>
    ensures { OnOk result (bytes.new.items ≡ bytes.old.items ++ spec.gives stage c) }
{
    match stage {
        Stage::First | Stage::Next(_) => {
            if c == b'\\' || c == b'"' {
                return Ok(());
            }
            bytes.push(c)?;
            Ok(())
        }
        Stage::Marked(_) => {
            if c == b'u' {
                return Ok(());
            }
            bytes.push(unmarked(c))?;
            Ok(())
        }
        Stage::Number(n) => {
            if c == b'}' {
                return push_code(bytes, n);
            }
            Ok(())
        }
        Stage::Inside { .. } => {
            bytes.push(c)?;
            Ok(())
        }
        Stage::Opening | Stage::Zero | Stage::Closed => Ok(()),
    }
}

/// Reads the bytes of `text` up to the closing quote, which has to be the last byte of `text`. `text` begins after the
/// opening quote. Takes memory for the bytes that are read.
pub fn unquoted<A: Allocator>(alloc: A, text: &[u8]) -> Result<Vec<u8, A>, Unread>
    ensures read { MatchResult result (λ bytes. spec.unquoted text.now ≡ Some bytes.items)
        (λ e. e ≢ unread.Memory → spec.unquoted text.now ≡ None) }
    ensures some { IfOk result (λ bytes. 0 < length bytes.items) }
    ensures wrong { IfErr result (λ e. e ≢ unread.Memory → e ≡ unread.Wrong (spec.wrong_at text.now)) }
{
    let mut bytes = Vec::new(alloc);
    let mut stage = Stage::First;
    let mut rest = text;
    while let [c, after @ ..] = rest {
        let Some(next) = stage.follow(*c) else {
            return Err(Unread::Wrong(rest.len()));
        };
        give(&mut bytes, stage, *c)?;
        stage = next;
        rest = after;
    }
    if stage.is_closed() {
        Ok(bytes)
    } else {
        Err(Unread::Wrong(0))
    }
}

/// Returns `true` if no byte of `text` is wrong, so that some text between quotes goes on after `text`, or ends with
/// `text`. `text` begins after the opening quote. Takes no memory.
pub fn may_go_on(text: &[u8]) -> bool
    ensures { result ≡ spec.may_go_on text.now }
{
    let mut stage = Stage::First;
    let mut rest = text;
    while let [c, after @ ..] = rest {
        let Some(next) = stage.follow(*c) else {
            return false;
        };
        stage = next;
        rest = after;
    }
    true
}
