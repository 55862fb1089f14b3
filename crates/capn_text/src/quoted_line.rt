//! The parser of a line with a list of bytes between quotes.

ghost use Rattle.std.specs.Prelude.{◌≡◌, ◌≤◌, ◌<◌, ◌*◌, length, take, IfOk};
ghost use Rattle.capn_quoted.specs.Reading as reading;
ghost use Rattle.capn_text.specs.Beginnings as beginnings;
ghost use Rattle.capn_text.specs.inner.QuotedLines as quotes;
ghost use Rattle.capn_text.specs.inner.Tokens.{Gives};

use crate::fault::Stop;
use crate::tokens::{decimal_at, is_digit, pass, skip};
use capn_quoted::{Unread, may_go_on, unquoted};
use std::alloc::Allocator;

/// Reads the bytes of `text`, which begins after the opening quote. The closing quote has to be the last byte of
/// `text`.
fn text_in<A: Allocator>(alloc: A, text: &[u8]) -> Result<Vec<u8, A>, Stop>
    ensures found { Gives (λ x. x.items) result (reading.unquoted text.now) }
    ensures some { IfOk result (λ x. 0 < length x.items) }
{
    match unquoted(alloc, text) {
        Ok(bytes) => Ok(bytes),
        Err(Unread::Memory) => Err(Stop::Memory),
        Err(Unread::Wrong(left)) => Err(Stop::Left(left)),
    }
}

/// Reads the count at the front of `text`, and the bytes between quotes after the count. There has to be at least one
/// byte, and the number of bytes has to be the count.
fn counted_text<A: Allocator>(alloc: A, text: &[u8]) -> Result<Vec<u8, A>, Stop>
    ensures found { Gives (λ x. x.items) result (quotes.counted_text text.now) }
    ensures some { IfOk result (λ x. 0 < length x.items) }
{
    let (count, rest) = decimal_at(text)?;
    let rest = pass(rest, b" \"")?;
    let bytes = text_in(alloc, rest)?;
    if bytes.len() as u64 != count {
        return Err(Stop::Left(text.len()));
    }
    Ok(bytes)
}

/// Counts the levels of a line by the spaces at its front, two for each level. Returns the number of levels and the
/// bytes after the spaces.
fn levels_at(text: &[u8]) -> (usize, &[u8])
    ensures levels { (result.0, result.1.now) ≡ quotes.levels_at text.now }
    ensures within { 2 * result.0 ≤ length text.now }
{
    let mut level = 0;
    let mut rest = text;
    while let Some(after) = skip(rest, b"  ") {
        level += 1;
        rest = after;
    }
    (level, rest)
}

/// Reads `text`, a line with bytes between quotes, which is given without its newline. Returns the level and the bytes.
#[tactic(auto, unfolding(crate::specs::inner::QuotedLines::quoted_at))]
pub fn quoted_at<A: Allocator>(alloc: A, text: &[u8]) -> Result<(usize, Vec<u8, A>), Stop>
    ensures found { Gives (λ x. (x.0, x.1.items)) result (quotes.quoted_at text.now) }
    ensures some { IfOk result (λ x. 0 < length x.1.items) }
    ensures within { IfOk result (λ x. 2 * x.0 ≤ length text.now) }
{
    let (level, rest) = levels_at(text);
    let rest = pass(rest, b"bytes ")?;
    let bytes = match skip(rest, b"\"") {
        Some(inner) => text_in(alloc, inner)?,
        None => counted_text(alloc, rest)?,
    };
    Ok((level, bytes))
}

/// Returns the first 1,024 bytes of `line`, or all of `line` if it has fewer. These bytes decide whether an unfinished
/// line may have bytes between quotes.
pub fn looked_at(line: &[u8]) -> &[u8]
    ensures { result.now ≡ take beginnings.looked_at line.now }
{
    if line.len() > 1024 {
        &line[..1024]
    } else {
        line
    }
}

/// Returns `true` if `front` is a prefix of `whole`.
fn begins(whole: &[u8], front: &[u8]) -> bool
    ensures { result ≡ beginnings.begins whole.now front.now }
{
    match skip(whole, front) {
        Some(_) => true,
        None => false,
    }
}

/// Returns `true` if `text` may follow the digits of a count: if it is a prefix of a space and a quote, or goes on
/// between quotes.
fn may_open(text: &[u8]) -> bool
    ensures { result ≡ beginnings.may_open text.now }
{
    if begins(b" \"", text) {
        return true;
    }
    match skip(text, b" \"") {
        Some(inner) => may_go_on(inner),
        None => false,
    }
}

/// Returns `true` if `text` may follow the first digit of a count.
fn may_count(text: &[u8]) -> bool
    ensures { result ≡ beginnings.may_count text.now }
{
    let mut rest = text;
    while let [c, after @ ..] = rest {
        if !is_digit(*c) {
            return may_open(rest);
        }
        rest = after;
    }
    true
}

/// Returns `true` if `rest` may follow `bytes ` on a line with bytes between quotes: if `rest` is empty, or begins with
/// a quote or a digit and goes on with no wrong byte.
fn may_follow(rest: &[u8]) -> bool
    ensures { result ≡ beginnings.may_follow rest.now }
{
    match rest {
        [] => true,
        [c, after @ ..] => {
            if *c == b'"' {
                may_go_on(after)
            } else {
                is_digit(*c) && may_count(after)
            }
        }
    }
}

/// Returns `true` if a line that begins with `front` may have bytes between quotes.
pub fn may_begin(front: &[u8]) -> bool
    ensures { result ≡ beginnings.may_begin front.now }
{
    let (_level, rest) = levels_at(front);
    if begins(b" ", rest) {
        return true;
    }
    if begins(b"bytes ", rest) {
        return true;
    }
    match skip(rest, b"bytes ") {
        Some(after) => may_follow(after),
        None => false,
    }
}
