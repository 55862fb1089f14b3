//! The parsers of data words, and of lists without other values in them.

ghost use Rattle.std.specs.Prelude.{◌≡◌, ◌+◌, ◌≤◌, None};
ghost use Rattle.capn_value.specs.TreeOf.{tree_of};
ghost use Rattle.capn_text.specs.inner.Tokens as tokens;
ghost use Rattle.capn_text.specs.inner.Tokens.{Gives};
ghost use Rattle.capn_text.specs.inner.Stops.{GivesAt, GivesLine, LineFails};
ghost use Rattle.capn_text.specs.inner.Values as values;
ghost use Rattle.capn_text.specs.declared.heads.Name.TheVariants as names;

use crate::fault::Stop;
use crate::heads::Leaf;
use crate::tokens::{
    are_bits, are_hex, bit_at, byte_at, indent_at, number_line_at, pass, stop_in, word_line_at,
};
use capn_value::{Items, Value};
use std::alloc::Allocator;

/// Reads the lines of a list of the kind `leaf` with `count` elements, after its first line, which was at this `level`.
/// Returns the list with the bytes after it.
#[tactic(auto, using(crate::proofs::ValueOfParts::steps_and_views), unfolding(crate::specs::inner::Values::leaf_at))]
pub fn leaf_at<'t, A: Allocator>(
    alloc: A,
    level: u32,
    leaf: Leaf,
    count: u64,
    text: &'t [u8],
) -> Result<(Value<A>, &'t [u8]), Stop>
    requires level { level + 1 ≤ 600 }
    requires number { count ≤ values.greatest_number (names.Leaf leaf) }
    ensures { GivesAt (λ x. (tree_of x.0, x.1.now)) result (λ r. values.leaf_at level leaf count) 0 text.now }
{
    match leaf {
        Leaf::Voids => Ok((Value::Voids(count as u32), text)),
        Leaf::Bits => {
            let (xs, rest) = bits_at(alloc, level + 1, count, text)?;
            Ok((Value::Bits(Items::from_vec(xs)), rest))
        }
        Leaf::Bytes => {
            let (xs, rest) = bytes_at(alloc, level + 1, count, text)?;
            Ok((Value::Bytes(Items::from_vec(xs)), rest))
        }
        Leaf::Pairs => {
            let (xs, rest) = pairs_at(alloc, level + 1, count, text)?;
            Ok((Value::Pairs(Items::from_vec(xs)), rest))
        }
        Leaf::Quads => {
            let (xs, rest) = quads_at(alloc, level + 1, count, text)?;
            Ok((Value::Quads(Items::from_vec(xs)), rest))
        }
        Leaf::Octs => {
            let (xs, rest) = octs_at(alloc, level + 1, count, text)?;
            Ok((Value::Octs(Items::from_vec(xs)), rest))
        }
    }
}

/// Returns the stop for a `text` that does not begin with a line of `count` bits. The stop is `Cut` or `Left`. If it
/// is `Left`, the line cannot be completed, whatever bytes follow.
fn stop_in_bits(level: u32, count: u64, text: &[u8]) -> Stop
    requires level { level ≤ 600 }
    requires none { tokens.row_line_at tokens.bit_at level count text.now ≡ None }
    ensures { LineFails result (tokens.row_line_at tokens.bit_at level count) text.now }
{
    match indent_at(level, text) {
        Ok(digits) => {
            if digits.len() as u64 <= count && are_bits(digits) {
                Stop::Cut(text.len())
            } else {
                Stop::Left(text.len())
            }
        }
        Err(_) => stop_in(text),
    }
}

fn bits_at<A: Allocator>(
    alloc: A,
    level: u32,
    count: u64,
    text: &[u8],
) -> Result<(Vec<bool, A>, &[u8]), Stop>
    requires { level ≤ 600 }
    ensures { GivesLine (λ x. (x.0.items, x.1.now)) result (tokens.row_line_at tokens.bit_at level count) text.now }
{
    match bits_in_line(alloc, level, count, text) {
        Ok((items, rest)) => Ok((items, rest)),
        Err(Stop::Memory) => Err(Stop::Memory),
        Err(Stop::Left(_)) => Err(stop_in_bits(level, count, text)),
        Err(Stop::Cut(_)) => Err(stop_in_bits(level, count, text)),
        Err(Stop::Deep) => Err(stop_in_bits(level, count, text)),
    }
}

#[tactic(auto, unfolding(crate::specs::inner::Tokens::row_line_at))]
fn bits_in_line<A: Allocator>(
    alloc: A,
    level: u32,
    count: u64,
    text: &[u8],
) -> Result<(Vec<bool, A>, &[u8]), Stop>
    ensures { Gives (λ x. (x.0.items, x.1.now)) result (tokens.row_line_at tokens.bit_at level count text.now) }
{
    if count == 0 {
        return Ok((Vec::new(alloc), text));
    }
    let line = indent_at(level, text)?;
    let (items, rest) = bit_digits_at(alloc, count, line)?;
    let rest = pass(rest, b"\n")?;
    Ok((items, rest))
}

fn bit_digits_at<A: Allocator>(
    alloc: A,
    count: u64,
    text: &[u8],
) -> Result<(Vec<bool, A>, &[u8]), Stop>
    ensures { Gives (λ x. (x.0.items, x.1.now)) result (tokens.many tokens.bit_at count text.now) }
{
    let mut items = Vec::new(alloc);
    let mut rest = text;
    for _ in 0..count {
        let (bit, after) = bit_at(rest)?;
        items.push(bit)?;
        rest = after;
    }
    Ok((items, rest))
}

/// Returns the stop for a `text` that does not begin with a line of `count` bytes. The stop is `Cut` or `Left`. If
/// it is `Left`, the line cannot be completed, whatever bytes follow.
fn stop_in_bytes(level: u32, count: u64, text: &[u8]) -> Stop
    requires level { level ≤ 600 }
    requires none { tokens.row_line_at tokens.byte_at level count text.now ≡ None }
    ensures { LineFails result (tokens.row_line_at tokens.byte_at level count) text.now }
{
    match indent_at(level, text) {
        Ok(digits) => {
            let bytes = digits.len() - digits.len() / 2;
            if bytes as u64 <= count && are_hex(digits) {
                Stop::Cut(text.len())
            } else {
                Stop::Left(text.len())
            }
        }
        Err(_) => stop_in(text),
    }
}

fn bytes_at<A: Allocator>(
    alloc: A,
    level: u32,
    count: u64,
    text: &[u8],
) -> Result<(Vec<u8, A>, &[u8]), Stop>
    requires { level ≤ 600 }
    ensures { GivesLine (λ x. (x.0.items, x.1.now)) result (tokens.row_line_at tokens.byte_at level count) text.now }
{
    match bytes_in_line(alloc, level, count, text) {
        Ok((items, rest)) => Ok((items, rest)),
        Err(Stop::Memory) => Err(Stop::Memory),
        Err(Stop::Left(_)) => Err(stop_in_bytes(level, count, text)),
        Err(Stop::Cut(_)) => Err(stop_in_bytes(level, count, text)),
        Err(Stop::Deep) => Err(stop_in_bytes(level, count, text)),
    }
}

#[tactic(auto, unfolding(crate::specs::inner::Tokens::row_line_at))]
fn bytes_in_line<A: Allocator>(
    alloc: A,
    level: u32,
    count: u64,
    text: &[u8],
) -> Result<(Vec<u8, A>, &[u8]), Stop>
    ensures { Gives (λ x. (x.0.items, x.1.now)) result (tokens.row_line_at tokens.byte_at level count text.now) }
{
    if count == 0 {
        return Ok((Vec::new(alloc), text));
    }
    let line = indent_at(level, text)?;
    let (items, rest) = byte_digits_at(alloc, count, line)?;
    let rest = pass(rest, b"\n")?;
    Ok((items, rest))
}

fn byte_digits_at<A: Allocator>(
    alloc: A,
    count: u64,
    text: &[u8],
) -> Result<(Vec<u8, A>, &[u8]), Stop>
    ensures { Gives (λ x. (x.0.items, x.1.now)) result (tokens.many tokens.byte_at count text.now) }
{
    let mut items = Vec::new(alloc);
    let mut rest = text;
    for _ in 0..count {
        let (byte, after) = byte_at(rest)?;
        items.push(byte)?;
        rest = after;
    }
    Ok((items, rest))
}

fn pairs_at<A: Allocator>(
    alloc: A,
    level: u32,
    count: u64,
    text: &[u8],
) -> Result<(Vec<u16, A>, &[u8]), Stop>
    requires { level ≤ 600 }
    ensures { GivesAt (λ x. (x.0.items, x.1.now)) result
        (λ r. tokens.many (tokens.number_line_at 65535 level) count) 0 text.now }
{
    let mut items = Vec::new(alloc);
    let mut rest = text;
    for _ in 0..count {
        let (number, after) = number_line_at(65_535, level, rest)?;
        items.push(number as u16)?;
        rest = after;
    }
    Ok((items, rest))
}

fn quads_at<A: Allocator>(
    alloc: A,
    level: u32,
    count: u64,
    text: &[u8],
) -> Result<(Vec<u32, A>, &[u8]), Stop>
    requires { level ≤ 600 }
    ensures { GivesAt (λ x. (x.0.items, x.1.now)) result
        (λ r. tokens.many (tokens.number_line_at 4294967295 level) count) 0 text.now }
{
    let mut items = Vec::new(alloc);
    let mut rest = text;
    for _ in 0..count {
        let (number, after) = number_line_at(4_294_967_295, level, rest)?;
        items.push(number as u32)?;
        rest = after;
    }
    Ok((items, rest))
}

fn octs_at<A: Allocator>(
    alloc: A,
    level: u32,
    count: u64,
    text: &[u8],
) -> Result<(Vec<u64, A>, &[u8]), Stop>
    requires { level ≤ 600 }
    ensures { GivesAt (λ x. (x.0.items, x.1.now)) result
        (λ r. tokens.many (tokens.number_line_at 18446744073709551615 level) count) 0 text.now }
{
    let mut items = Vec::new(alloc);
    let mut rest = text;
    for _ in 0..count {
        let (number, after) = number_line_at(u64::MAX, level, rest)?;
        items.push(number)?;
        rest = after;
    }
    Ok((items, rest))
}

/// Reads the lines of `count` data words at this `level`. Returns the words with the bytes after the lines.
pub fn words_at<A: Allocator>(
    alloc: A,
    level: u32,
    count: u64,
    text: &[u8],
) -> Result<(Vec<u64, A>, &[u8]), Stop>
    requires { level ≤ 600 }
    ensures { GivesAt (λ x. (x.0.items, x.1.now)) result
        (λ r. tokens.many (tokens.word_line_at level) count) 0 text.now }
{
    let mut items = Vec::new(alloc);
    let mut rest = text;
    for _ in 0..count {
        let (word, after) = word_line_at(level, rest)?;
        items.push(word)?;
        rest = after;
    }
    Ok((items, rest))
}
