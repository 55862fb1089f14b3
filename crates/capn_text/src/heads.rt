//! The first line of a value, with the kind and the sizes of the value.

ghost use Rattle.std.specs.Prelude.{◌≡◌, ◌≤◌, IfOk, IfErr};
ghost use Rattle.capn_text.specs.inner.Tokens.{GivesIdly};
ghost use Rattle.capn_text.specs.inner.Values as values;
ghost use Rattle.capn_text.specs.inner.Values.{Holds};
ghost use Rattle.capn_text.specs.inner.Stops as spec;
ghost use Rattle.capn_text.specs.inner.Stops.{GivesLine};

use crate::fault::Stop;
use crate::tokens::{decimal_at, indent_at, pass, skip, stop_in};

/// The kind of a list of numbers, of bits, or of elements without bits.
#[derive(Clone, Copy)]
pub enum Leaf {
    Voids,
    Bits,
    Bytes,
    Pairs,
    Quads,
    Octs,
}

/// The word before the number, in a first line that has a single number.
#[derive(Clone, Copy)]
pub enum Name {
    Links,
    Rows,
    Cap,
    Leaf(Leaf),
}

/// The first line of a value: its kind and its sizes.
#[derive(Clone, Copy)]
pub enum Head {
    Null,
    /// The numbers of data words and of slots of a struct.
    Struct(u64, u64),
    /// The number of elements of a list, or the index of a capability.
    Named(Name, u64),
}

/// Reads the first line of a value at this `level`, at the front of `text`. Returns the line with the bytes after it.
pub fn head_at(level: u32, text: &[u8]) -> Result<(Head, &[u8]), Stop>
    requires { level ≤ 600 }
    ensures value { GivesLine (λ x. (x.0, x.1.now)) result (values.head_at level) text.now }
    ensures holds { IfOk result (λ x. Holds x.0) }
    ensures place { IfErr result (λ e. e ≡ spec.stop_in text.now) }
{
    match head_in_line(level, text) {
        Ok((head, rest)) => Ok((head, rest)),
        Err(_) => Err(stop_in(text)),
    }
}

#[tactic(auto, unfolding(crate::specs::inner::Values::head_at))]
fn head_in_line(level: u32, text: &[u8]) -> Result<(Head, &[u8]), Stop>
    ensures value { GivesIdly (λ x. (x.0, x.1.now)) result (values.head_at level text.now) }
    ensures holds { IfOk result (λ x. Holds x.0) }
{
    let line = indent_at(level, text)?;
    match skip(line, b"null\n") {
        Some(rest) => Ok((Head::Null, rest)),
        None => match skip(line, b"struct ") {
            Some(rest) => sizes_at(rest),
            None => named_at(line),
        },
    }
}

#[tactic(auto, unfolding(crate::specs::inner::Values::sizes_at))]
fn sizes_at(text: &[u8]) -> Result<(Head, &[u8]), Stop>
    ensures value { GivesIdly (λ x. (x.0, x.1.now)) result (values.sizes_at text.now) }
    ensures holds { IfOk result (λ x. Holds x.0) }
{
    let (words, rest) = decimal_at(text)?;
    let rest = pass(rest, b" ")?;
    let (slots, rest) = decimal_at(rest)?;
    let rest = pass(rest, b"\n")?;
    Ok((Head::Struct(words, slots), rest))
}

#[tactic(auto, unfolding(crate::specs::inner::Values::named_at))]
fn named_at(line: &[u8]) -> Result<(Head, &[u8]), Stop>
    ensures value { GivesIdly (λ x. (x.0, x.1.now)) result (values.named_at line.now) }
    ensures holds { IfOk result (λ x. Holds x.0) }
{
    let (name, rest) = name_at(line)?;
    let (number, rest) = decimal_at(rest)?;
    let rest = pass(rest, b"\n")?;
    if number > greatest_number(name) {
        return Err(Stop::Left(line.len()));
    }
    Ok((Head::Named(name, number), rest))
}

fn greatest_number(name: Name) -> u64
    ensures { result ≡ values.greatest_number name }
{
    match name {
        Name::Cap | Name::Leaf(Leaf::Voids) => u32::MAX as u64,
        _ => u64::MAX,
    }
}

#[tactic(auto, unfolding(crate::specs::inner::Values::name_at))]
fn name_at(line: &[u8]) -> Result<(Name, &[u8]), Stop>
    ensures { GivesIdly (λ x. (x.0, x.1.now)) result (values.name_at line.now) }
{
    if let Some(rest) = skip(line, b"pointers ") {
        return Ok((Name::Links, rest));
    }
    if let Some(rest) = skip(line, b"rows ") {
        return Ok((Name::Rows, rest));
    }
    if let Some(rest) = skip(line, b"void ") {
        return Ok((Name::Leaf(Leaf::Voids), rest));
    }
    if let Some(rest) = skip(line, b"bits ") {
        return Ok((Name::Leaf(Leaf::Bits), rest));
    }
    if let Some(rest) = skip(line, b"bytes ") {
        return Ok((Name::Leaf(Leaf::Bytes), rest));
    }
    if let Some(rest) = skip(line, b"u16 ") {
        return Ok((Name::Leaf(Leaf::Pairs), rest));
    }
    if let Some(rest) = skip(line, b"u32 ") {
        return Ok((Name::Leaf(Leaf::Quads), rest));
    }
    if let Some(rest) = skip(line, b"u64 ") {
        return Ok((Name::Leaf(Leaf::Octs), rest));
    }
    if let Some(rest) = skip(line, b"capability ") {
        return Ok((Name::Cap, rest));
    }
    Err(Stop::Left(line.len()))
}
