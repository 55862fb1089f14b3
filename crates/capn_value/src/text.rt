//! The text of a tree, which is appended to one string.

ghost use Rattle.std.specs.Prelude.{◌≡◌, ◌++◌, ◌+◌, ◌*◌, ◌<◌, ◌^◌, OnOk, string_bytes, length, codes};
ghost use Rattle.capn_value.specs.TreeOf.{tree_of, trees_of, rows_of};
ghost use Rattle.capn_value.specs.Cost as sizes;
ghost use Rattle.capn_value.specs.Text as text;
ghost use Rattle.hex.specs.Hex.{encode_lower};

use crate::text_lines::{
    bits_line, body_line, bytes_line, named_line, number_line, plain_line, word_line,
};
use crate::value::{Body, Value};
use std::alloc::{AllocError, Allocator};

/// Appends the text of `v` to `out`. The first line is indented for `level`. If an allocation is refused, returns
/// `AllocError`, and `out` may have some of the text.
#[cycle(show)]
#[tactic(auto, using(std::proofs::lemmas::Grind::common_steps, crate::specs::Views::views))]
pub fn show<A: Allocator, B: Allocator>(
    out: &mut String<A>,
    level: u32,
    v: &Value<B>,
) -> Result<(), AllocError>
    requires { level + 2 * sizes.height (tree_of v.now) < 2 ^ 32 }
    ensures { OnOk result (string_bytes out.new ≡ string_bytes out.old ++ text.shown level (tree_of v.now)) }
{
    match v {
        Value::Nil => plain_line(out, level, "null"),
        Value::Node(body) => show_body(out, level, body),
        Value::Voids(n) => named_line(out, level, "void", *n as usize),
        Value::Cap(k) => named_line(out, level, "capability", *k as usize),
        Value::Links(items) => {
            let items = items.as_slice();
            named_line(out, level, "pointers", items.len())?;
            show_each(out, level + 1, items)
        }
        Value::Rows(rows) => {
            let rows = rows.as_slice();
            named_line(out, level, "rows", rows.len())?;
            show_rows(out, level + 1, rows)
        }
        Value::Bits(xs) => show_bits(out, level, xs.as_slice()),
        Value::Bytes(xs) => show_bytes(out, level, xs.as_slice()),
        Value::Pairs(xs) => show_pairs(out, level, xs.as_slice()),
        Value::Quads(xs) => show_quads(out, level, xs.as_slice()),
        Value::Octs(xs) => show_octs(out, level, xs.as_slice()),
    }
}

fn word_lines<A: Allocator>(
    out: &mut String<A>,
    level: u32,
    words: &[u64],
) -> Result<(), AllocError>
    ensures { OnOk result (string_bytes out.new ≡ string_bytes out.old ++ text.word_lines level words.now) }
{
    for word in words {
        word_line(out, level, *word)?;
    }
    Ok(())
}

fn show_pairs<A: Allocator>(out: &mut String<A>, level: u32, xs: &[u16]) -> Result<(), AllocError>
    requires { level + 1 < 2 ^ 32 }
    ensures { OnOk result
        (string_bytes out.new ≡ string_bytes out.old
        ++ (text.line level (text.named (codes "u16") (length xs.now)) ++ text.number_lines (level + 1) xs.now)) }
{
    named_line(out, level, "u16", xs.len())?;
    for x in xs {
        number_line(out, level + 1, u64::from(*x))?;
    }
    Ok(())
}

fn show_quads<A: Allocator>(out: &mut String<A>, level: u32, xs: &[u32]) -> Result<(), AllocError>
    requires { level + 1 < 2 ^ 32 }
    ensures { OnOk result
        (string_bytes out.new ≡ string_bytes out.old
        ++ (text.line level (text.named (codes "u32") (length xs.now)) ++ text.number_lines (level + 1) xs.now)) }
{
    named_line(out, level, "u32", xs.len())?;
    for x in xs {
        number_line(out, level + 1, u64::from(*x))?;
    }
    Ok(())
}

fn show_octs<A: Allocator>(out: &mut String<A>, level: u32, xs: &[u64]) -> Result<(), AllocError>
    requires { level + 1 < 2 ^ 32 }
    ensures { OnOk result
        (string_bytes out.new ≡ string_bytes out.old
        ++ (text.line level (text.named (codes "u64") (length xs.now)) ++ text.number_lines (level + 1) xs.now)) }
{
    named_line(out, level, "u64", xs.len())?;
    for x in xs {
        number_line(out, level + 1, *x)?;
    }
    Ok(())
}

fn show_bytes<A: Allocator>(out: &mut String<A>, level: u32, xs: &[u8]) -> Result<(), AllocError>
    requires { level + 1 < 2 ^ 32 }
    ensures { OnOk result
        (string_bytes out.new ≡ string_bytes out.old
        ++ (text.line level (text.named (codes "bytes") (length xs.now))
        ++ text.one_line (level + 1) (length xs.now) (encode_lower xs.now))) }
{
    named_line(out, level, "bytes", xs.len())?;
    if xs.len() == 0 {
        return Ok(());
    }
    bytes_line(out, level + 1, xs)
}

fn show_bits<A: Allocator>(out: &mut String<A>, level: u32, xs: &[bool]) -> Result<(), AllocError>
    requires { level + 1 < 2 ^ 32 }
    ensures { OnOk result
        (string_bytes out.new ≡ string_bytes out.old
        ++ (text.line level (text.named (codes "bits") (length xs.now))
        ++ text.one_line (level + 1) (length xs.now) (text.digits_of xs.now))) }
{
    named_line(out, level, "bits", xs.len())?;
    if xs.len() == 0 {
        return Ok(());
    }
    bits_line(out, level + 1, xs)
}

#[cycle(show)]
#[tactic(auto, using(std::proofs::lemmas::Grind::common_steps, crate::specs::Views::views))]
fn show_body<A: Allocator, B: Allocator>(
    out: &mut String<A>,
    level: u32,
    body: &Body<B>,
) -> Result<(), AllocError>
    requires { level + 1 + 2 * sizes.greatest (trees_of body.now.slots) < 2 ^ 32 }
    ensures { OnOk result
        (string_bytes out.new ≡ string_bytes out.old
        ++ (text.body_line level (length body.now.words) (length body.now.slots)
        ++ (text.word_lines (level + 1) body.now.words ++ text.shown_each (level + 1) (trees_of body.now.slots)))) }
{
    let slots = body.slots.as_slice();
    body_line(out, level, body.words.len(), slots.len())?;
    word_lines(out, level + 1, body.words.as_slice())?;
    show_each(out, level + 1, slots)
}

#[cycle(show)]
#[tactic(auto, using(std::proofs::lemmas::Grind::common_steps, crate::specs::Views::views))]
fn show_each<A: Allocator, B: Allocator>(
    out: &mut String<A>,
    level: u32,
    items: &[Value<B>],
) -> Result<(), AllocError>
    requires { level + 2 * sizes.greatest (trees_of items.now) < 2 ^ 32 }
    ensures { OnOk result (string_bytes out.new ≡ string_bytes out.old ++ text.shown_each level (trees_of items.now)) }
{
    for v in items {
        show(out, level, v)?;
    }
    Ok(())
}

#[cycle(show)]
#[tactic(auto, using(std::proofs::lemmas::Grind::common_steps, crate::specs::Views::views))]
fn show_rows<A: Allocator, B: Allocator>(
    out: &mut String<A>,
    level: u32,
    rows: &[Body<B>],
) -> Result<(), AllocError>
    requires { level + 1 + 2 * sizes.greatest_in_rows (rows_of rows.now) < 2 ^ 32 }
    ensures { OnOk result (string_bytes out.new ≡ string_bytes out.old ++ text.shown_rows level (rows_of rows.now)) }
{
    for row in rows {
        show_body(out, level, row)?;
    }
    Ok(())
}
