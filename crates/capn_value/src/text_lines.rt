//! The lines of a tree's text, which are appended to one string. Each call returns `AllocError` if an allocation is
//! refused. The string may then have some of the line.

ghost use Rattle.std.specs.Prelude.{◌≡◌, ◌≤◌, [], ◌∷◌, ◌++◌, ◌*◌, length, OnOk, string_bytes, codes, replicate};
ghost use Rattle.capn_value.specs.Text as text;
ghost use Rattle.std.specs.Fmt.{decimal};
ghost use Rattle.hex.specs.Hex.{encode_lower};

use std::alloc::{AllocError, Allocator};

fn indent<A: Allocator>(out: &mut String<A>, level: u32) -> Result<(), AllocError>
    ensures { OnOk result (string_bytes out.new ≡ string_bytes out.old ++ replicate (2 * level) 32) }
{
    for _i in 0..level {
        out.push_str("  ")?;
    }
    Ok(())
}

/// Appends to `out` a line with the text `word`, indented for `level`.
#[tactic(auto, using(std::proofs::lemmas::Grind::common_steps), unfolding(crate::specs::Text::line))]
pub fn plain_line<A: Allocator>(
    out: &mut String<A>,
    level: u32,
    word: &str,
) -> Result<(), AllocError>
    ensures { OnOk result (string_bytes out.new ≡ string_bytes out.old ++ text.line level word.now) }
{
    indent(out, level)?;
    writeln!(out, "{word}")
}

/// Appends to `out` a line of `name` and the number `n`, indented for `level`.
#[tactic(auto, using(std::proofs::lemmas::Grind::common_steps), unfolding(crate::specs::Text::line))]
pub fn named_line<A: Allocator>(
    out: &mut String<A>,
    level: u32,
    name: &str,
    n: usize,
) -> Result<(), AllocError>
    ensures { OnOk result (string_bytes out.new ≡ string_bytes out.old ++ text.line level (text.named name.now n)) }
{
    indent(out, level)?;
    writeln!(out, "{name} {n}")
}

/// Appends to `out` the first line of a struct of `words` words and `slots` slots, indented for `level`.
#[tactic(auto, using(std::proofs::lemmas::Grind::common_steps), unfolding(crate::specs::Text::line))]
pub fn body_line<A: Allocator>(
    out: &mut String<A>,
    level: u32,
    words: usize,
    slots: usize,
) -> Result<(), AllocError>
    ensures { OnOk result (string_bytes out.new ≡ string_bytes out.old ++ text.body_line level words slots) }
{
    indent(out, level)?;
    writeln!(out, "struct {words} {slots}")
}

/// Appends to `out` a line of the number `n`, indented for `level`.
#[tactic(auto, using(std::proofs::lemmas::Grind::common_steps), unfolding(crate::specs::Text::line))]
pub fn number_line<A: Allocator>(out: &mut String<A>, level: u32, n: u64) -> Result<(), AllocError>
    ensures { OnOk result (string_bytes out.new ≡ string_bytes out.old ++ text.line level (decimal n)) }
{
    indent(out, level)?;
    writeln!(out, "{n}")
}

/// Appends to `out` the line of the data word `word`, indented for `level`. The word is written as a number, the most
/// significant digit first.
#[tactic(auto, using(std::proofs::lemmas::Grind::common_steps), unfolding(crate::specs::Text::line))]
pub fn word_line<A: Allocator>(out: &mut String<A>, level: u32, word: u64) -> Result<(), AllocError>
    ensures { OnOk result
        (string_bytes out.new ≡ string_bytes out.old ++ text.line level (codes "word " ++ text.hex16 word)) }
{
    indent(out, level)?;
    out.push_str("word ")?;
    push_hex(out, &word.to_be_bytes())?;
    out.push_str("\n")
}

/// Appends to `out` a line of two hexadecimal digits for each of `bytes`, indented for `level`.
#[tactic(auto, using(std::proofs::lemmas::Grind::common_steps), unfolding(crate::specs::Text::line))]
pub fn bytes_line<A: Allocator>(
    out: &mut String<A>,
    level: u32,
    bytes: &[u8],
) -> Result<(), AllocError>
    ensures { OnOk result (string_bytes out.new ≡ string_bytes out.old ++ text.line level (encode_lower bytes.now)) }
{
    indent(out, level)?;
    push_hex(out, bytes)?;
    out.push_str("\n")
}

/// Appends to `out` a line of one digit for each of `bits`, indented for `level`.
#[tactic(auto, using(std::proofs::lemmas::Grind::common_steps), unfolding(crate::specs::Text::line))]
pub fn bits_line<A: Allocator>(
    out: &mut String<A>,
    level: u32,
    bits: &[bool],
) -> Result<(), AllocError>
    ensures { OnOk result (string_bytes out.new ≡ string_bytes out.old ++ text.line level (text.digits_of bits.now)) }
{
    indent(out, level)?;
    push_bits(out, bits)?;
    out.push_str("\n")
}

fn push_bits<A: Allocator>(out: &mut String<A>, bits: &[bool]) -> Result<(), AllocError>
    ensures { OnOk result (string_bytes out.new ≡ string_bytes out.old ++ text.digits_of bits.now) }
{
    for block in bits.chunks(64) {
        push_block(out, block)?;
    }
    Ok(())
}

// Appends a digit for each of `bits` to `out`. The digits are put together first, so that `out` is extended only once.
fn push_block<A: Allocator>(out: &mut String<A>, bits: &[bool]) -> Result<(), AllocError>
    requires { length bits.now ≤ 64 }
    ensures { OnOk result (string_bytes out.new ≡ string_bytes out.old ++ text.digits_of bits.now) }
{
    let mut digits = [0; 64];
    for i in 0..bits.len() {
        digits[i] = if bits[i] { b'1' } else { b'0' };
    }
    let Ok(text) = str::from_utf8(&digits[..bits.len()]) else {
        unreachable!();
    };
    out.push_str(text)
}

#[tactic(auto, using(std::proofs::lemmas::Grind::common_steps, crate::proofs::Digits::digits))]
fn push_hex<A: Allocator>(out: &mut String<A>, bytes: &[u8]) -> Result<(), AllocError>
    ensures { OnOk result (string_bytes out.new ≡ string_bytes out.old ++ encode_lower bytes.now) }
{
    for byte in bytes {
        push_byte(out, *byte)?;
    }
    Ok(())
}

#[tactic(auto, using(std::proofs::lemmas::Grind::common_steps, crate::proofs::Digits::digits))]
fn push_byte<A: Allocator>(out: &mut String<A>, byte: u8) -> Result<(), AllocError>
    ensures { OnOk result (string_bytes out.new ≡ string_bytes out.old ++ encode_lower (byte ∷ [])) }
{
    let mut digits = [0u8; 2];
    // The array `digits` has two bytes, so the call succeeds.
    let _done = hex::encode_to_slice([byte], &mut digits);
    out.push(char::from(digits[0]))?;
    out.push(char::from(digits[1]))
}
