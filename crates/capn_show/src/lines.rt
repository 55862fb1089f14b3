//! The lines of a text, and the indents, numbers and digits in them. The text of `show` stays the same within 1.x
//! (docs/STABILITY.md), and `make` reads it.

ghost use Rattle.std.specs.Prelude.{◌≡◌, ℕ, ◌<◌, ◌^◌, [], ◌∷◌, ◌++◌, ◌+◌, ◌*◌, IfErr, OnOk, codes, length, replicate};
ghost use Rattle.std.specs.Prelude.{slice_index};
ghost use Rattle.capn_value.specs.Text as form;
ghost use Rattle.capn_walk.specs.View as seen;
ghost use Rattle.capn_words.specs.declared.pointer.Width.TheVariants as widths;
ghost use Rattle.std.specs.Fmt.{decimal};
ghost use Rattle.std.specs.Int.{to_le_bytes, w64};
ghost use Rattle.hex.specs.Hex.{encode_lower};
ghost use Rattle.capn_show.specs.Outgoing.{Adds, BreaksOff, outgoing};

use crate::fault::Broken;
use crate::output::put;
use capn_walk::digit;
use capn_words::{Watched, Width};
use std::alloc::Allocator;
use std::io::Write;

/// The indent of 32 levels, with two spaces for each level.
const SPACES: [u8; 64] = [b' '; 64];

/// Appends the indent of `level` to `text`: two spaces for each level.
pub fn indent<W: Write, A: Allocator>(
    text: &mut Vec<u8, A>,
    writer: &mut Watched<W>,
    level: u32,
) -> Result<(), Broken>
    ensures shown { OnOk result (Adds (outgoing W.contents writer.old text.old.items)
        (outgoing W.contents writer.new text.new.items) (replicate (2 * level) 32)) }
    ensures cut { IfErr result (λ e. BreaksOff (outgoing W.contents writer.old text.old.items)
        (outgoing W.contents writer.new text.new.items) e (replicate (2 * level) 32)) }
{
    let mut done = 0;
    while level - done > 32 {
        put(text, writer, &SPACES)?;
        done += 32;
    }
    put(text, writer, &SPACES[..2 * (level - done) as usize])
}

/// Appends a newline to `text`.
pub fn end_line<W: Write, A: Allocator>(
    text: &mut Vec<u8, A>,
    writer: &mut Watched<W>,
) -> Result<(), Broken>
    ensures shown { OnOk result (Adds (outgoing W.contents writer.old text.old.items)
        (outgoing W.contents writer.new text.new.items) (10 ∷ [])) }
    ensures cut { IfErr result (λ e. BreaksOff (outgoing W.contents writer.old text.old.items)
        (outgoing W.contents writer.new text.new.items) e (10 ∷ [])) }
{
    put(text, writer, b"\n")
}

/// Appends the number `n` in decimal digits to `text`, and then the byte `after`.
pub fn put_number<W: Write, A: Allocator>(
    text: &mut Vec<u8, A>,
    writer: &mut Watched<W>,
    n: u64,
    after: u8,
) -> Result<(), Broken>
    ensures shown { OnOk result (Adds (outgoing W.contents writer.old text.old.items)
        (outgoing W.contents writer.new text.new.items) (decimal n ++ after ∷ [])) }
    ensures cut { IfErr result (λ e. BreaksOff (outgoing W.contents writer.old text.old.items)
        (outgoing W.contents writer.new text.new.items) e (decimal n ++ after ∷ [])) }
{
    let mut digits = [after; 21];
    let start = itoa::write_digits(n, &mut digits, 20);
    put(text, writer, &digits[start..])
}

/// Appends a line with only `word` to `text`, at this `level`.
pub fn plain_line<W: Write, A: Allocator>(
    text: &mut Vec<u8, A>,
    writer: &mut Watched<W>,
    level: u32,
    word: &str,
) -> Result<(), Broken>
    ensures shown { OnOk result (Adds (outgoing W.contents writer.old text.old.items)
        (outgoing W.contents writer.new text.new.items) (form.line level word.now)) }
    ensures cut { IfErr result (λ e. BreaksOff (outgoing W.contents writer.old text.old.items)
        (outgoing W.contents writer.new text.new.items) e (form.line level word.now)) }
{
    indent(text, writer, level)?;
    put(text, writer, word.as_bytes())?;
    end_line(text, writer)
}

/// Appends a line with `name` and the number `n` to `text`, at this `level`.
pub fn named_line<W: Write, A: Allocator>(
    text: &mut Vec<u8, A>,
    writer: &mut Watched<W>,
    level: u32,
    name: &str,
    n: u32,
) -> Result<(), Broken>
    ensures shown { OnOk result (Adds (outgoing W.contents writer.old text.old.items)
        (outgoing W.contents writer.new text.new.items) (form.line level (form.named name.now n))) }
    ensures cut { IfErr result (λ e. BreaksOff (outgoing W.contents writer.old text.old.items)
        (outgoing W.contents writer.new text.new.items) e (form.line level (form.named name.now n))) }
{
    indent(text, writer, level)?;
    put(text, writer, name.as_bytes())?;
    put(text, writer, b" ")?;
    put_number(text, writer, n as u64, b'\n')
}

/// Appends the first line of a struct with these numbers of data `words` and `slots` to `text`, at this `level`.
pub fn body_line<W: Write, A: Allocator>(
    text: &mut Vec<u8, A>,
    writer: &mut Watched<W>,
    level: u32,
    words: u16,
    slots: u16,
) -> Result<(), Broken>
    ensures shown { OnOk result (Adds (outgoing W.contents writer.old text.old.items)
        (outgoing W.contents writer.new text.new.items) (form.body_line level words slots)) }
    ensures cut { IfErr result (λ e. BreaksOff (outgoing W.contents writer.old text.old.items)
        (outgoing W.contents writer.new text.new.items) e (form.body_line level words slots)) }
{
    indent(text, writer, level)?;
    put(text, writer, b"struct ")?;
    put_number(text, writer, words as u64, b' ')?;
    put_number(text, writer, slots as u64, b'\n')
}

/// Appends a line with the number `n` to `text`, at this `level`.
pub fn number_line<W: Write, A: Allocator>(
    text: &mut Vec<u8, A>,
    writer: &mut Watched<W>,
    level: u32,
    n: u64,
) -> Result<(), Broken>
    ensures shown { OnOk result (Adds (outgoing W.contents writer.old text.old.items)
        (outgoing W.contents writer.new text.new.items) (form.line level (decimal n))) }
    ensures cut { IfErr result (λ e. BreaksOff (outgoing W.contents writer.old text.old.items)
        (outgoing W.contents writer.new text.new.items) e (form.line level (decimal n))) }
{
    indent(text, writer, level)?;
    put_number(text, writer, n, b'\n')
}

/// Returns the line of a data `word`. The 16 hexadecimal digits of `word` begin with the most significant one.
fn word_bytes(word: u64) -> [u8; 22]
    ensures { result ≡ codes "word " ++ (form.hex16 word ++ 10 ∷ []) }
{
    let mut line = *b"word 0000000000000000\n";
    // The slice has 16 bytes, one for each digit, so the call cannot fail.
    let _done = hex::encode_to_slice(word.to_be_bytes(), &mut line[5..21]);
    line
}

/// Appends the line of a data `word` to `text`, at this `level`.
pub fn word_line<W: Write, A: Allocator>(
    text: &mut Vec<u8, A>,
    writer: &mut Watched<W>,
    level: u32,
    word: u64,
) -> Result<(), Broken>
    ensures shown { OnOk result (Adds (outgoing W.contents writer.old text.old.items)
        (outgoing W.contents writer.new text.new.items) (form.line level (codes "word " ++ form.hex16 word))) }
    ensures cut { IfErr result (λ e. BreaksOff (outgoing W.contents writer.old text.old.items)
        (outgoing W.contents writer.new text.new.items) e (form.line level (codes "word " ++ form.hex16 word))) }
{
    indent(text, writer, level)?;
    put(text, writer, &word_bytes(word))
}

/// Returns the 64 binary digits of `word`, the least significant first.
pub fn word_bits(word: u64) -> [u8; 64]
    ensures size { length result ≡ 64 }
    ensures each { (i : ℕ) → i < 64 → slice_index result i ≡ 48 + seen.digit widths.W1 word i }
{
    let mut digits = [b'0'; 64];
    for i in 0..64u32 {
        digits[i as usize] = b'0' + digit(Width::W1, word, i) as u8;
    }
    digits
}

/// Returns the hexadecimal digits of the bytes of `word`, the least significant byte first.
pub fn word_digits(word: u64) -> [u8; 16]
    ensures { result ≡ encode_lower (to_le_bytes w64 word) }
{
    let mut digits = [0u8; 16];
    // The array has 16 bytes, one for each digit, so the call cannot fail.
    let _done = hex::encode_to_slice(word.to_le_bytes(), &mut digits);
    digits
}
