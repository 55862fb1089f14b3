//! The marks (offset and path) before the lines of a shown message, and the line `end` after the last of these lines.

ghost use Rattle.std.specs.Prelude.{◌≡◌, [], ◌∷◌, ◌++◌, codes, false, if◌then◌else◌};
ghost use Rattle.std.specs.Fmt.{decimal};
ghost use Rattle.capn_words.specs.Watched.{has_failed};
ghost use Rattle.capn_show.specs.Outgoing.{outgoing};
ghost use Rattle.capn_commands.specs.MessageMarks as spec;
ghost use Rattle.capn_commands.specs.inner.AddedParts.{AddsEnd};

use crate::part_texts::{PartTexts, add_end};
use capn_marks::Marks;
use capn_serve::{Position, ServeFault, table_words};
use capn_words::{Space, Watched};
use std::alloc::Allocator;
use std::io::Write;

/// Returns the marks for `message` at the position `at`, with the options of `texts`.
pub(crate) fn marks_of<S: Space>(texts: &PartTexts, at: Position, message: &S) -> Marks
    ensures { result ≡ spec.marks_of texts.now at (S.message message.now) }
{
    Marks {
        offsets: texts.offsets,
        ways: texts.ways,
        quoted: texts.style.is_quoted(),
        offset: at.offset,
        table: table_words(texts.form, message),
    }
}

/// Returns the offset of the byte after a message of `words` words with these `marks`.
fn byte_after(marks: Marks, words: u32) -> u128
    ensures { result ≡ spec.byte_after marks words }
{
    u128::from(marks.offset) + 8 * (u128::from(marks.table) + u128::from(words))
}

/// Returns the line `end`, which begins with an empty path and a tab if `ways` is set.
fn path_end(ways: bool) -> &'static [u8]
    ensures { result.now ≡ (if ways then 9 ∷ [] else []) ++ (codes "end" ++ 10 ∷ []) }
{
    if ways { b"\tend\n" } else { b"end\n" }
}

/// Adds the line `end`, which begins with the offset `byte` in digits and an empty path.
fn add_end_with_path<W: Write, A: Allocator>(
    byte: u64,
    text: &mut Vec<u8, A>,
    writer: &mut Watched<W>,
) -> Result<(), ServeFault>
    requires fine { has_failed writer.old ≡ false }
    ensures { AddsEnd (decimal byte ++ codes "\t\tend\n") (outgoing W.contents writer.old text.old.items)
        (outgoing W.contents writer.new text.new.items) result }
{
    let mut block = *b"00000000000000000000\t\tend\n";
    let start = itoa::write_digits(byte, &mut block, 20);
    add_end(&block[start..], text, writer)
}

/// Adds the line `end`, which begins with the offset `byte` in digits.
fn add_end_at<W: Write, A: Allocator>(
    byte: u64,
    text: &mut Vec<u8, A>,
    writer: &mut Watched<W>,
) -> Result<(), ServeFault>
    requires fine { has_failed writer.old ≡ false }
    ensures { AddsEnd (decimal byte ++ codes "\tend\n") (outgoing W.contents writer.old text.old.items)
        (outgoing W.contents writer.new text.new.items) result }
{
    let mut block = *b"00000000000000000000\tend\n";
    let start = itoa::write_digits(byte, &mut block, 20);
    add_end(&block[start..], text, writer)
}

/// Adds the line `end`, which begins with the offset `byte`, and with an empty path if `ways` is set. Memory is
/// allocated for the line, so `byte` may be 2^64 or more.
#[cold]
fn add_wide_end<W: Write, A: Allocator>(
    alloc: A,
    ways: bool,
    byte: u128,
    text: &mut Vec<u8, A>,
    writer: &mut Watched<W>,
) -> Result<(), ServeFault>
    requires fine { has_failed writer.old ≡ false }
    ensures { AddsEnd ((decimal byte ++ 9 ∷ []) ++ ((if ways then 9 ∷ [] else []) ++ (codes "end" ++ 10 ∷ [])))
        (outgoing W.contents writer.old text.old.items) (outgoing W.contents writer.new text.new.items) result }
{
    let tab = if ways { "\t" } else { "" };
    match format!(in alloc; "{byte}\t{tab}end\n") {
        Ok(line) => add_end(line.as_bytes(), text, writer),
        Err(_) => Err(ServeFault::Memory),
    }
}

/// Adds the line `end` after a message of `words` words, with the offset and the path that `marks` asks for.
pub(crate) fn add_marked_end<W: Write, A: Allocator>(
    alloc: A,
    marks: Marks,
    words: u32,
    text: &mut Vec<u8, A>,
    writer: &mut Watched<W>,
) -> Result<(), ServeFault>
    requires fine { has_failed writer.old ≡ false }
    ensures { AddsEnd (spec.marked_end marks words) (outgoing W.contents writer.old text.old.items)
        (outgoing W.contents writer.new text.new.items) result }
{
    if !marks.offsets {
        return add_end(path_end(marks.ways), text, writer);
    }
    let byte = byte_after(marks, words);
    if byte >= 1 << 64 {
        add_wide_end(alloc, marks.ways, byte, text, writer)
    } else if marks.ways {
        add_end_with_path(byte as u64, text, writer)
    } else {
        add_end_at(byte as u64, text, writer)
    }
}
