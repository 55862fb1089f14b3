//! The marks before a line of a text, and the path that the marks show.

ghost use Rattle.std.specs.Prelude.{◌≡◌, ◌≤◌, ◌+◌, [], ◌∷◌, ◌++◌, IfErr, OnOk, drop, length, take};
ghost use Rattle.std.specs.Prelude.{if◌then◌else◌};
ghost use Rattle.std.specs.Fmt.{decimal};
ghost use Rattle.capn_show.specs.declared.fault.Broken.TheVariants as broken;
ghost use Rattle.capn_marks.specs.Marked as spec;
ghost use Rattle.capn_show.specs.Outgoing.{Adds, BreaksOff, outgoing};

use capn_show::{Broken, put};
use capn_words::Watched;
use itoa::Buffer;
use std::alloc::Allocator;
use std::io::Write;

/// The marks before each line of a text. The subject of a line is the slot, row, word or elements that the line shows.
#[derive(Clone, Copy, Debug, PartialEq, Eq)]
pub struct Marks {
    /// Set if a line begins with the offset of its subject, in decimal digits, and a tab.
    pub offsets: bool,
    /// Set if a line begins with the path of its subject and a tab, after the offset if there is one. A word or an
    /// element has the path of the value or row that it belongs to.
    pub ways: bool,
    /// Set if a list of bytes that is a text is written between quotes, as in `capn_show::Style::Quoted`.
    pub quoted: bool,
    /// The offset in bytes at which the message, including any table, begins in its stream.
    pub offset: u64,
    /// The number of words of the table, or 0 if the message has no table.
    pub table: u32,
}

/// Appends the decimal digits of the byte offset `byte` and a tab to `text`. Only offsets of 2^64 or more need this
/// function.
#[cold]
fn put_wide<W: Write, A: Allocator>(
    text: &mut Vec<u8, A>,
    writer: &mut Watched<W>,
    byte: u128,
) -> Result<(), Broken>
    ensures shown { OnOk result (Adds (outgoing W.contents writer.old text.old.items)
        (outgoing W.contents writer.new text.new.items) (decimal byte ++ 9 ∷ [])) }
    ensures cut { IfErr result (λ e. BreaksOff (outgoing W.contents writer.old text.old.items)
        (outgoing W.contents writer.new text.new.items) e (decimal byte ++ 9 ∷ [])) }
{
    let mut buffer = Buffer::new();
    let digits = buffer.format(byte);
    put(text, writer, digits.as_bytes())?;
    put(text, writer, b"\t")
}

/// Appends the decimal digits of the byte offset `byte` and a tab to `text`.
#[inline(always)]
fn put_digits<W: Write, A: Allocator>(
    text: &mut Vec<u8, A>,
    writer: &mut Watched<W>,
    byte: u64,
) -> Result<(), Broken>
    ensures shown { OnOk result (Adds (outgoing W.contents writer.old text.old.items)
        (outgoing W.contents writer.new text.new.items) (decimal byte ++ 9 ∷ [])) }
    ensures cut { IfErr result (λ e. BreaksOff (outgoing W.contents writer.old text.old.items)
        (outgoing W.contents writer.new text.new.items) e (decimal byte ++ 9 ∷ [])) }
{
    let mut digits = [b'\t'; 21];
    let start = itoa::write_digits(byte, &mut digits, 20);
    put(text, writer, &digits[start..])
}

/// Appends the decimal digits of the byte offset `byte`, which may be of any size, and a tab to `text`.
#[inline(always)]
fn put_byte<W: Write, A: Allocator>(
    text: &mut Vec<u8, A>,
    writer: &mut Watched<W>,
    byte: u128,
) -> Result<(), Broken>
    ensures shown { OnOk result (Adds (outgoing W.contents writer.old text.old.items)
        (outgoing W.contents writer.new text.new.items) (decimal byte ++ 9 ∷ [])) }
    ensures cut { IfErr result (λ e. BreaksOff (outgoing W.contents writer.old text.old.items)
        (outgoing W.contents writer.new text.new.items) e (decimal byte ++ 9 ∷ [])) }
{
    if byte < 1 << 64 {
        put_digits(text, writer, byte as u64)
    } else {
        put_wide(text, writer, byte)
    }
}

/// Appends the decimal digits of the byte offset `byte` and a tab to `text` if `offsets` is true.
#[inline(always)]
fn put_offset<W: Write, A: Allocator>(
    text: &mut Vec<u8, A>,
    writer: &mut Watched<W>,
    offsets: bool,
    byte: u128,
) -> Result<(), Broken>
    ensures shown { OnOk result (Adds (outgoing W.contents writer.old text.old.items)
        (outgoing W.contents writer.new text.new.items) (spec.offset_mark offsets byte)) }
    ensures cut { IfErr result (λ e. BreaksOff (outgoing W.contents writer.old text.old.items)
        (outgoing W.contents writer.new text.new.items) e (spec.offset_mark offsets byte)) }
{
    if offsets {
        put_byte(text, writer, byte)
    } else {
        Ok(())
    }
}

/// Returns the name of `path` in a mark: `root` if `path` is empty, and otherwise `path` itself.
#[inline(always)]
fn path_name(path: &[u8]) -> &[u8]
    ensures { result.now ≡ spec.path_name path.now }
{
    if path.is_empty() { b"root" } else { path }
}

/// The greatest length in bytes of a name that fits into a block of `name_block`.
const MOST: usize = 42;

/// Returns a block of 64 bytes with `name` from byte 21 on. Byte 20 and the byte after `name` are tabs.
#[inline(always)]
fn name_block(name: &[u8]) -> [u8; 64]
    requires short { length name.now ≤ 42 }
    ensures size { length result ≡ 64 }
    ensures tab { drop 20 result ≡ 9 ∷ drop 21 result }
    ensures name { take (1 + length name.now) (drop 21 result) ≡ name.now ++ 9 ∷ [] }
{
    let mut block = [b'\t'; 64];
    block[21..21 + name.len()].copy_from_slice(name);
    block
}

/// Appends `name` and a tab to `text`.
#[inline(always)]
fn put_named<W: Write, A: Allocator>(
    text: &mut Vec<u8, A>,
    writer: &mut Watched<W>,
    name: &[u8],
) -> Result<(), Broken>
    ensures shown { OnOk result (Adds (outgoing W.contents writer.old text.old.items)
        (outgoing W.contents writer.new text.new.items) (name.now ++ 9 ∷ [])) }
    ensures cut { IfErr result (λ e. BreaksOff (outgoing W.contents writer.old text.old.items)
        (outgoing W.contents writer.new text.new.items) e (name.now ++ 9 ∷ [])) }
{
    put(text, writer, name)?;
    put(text, writer, b"\t")
}

/// Appends the digits of the byte offset `byte`, a tab, `name` and a tab to `text` by a single call of `put`.
#[inline(always)]
fn put_block<W: Write, A: Allocator>(
    text: &mut Vec<u8, A>,
    writer: &mut Watched<W>,
    name: &[u8],
    byte: u64,
) -> Result<(), Broken>
    requires short { length name.now ≤ 42 }
    ensures shown { OnOk result (Adds (outgoing W.contents writer.old text.old.items)
        (outgoing W.contents writer.new text.new.items) ((decimal byte ++ 9 ∷ []) ++ (name.now ++ 9 ∷ []))) }
    ensures cut { IfErr result (λ e. BreaksOff (outgoing W.contents writer.old text.old.items)
        (outgoing W.contents writer.new text.new.items) e ((decimal byte ++ 9 ∷ []) ++ (name.now ++ 9 ∷ []))) }
{
    let mut block = name_block(name);
    let start = itoa::write_digits(byte, &mut block, 20);
    put(text, writer, &block[start..22 + name.len()])
}

/// Appends the digits of the byte offset `byte`, a tab, `name` and a tab to `text` by several calls of `put`. Only an
/// offset or a name that is too long for a block of `name_block` needs this function.
#[cold]
fn put_apart<W: Write, A: Allocator>(
    text: &mut Vec<u8, A>,
    writer: &mut Watched<W>,
    name: &[u8],
    byte: u128,
) -> Result<(), Broken>
    ensures shown { OnOk result (Adds (outgoing W.contents writer.old text.old.items)
        (outgoing W.contents writer.new text.new.items) ((decimal byte ++ 9 ∷ []) ++ (name.now ++ 9 ∷ []))) }
    ensures cut { IfErr result (λ e. BreaksOff (outgoing W.contents writer.old text.old.items)
        (outgoing W.contents writer.new text.new.items) e
        ((decimal byte ++ 9 ∷ []) ++ (name.now ++ 9 ∷ []))) }
{
    put_byte(text, writer, byte)?;
    put_named(text, writer, name)
}

/// Appends the digits of the byte offset `byte`, a tab, `name` and a tab to `text`.
#[inline(always)]
fn put_both<W: Write, A: Allocator>(
    text: &mut Vec<u8, A>,
    writer: &mut Watched<W>,
    name: &[u8],
    byte: u128,
) -> Result<(), Broken>
    ensures shown { OnOk result (Adds (outgoing W.contents writer.old text.old.items)
        (outgoing W.contents writer.new text.new.items) ((decimal byte ++ 9 ∷ []) ++ (name.now ++ 9 ∷ []))) }
    ensures cut { IfErr result (λ e. BreaksOff (outgoing W.contents writer.old text.old.items)
        (outgoing W.contents writer.new text.new.items) e ((decimal byte ++ 9 ∷ []) ++ (name.now ++ 9 ∷ []))) }
{
    if byte < 1 << 64 && name.len() <= MOST {
        put_block(text, writer, name, byte as u64)
    } else {
        put_apart(text, writer, name, byte)
    }
}

/// Appends the `marks` of a line to `text`. The subject of the line has the byte offset `byte` and the path `path`.
#[inline(always)]
pub fn put_mark<W: Write, A: Allocator>(
    text: &mut Vec<u8, A>,
    writer: &mut Watched<W>,
    marks: &Marks,
    path: &[u8],
    byte: u128,
) -> Result<(), Broken>
    ensures shown { OnOk result (Adds (outgoing W.contents writer.old text.old.items)
        (outgoing W.contents writer.new text.new.items) (spec.mark marks.now byte path.now)) }
    ensures cut { IfErr result (λ e. BreaksOff (outgoing W.contents writer.old text.old.items)
        (outgoing W.contents writer.new text.new.items) e (spec.mark marks.now byte path.now)) }
{
    if !marks.ways {
        put_offset(text, writer, marks.offsets, byte)
    } else if marks.offsets {
        put_both(text, writer, path_name(path), byte)
    } else {
        put_named(text, writer, path_name(path))
    }
}

/// Returns the length in bytes of `path`.
#[inline(always)]
pub fn path_length<A: Allocator>(path: &Vec<u8, A>) -> usize
    ensures { result ≡ length path.now.items }
{
    path.len()
}

/// Appends the decimal digits of `number` to `path`.
#[tactic(auto, using(std::proofs::lemmas::Fmt::decimal_digit))]
fn push_digits<A: Allocator>(path: &mut Vec<u8, A>, number: u64) -> Result<(), Broken>
    ensures digits { OnOk result (path.new.items ≡ path.old.items ++ decimal number) }
    ensures memory { IfErr result (λ e. e ≡ broken.Memory) }
{
    if number < 10 {
        return match path.push(b'0' + number as u8) {
            Ok(()) => Ok(()),
            Err(_) => Err(Broken::Memory),
        };
    }
    let mut digits = [0; 20];
    let start = itoa::write_digits(number, &mut digits, 20);
    match path.extend_from_slice(&digits[start..]) {
        Ok(()) => Ok(()),
        Err(_) => Err(Broken::Memory),
    }
}

/// Appends `number` to `path`. If `path` is not empty, a dot is written before the number.
pub fn push_number<A: Allocator>(path: &mut Vec<u8, A>, number: u64) -> Result<(), Broken>
    ensures below { OnOk result (path.new.items ≡ spec.below path.old.items number) }
    ensures memory { IfErr result (λ e. e ≡ broken.Memory) }
{
    if !path.is_empty() {
        let Ok(()) = path.push(b'.') else {
            return Err(Broken::Memory);
        };
    }
    push_digits(path, number)
}

/// Appends `number` to `path` if `ways` is true. Otherwise `path` is unchanged, since no mark shows it.
#[inline(always)]
pub fn step_below<A: Allocator>(
    path: &mut Vec<u8, A>,
    ways: bool,
    number: u64,
) -> Result<(), Broken>
    ensures below { OnOk result
        (path.new.items ≡ (if ways then spec.below path.old.items number else path.old.items)) }
    ensures memory { IfErr result (λ e. e ≡ broken.Memory) }
{
    if ways {
        push_number(path, number)
    } else {
        Ok(())
    }
}
