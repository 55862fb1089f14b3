//! The numbers, words, members and commas of the JSON that is written.

ghost use Rattle.std.specs.Prelude.{◌≡◌, [], ◌∷◌, ◌++◌, IfErr, OnOk};
ghost use Rattle.std.specs.Fmt.{decimal};
ghost use Rattle.capn_show.specs.Json.{number_text, word_text};
ghost use Rattle.capn_show.specs.inner.JsonRule as places;
ghost use Rattle.capn_show.specs.inner.JsonRule.{comma, number_item};
ghost use Rattle.capn_show.specs.Outgoing.{Adds, BreaksOff, outgoing};

use crate::fault::Broken;
use crate::lines::put_number;
use crate::output::put;
use capn_words::{Watched, Width};
use std::alloc::Allocator;
use std::io::Write;

/// Appends a comma to `text`, unless `item` is 0, the number of the first item.
#[inline(always)]
pub fn separate<W: Write, A: Allocator>(
    text: &mut Vec<u8, A>,
    writer: &mut Watched<W>,
    item: u32,
) -> Result<(), Broken>
    ensures shown { OnOk result (Adds (outgoing W.contents writer.old text.old.items)
        (outgoing W.contents writer.new text.new.items) (comma item)) }
    ensures cut { IfErr result (λ e. BreaksOff (outgoing W.contents writer.old text.old.items)
        (outgoing W.contents writer.new text.new.items) e (comma item)) }
{
    if item == 0 {
        return Ok(());
    }
    put(text, writer, b",")
}

/// Appends the number `n` to `text`, without quotes.
#[inline(always)]
fn put_plain<W: Write, A: Allocator>(
    text: &mut Vec<u8, A>,
    writer: &mut Watched<W>,
    n: u64,
) -> Result<(), Broken>
    ensures shown { OnOk result (Adds (outgoing W.contents writer.old text.old.items)
        (outgoing W.contents writer.new text.new.items) (decimal n)) }
    ensures cut { IfErr result (λ e. BreaksOff (outgoing W.contents writer.old text.old.items)
        (outgoing W.contents writer.new text.new.items) e (decimal n)) }
{
    let mut digits = [b'0'; 20];
    let start = itoa::write_digits(n, &mut digits, 20);
    put(text, writer, &digits[start..])
}

/// Appends the number `n` between quotes to `text`.
#[inline(always)]
fn put_quoted<W: Write, A: Allocator>(
    text: &mut Vec<u8, A>,
    writer: &mut Watched<W>,
    n: u64,
) -> Result<(), Broken>
    ensures shown { OnOk result (Adds (outgoing W.contents writer.old text.old.items)
        (outgoing W.contents writer.new text.new.items) (number_text n)) }
    ensures cut { IfErr result (λ e. BreaksOff (outgoing W.contents writer.old text.old.items)
        (outgoing W.contents writer.new text.new.items) e (number_text n)) }
{
    let mut digits = [b'"'; 22];
    let start = itoa::write_digits(n, &mut digits, 21);
    put(text, writer, &digits[start - 1..])
}

/// Appends the number `n` to `text`, between quotes if `quoted`.
#[inline(always)]
pub fn put_value<W: Write, A: Allocator>(
    text: &mut Vec<u8, A>,
    writer: &mut Watched<W>,
    quoted: bool,
    n: u64,
) -> Result<(), Broken>
    ensures shown { OnOk result (Adds (outgoing W.contents writer.old text.old.items)
        (outgoing W.contents writer.new text.new.items) (number_item quoted n)) }
    ensures cut { IfErr result (λ e. BreaksOff (outgoing W.contents writer.old text.old.items)
        (outgoing W.contents writer.new text.new.items) e (number_item quoted n)) }
{
    if quoted {
        return put_quoted(text, writer, n);
    }
    put_plain(text, writer, n)
}

/// Returns `true` if a list of this `width` has its numbers between quotes, as only lists of 64-bit numbers do.
pub fn is_quoted(width: Width) -> bool
    ensures { result ≡ places.is_quoted width }
{
    match width {
        Width::W64 => true,
        _ => false,
    }
}

/// Returns the 16 hexadecimal digits of a data `word` between quotes, the most significant first.
fn word_bytes(word: u64) -> [u8; 18]
    ensures { result ≡ word_text word }
{
    let mut item = *b"\"0000000000000000\"";
    // The slice has 16 bytes, one for each digit, so the call cannot fail.
    let _done = hex::encode_to_slice(word.to_be_bytes(), &mut item[1..17]);
    item
}

/// Appends a data `word` to `text` in hexadecimal digits between quotes.
#[inline(always)]
pub fn put_word<W: Write, A: Allocator>(
    text: &mut Vec<u8, A>,
    writer: &mut Watched<W>,
    word: u64,
) -> Result<(), Broken>
    ensures shown { OnOk result (Adds (outgoing W.contents writer.old text.old.items)
        (outgoing W.contents writer.new text.new.items) (word_text word)) }
    ensures cut { IfErr result (λ e. BreaksOff (outgoing W.contents writer.old text.old.items)
        (outgoing W.contents writer.new text.new.items) e (word_text word)) }
{
    put(text, writer, &word_bytes(word))
}

/// Appends a JSON object with one member, the number `n`, to `text`. `head` is the object up to the number.
pub fn put_member<W: Write, A: Allocator>(
    text: &mut Vec<u8, A>,
    writer: &mut Watched<W>,
    head: &[u8],
    n: u32,
) -> Result<(), Broken>
    ensures shown { OnOk result (Adds (outgoing W.contents writer.old text.old.items)
        (outgoing W.contents writer.new text.new.items) (head.now ++ (decimal n ++ 125 ∷ []))) }
    ensures cut { IfErr result (λ e. BreaksOff (outgoing W.contents writer.old text.old.items)
        (outgoing W.contents writer.new text.new.items) e (head.now ++ (decimal n ++ 125 ∷ []))) }
{
    put(text, writer, head)?;
    put_number(text, writer, n as u64, b'}')
}
