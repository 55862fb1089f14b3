//! The line of a segment table. Stored cases and docs/DEBUGGING.md have it as `annotate` prints it.

ghost use Rattle.std.specs.Prelude.{◌≡◌, ◌^◌, ◌<◌, IfOk, string_bytes};
ghost use Rattle.capn_words.specs.Message.{IsMessage};
ghost use Rattle.capn_annotate.specs.Table as spec;

use crate::parts_of_bytes::{behind, front};
use capn_diagnostics::{SegmentsText, WordText};
use capn_target::segment_length;
use capn_words::Space;
use std::alloc::{AllocError, Allocator};
use std::fmt;

/// The first word of a segment table, and two dots if more words follow, displayed as one column.
#[derive(Drop)]
struct FirstWord {
    word: u64,
    table: u32,
}

impl fmt::Display for FirstWord {
    ghost use Rattle.std.specs.Prelude.{Some};
    ghost use Rattle.capn_annotate.specs.Columns.{bytes_column};

    ghost output = { λ first. Some (bytes_column first.word first.table) };

    fn fmt<W: fmt::Write>(&self, f: &mut fmt::Formatter<W>) -> fmt::Result {
        let bytes = WordText(self.word);
        if self.table < 2 {
            write!(f, "{bytes}")
        } else {
            write!(f, "{bytes}..")
        }
    }
}

/// The end of the line of a table, displayed with its newline. It says whether a bit of the table's padding is 1.
#[derive(Drop)]
struct PaddingNote(bool);

impl fmt::Display for PaddingNote {
    ghost use Rattle.std.specs.Prelude.{Some};
    ghost use Rattle.capn_annotate.specs.Table.{padding_note};

    ghost output = { λ note. Some (padding_note note.0) };

    fn fmt<W: fmt::Write>(&self, f: &mut fmt::Formatter<W>) -> fmt::Result {
        if self.0 {
            write!(f, ", padding not zero\n")
        } else {
            write!(f, "\n")
        }
    }
}

/// The line of a segment table, displayed with its newline.
#[derive(Clone, Copy, Debug, PartialEq, Eq)]
pub struct TableLine {
    /// The byte of the stream at which the table begins.
    pub offset: u64,
    /// The first word of the table.
    pub word: u64,
    /// The number of words of the table.
    pub table: u32,
    /// The segments of the message.
    pub segments: SegmentsText,
    /// True if a bit of the table's padding is 1.
    pub not_zero: bool,
}

impl fmt::Display for TableLine {
    ghost use Rattle.std.specs.Prelude.{Some};
    ghost use Rattle.capn_annotate.specs.Table.{table_line};

    ghost output = { λ line. Some (table_line line) };

    fn fmt<W: fmt::Write>(&self, f: &mut fmt::Formatter<W>) -> fmt::Result {
        let offset = self.offset;
        let bytes = FirstWord {
            word: self.word,
            table: self.table,
        };
        let segments = self.segments;
        let note = PaddingNote(self.not_zero);
        write!(f, "{offset}\t-\t{bytes}\t1\ttable\t\t{segments}{note}")
    }
}

/// Tests whether a bit of `bytes` is 1.
fn has_bits(bytes: &[u8]) -> bool
    ensures { result ≡ spec.has_bits bytes.now }
{
    for i in 0..bytes.len() {
        if bytes[i] != 0 {
            return true;
        }
    }
    false
}

/// Tests whether a bit of the padding is 1 of the table with which `frame` begins. The table has `table` words, for
/// `segments` segments.
fn has_padding_bits(frame: &[u8], segments: u32, table: u32) -> bool
    requires segments { segments < 2 ^ 16 }
    requires table { table < 2 ^ 16 }
    ensures { result ≡ spec.has_padding_bits frame.now segments table }
{
    let bytes = front(frame, 8 * table as usize);
    has_bits(behind(bytes, 4 + 4 * segments as usize))
}

/// Returns the first word of a message's table: the number of segments less 1, and the words of the first segment.
fn first_word<S: Space>(space: &S) -> u64
    ensures { result ≡ spec.first_word (S.message space.now) }
{
    u64::from(space.segments() - 1) + (1 << 32) * u64::from(segment_length(space, 0))
}

/// Returns the line of the table of `space`, whose frame is `frame` and begins at the byte `offset` of the stream. The
/// table has `table` words.
pub fn table_line<S: Space, A: Allocator>(
    alloc: A,
    space: &S,
    frame: &[u8],
    offset: u64,
    table: u32,
) -> Result<String<A>, AllocError>
    requires table { table < 2 ^ 16 }
    ensures { IfOk result (λ text. string_bytes text
        ≡ spec.table_text (S.message space.now) frame.now offset table) }
{
    let _bounds = space.segments();
    let line = TableLine {
        offset,
        word: first_word(space),
        table,
        segments: SegmentsText::of(space),
        not_zero: has_padding_bits(frame, space.segments(), table),
    };
    format!(in alloc; "{line}")
}
