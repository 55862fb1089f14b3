//! The lines about the canonical form of an accepted message. Stored cases and docs/DIAGNOSTICS.md have it as `explain`
//! prints it.

ghost use Rattle.std.specs.Prelude.{◌≡◌};
ghost use Rattle.capn_diagnostics.specs.MessageTexts.{canonical_text};
ghost use Rattle.capn_mismatch.specs.CanonicalLines as spec;

use crate::answer::Mismatch;
use crate::whose::Whose;
use capn_diagnostics::CanonicalText;
use std::alloc::{Allocator, Global};
use std::fmt;

/// The lines about the canonical form of an accepted message. The line `canonical` says that the message is canonical,
/// or why it isn't. The line `lengths` is shown if the field `lengths` is `Some`, and gives the lengths of the message
/// and of the canonical bytes. (Our own.)
#[derive(Debug, Drop)]
pub struct CanonicalLines<A: Allocator = Global> {
    /// `Canonical`, or the first reason why the message isn't canonical.
    pub mismatch: Mismatch<A>,
    /// The byte of the stream at which the message begins, including any segment table.
    pub offset: u64,
    /// The number of words of the segment table, or 0 for a bare message.
    pub table: u32,
    /// The number of bytes of the message's contents, and the number of canonical bytes. The two numbers are given if
    /// they differ, the message isn't canonical, and the message has no capability.
    pub lengths: Option<(u64, u64)>,
}

/// Returns the byte of the stream at which `word` of the first segment begins.
fn byte_of(offset: u64, table: u32, word: u32) -> u128
    ensures { result ≡ spec.byte_of offset table word }
{
    offset as u128 + 8 * (table as u128 + word as u128)
}

impl<A: Allocator> CanonicalLines<A> {
    /// Returns the text of the line `canonical`.
    pub fn canonical(&self) -> CanonicalText<'_>
        ensures { canonical_text result ≡ spec.mismatch_text self.now.offset self.now.table self.now.mismatch }
    {
        match &self.mismatch {
            Mismatch::Canonical => CanonicalText::Yes,
            Mismatch::Segments(count) => CanonicalText::Segments(*count),
            Mismatch::Capability(index, path) => CanonicalText::Capability(*index, path.as_slice()),
            Mismatch::Word {
                word,
                is,
                canonical,
                whose,
            } => {
                let byte = byte_of(self.offset, self.table, *word);
                match whose {
                    Whose::Pointer(path) => {
                        CanonicalText::Pointer(byte, *is, *canonical, path.as_slice())
                    }
                    Whose::Tag(path) => CanonicalText::Tag(byte, *is, *canonical, path.as_slice()),
                    Whose::LastWord(path) => {
                        CanonicalText::LastWord(byte, *is, *canonical, path.as_slice())
                    }
                }
            }
            Mismatch::After { word, is } => {
                CanonicalText::After(byte_of(self.offset, self.table, *word), *is)
            }
        }
    }
}

/// The line `lengths`, which shows the length of a message's contents and the length of the canonical bytes. The line
/// is empty for `None`.
#[derive(Drop)]
struct LengthsLine(Option<(u64, u64)>);

impl fmt::Display for LengthsLine {
    ghost use Rattle.std.specs.Prelude.{Some};
    ghost use Rattle.capn_diagnostics.specs.MessageTexts.{lengths_line};

    ghost output = { λ line. Some (lengths_line line.0) };

    fn fmt<W: fmt::Write>(&self, f: &mut fmt::Formatter<W>) -> fmt::Result {
        match self.0 {
            Some((contents, canonical)) => {
                write!(f, "lengths: {contents} bytes, canonical {canonical}\n")
            }
            None => write!(f, ""),
        }
    }
}

impl<A: Allocator> fmt::Display for CanonicalLines<A> {
    ghost use Rattle.std.specs.Prelude.{Some};
    ghost use Rattle.capn_mismatch.specs.CanonicalLines.{canonical_lines};

    ghost output = { λ lines. Some (canonical_lines lines) };

    fn fmt<W: fmt::Write>(&self, f: &mut fmt::Formatter<W>) -> fmt::Result {
        let canonical = self.canonical();
        write!(f, "canonical: {canonical}\n{}", LengthsLine(self.lengths))
    }
}
