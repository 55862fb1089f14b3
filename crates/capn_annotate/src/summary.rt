//! The last line of a message. Stored cases and docs/DEBUGGING.md have it as `annotate` prints it.

ghost use Rattle.std.specs.Prelude.{◌≡◌, IfOk, string_bytes};
ghost use Rattle.capn_annotate.specs.Summary as spec;

use capn_lines::Counts;
use capn_serve::{Position, number_of};
use std::alloc::{AllocError, Allocator};
use std::fmt;

/// The number of words of canonical bytes, displayed as a number, or as a dash if there is none.
#[derive(Drop)]
struct Canonical(Option<u64>);

impl fmt::Display for Canonical {
    ghost use Rattle.std.specs.Prelude.{Some};
    ghost use Rattle.capn_annotate.specs.Summary.{canonical_text};

    ghost output = { λ words. Some (canonical_text words.0) };

    fn fmt<W: fmt::Write>(&self, f: &mut fmt::Formatter<W>) -> fmt::Result {
        match self.0 {
            Some(words) => write!(f, "{words}"),
            None => write!(f, "-"),
        }
    }
}

/// The number of words of each kind, displayed after its name.
#[derive(Drop)]
struct Kinds(Counts);

impl fmt::Display for Kinds {
    ghost use Rattle.std.specs.Prelude.{Some};
    ghost use Rattle.capn_annotate.specs.Summary.{kinds_text};

    ghost output = { λ kinds. Some (kinds_text kinds.0) };

    fn fmt<W: fmt::Write>(&self, f: &mut fmt::Formatter<W>) -> fmt::Result {
        let pointer = self.0.pointer;
        let null = self.0.null;
        let pad = self.0.pad;
        let tag = self.0.tag;
        let words = self.0.data;
        let list = self.0.list;
        let slack = self.0.slack;
        let unreached = self.0.unreached;
        write!(
            f,
            "pointer {pointer} null {null} pad {pad} tag {tag} data {words} list {list} slack {slack} \
             unreached {unreached}"
        )
    }
}

/// The counts of a message, displayed in one line with its newline.
#[derive(Clone, Copy, Debug, PartialEq, Eq)]
pub struct Summary {
    /// The position of the message.
    pub at: Position,
    /// The counts of its words.
    pub counts: Counts,
    /// The number of words of its canonical bytes, or `None` if it has a capability.
    pub canonical: Option<u64>,
}

impl fmt::Display for Summary {
    ghost use Rattle.std.specs.Prelude.{Some};
    ghost use Rattle.capn_annotate.specs.Summary.{summary_text};

    ghost output = { λ summary. Some (summary_text summary) };

    fn fmt<W: fmt::Write>(&self, f: &mut fmt::Formatter<W>) -> fmt::Result {
        let number = number_of(self.at.index);
        let offset = self.at.offset;
        let words = self.counts.words;
        let kinds = Kinds(self.counts);
        let shared = self.counts.shared;
        let overlap = self.counts.overlap;
        let hidden = self.counts.hidden;
        let cut = self.counts.cut;
        let canonical = Canonical(self.canonical);
        write!(
            f,
            "{number} at {offset} words {words} {kinds} shared {shared} overlap {overlap} hidden {hidden} cut {cut} \
             canonical {canonical}\n"
        )
    }
}

/// Returns the `summary` of a message in one line.
pub fn summary_line<A: Allocator>(alloc: A, summary: Summary) -> Result<String<A>, AllocError>
    ensures { IfOk result (λ text. string_bytes text ≡ spec.summary_text summary) }
{
    format!(in alloc; "{summary}")
}

/// Returns the last line of a message, which ends before the byte `byte` of the stream.
pub fn end_line<A: Allocator>(
    alloc: A,
    byte: u128,
    summary: Summary,
) -> Result<String<A>, AllocError>
    ensures { IfOk result (λ text. string_bytes text ≡ spec.end_text byte summary) }
{
    format!(in alloc; "{byte}\tend\t{summary}")
}
