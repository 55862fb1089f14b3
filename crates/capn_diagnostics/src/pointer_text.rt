//! The text of a word that is read as a pointer, such as a far pointer, for the command `explain`. Stored cases and
//! docs/DIAGNOSTICS.md have it as `explain` prints it.

ghost use Rattle.std.specs.Prelude.{◌≡◌};
ghost use Rattle.capn_words.specs.Pointers.{pointer_of};

use capn_words::{Pointer, Width, split};
use std::fmt;

/// A word read as a pointer, displayed in one line without its newline.
#[derive(Clone, Copy, Debug, PartialEq, Eq)]
pub struct PointerText(pub Pointer);

impl PointerText {
    /// Reads `word` as a pointer.
    pub fn of(word: u64) -> PointerText
        ensures { result ≡ record { 0 = pointer_of word } }
    {
        PointerText(split(word))
    }
}

/// The kind of the elements of a list, displayed in the plural.
#[derive(Drop)]
struct Elements(Width);

impl fmt::Display for Elements {
    ghost use Rattle.std.specs.Prelude.{Some};
    ghost use Rattle.capn_diagnostics.specs.Texts.{elements_text};

    ghost output = { λ elements. Some (elements_text elements.0) };

    fn fmt<W: fmt::Write>(&self, f: &mut fmt::Formatter<W>) -> fmt::Result {
        match self.0 {
            Width::W0 => write!(f, "voids"),
            Width::W1 => write!(f, "bits"),
            Width::W8 => write!(f, "bytes"),
            Width::W16 => write!(f, "u16"),
            Width::W32 => write!(f, "u32"),
            Width::W64 => write!(f, "u64"),
            Width::Link => write!(f, "pointers"),
            Width::Rows => write!(f, "structs"),
        }
    }
}

/// The fields of a pointer to a list, displayed as the text of that pointer.
#[derive(Drop)]
struct List {
    offset: i32,
    width: Width,
    count: u32,
}

impl fmt::Display for List {
    ghost use Rattle.std.specs.Prelude.{Some};
    ghost use Rattle.capn_words.specs.declared.pointer.Pointer.TheVariants.{Many};
    ghost use Rattle.capn_diagnostics.specs.Texts.{pointer_text};

    ghost output = { λ list. Some (pointer_text (Many list.offset list.width list.count)) };

    fn fmt<W: fmt::Write>(&self, f: &mut fmt::Formatter<W>) -> fmt::Result {
        let offset = self.offset;
        let count = self.count;
        match self.width {
            Width::Rows => write!(f, "list of structs in {count} words, offset {offset}"),
            width => write!(f, "list of {count} {}, offset {offset}", Elements(width)),
        }
    }
}

impl fmt::Display for PointerText {
    ghost use Rattle.std.specs.Prelude.{Some};
    ghost use Rattle.capn_diagnostics.specs.Texts.{pointer_text};

    ghost output = { λ text. Some (pointer_text text.0) };

    fn fmt<W: fmt::Write>(&self, f: &mut fmt::Formatter<W>) -> fmt::Result {
        match self.0 {
            Pointer::Nil => write!(f, "null"),
            Pointer::Node {
                offset,
                words,
                slots,
            } => write!(
                f,
                "struct of {words} words and {slots} slots, offset {offset}"
            ),
            Pointer::Many {
                offset,
                width,
                count,
            } => write!(
                f,
                "{}",
                List {
                    offset,
                    width,
                    count
                }
            ),
            Pointer::Far {
                double,
                word,
                segment,
            } => {
                if double {
                    write!(f, "double far to segment {segment} word {word}")
                } else {
                    write!(f, "far to segment {segment} word {word}")
                }
            }
            Pointer::Cap(index) => write!(f, "capability {index}"),
            Pointer::Reserved(_) => write!(f, "reserved"),
        }
    }
}
