//! The text of a line up to any quotation. Stored cases and docs/DEBUGGING.md have it as `annotate` prints it.

use capn_diagnostics::{PointerText, TagText};
use capn_words::{Place, Pointer, Width};
use std::fmt;

/// The saying of a line about its words, displayed. The rest of a line follows it: a quotation, padding, cut words and
/// an overlap.
#[derive(Clone, Copy, Debug, PartialEq, Eq)]
pub enum Saying {
    /// The words are one pointer, and its content starts at the place `to`, if that is shown.
    Pointer {
        /// The pointer.
        pointer: Pointer,
        /// The place where the content starts.
        to: Option<Place>,
    },
    /// The word is the tag of a list of structs.
    Tag(u64),
    /// The words are this many slots.
    Slots(u32),
    /// The words are this many data words.
    Words(u32),
    /// The words have elements of a list.
    Elements {
        /// The width of an element.
        width: Width,
        /// The number of elements of the whole list.
        count: u32,
    },
    /// The words are read by nobody.
    Unread {
        /// The number of words.
        words: u32,
        /// The number of words that are not zero.
        not_zero: u32,
    },
}

/// The place where a content starts, displayed behind its pointer.
#[derive(Drop)]
struct To(Option<Place>);

impl fmt::Display for To {
    ghost use Rattle.std.specs.Prelude.{Some};
    ghost use Rattle.capn_annotate.specs.LineTexts.{to_text};

    ghost output = { λ to. Some (to_text to.0) };

    fn fmt<W: fmt::Write>(&self, f: &mut fmt::Formatter<W>) -> fmt::Result {
        match self.0 {
            Some(at) => write!(f, ", to {}:{}", at.segment, at.word),
            None => write!(f, ""),
        }
    }
}

/// The kind of the elements of a list of numbers, displayed in the plural.
#[derive(Drop)]
struct Elements(Width);

impl fmt::Display for Elements {
    ghost use Rattle.std.specs.Prelude.{Some};
    ghost use Rattle.capn_diagnostics.specs.Texts.{elements_text};

    ghost output = { λ elements. Some (elements_text elements.0) };

    fn fmt<W: fmt::Write>(&self, f: &mut fmt::Formatter<W>) -> fmt::Result {
        match self.0 {
            Width::W0 => write!(f, "voids"),
            Width::W1 => write!(f, "bits"),
            Width::W8 => write!(f, "bytes"),
            Width::W16 => write!(f, "u16"),
            Width::W32 => write!(f, "u32"),
            Width::W64 => write!(f, "u64"),
            Width::Link => write!(f, "pointers"),
            Width::Rows => write!(f, "structs"),
        }
    }
}

impl fmt::Display for Saying {
    ghost use Rattle.std.specs.Prelude.{Some};
    ghost use Rattle.capn_annotate.specs.LineTexts.{saying_text};

    ghost output = { λ saying. Some (saying_text saying) };

    fn fmt<W: fmt::Write>(&self, f: &mut fmt::Formatter<W>) -> fmt::Result {
        match *self {
            Saying::Pointer { pointer, to } => write!(f, "{}{}", PointerText(pointer), To(to)),
            Saying::Tag(word) => write!(f, "{}", TagText(word)),
            Saying::Slots(count) => write!(f, "{count} slots"),
            Saying::Words(count) => write!(f, "{count} words"),
            Saying::Elements { width, count } => write!(f, "{count} {}", Elements(width)),
            Saying::Unread { words, not_zero } => {
                if not_zero == 0 {
                    write!(f, "{words} words, zero")
                } else {
                    write!(f, "{words} words, {not_zero} not zero")
                }
            }
        }
    }
}
