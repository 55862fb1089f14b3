//! The line that says whether a message is canonical, or why it is not. Stored cases and docs/DIAGNOSTICS.md have it as
//! `explain` prints it.

use crate::path_text::PathText;
use crate::pointer_text::PointerText;
use crate::word_text::WordText;
use std::fmt;

/// A finding on whether a message is canonical, displayed in one line without its newline: `yes`, or `no` and the
/// reason.
#[derive(Clone, Copy, Debug, PartialEq, Eq)]
pub enum CanonicalText<'a> {
    /// The message is canonical.
    Yes,
    /// The message has more than one segment. The field is the number of its segments.
    Segments(u32),
    /// The message has a capability, with this index and the path to it.
    Capability(u32, &'a [u32]),
    /// A word differs from the canonical one, and is a pointer. The fields are the offset in bytes of the word, the
    /// word, the canonical word, and the path to the pointer's slot.
    Pointer(u128, u64, u64, &'a [u32]),
    /// A word differs from the canonical one, and is a tag. The fields are the offset in bytes of the word, the word,
    /// the canonical word, and the path to the list's slot.
    Tag(u128, u64, u64, &'a [u32]),
    /// A word differs from the canonical one, and is the last word of a list. The fields are the offset in bytes of the
    /// word, the word, the canonical word, and the path to the list's slot.
    LastWord(u128, u64, u64, &'a [u32]),
    /// A word lies after the end of the canonical bytes. The fields are the offset in bytes of the word, and the word.
    After(u128, u64),
}

/// A word, displayed as its bytes and then as the pointer that they encode.
#[derive(Drop)]
struct WordSays(u64);

impl fmt::Display for WordSays {
    ghost use Rattle.std.specs.Prelude.{Some};
    ghost use Rattle.capn_diagnostics.specs.MessageTexts.{word_says};

    ghost output = { λ word. Some (word_says word.0) };

    fn fmt<W: fmt::Write>(&self, f: &mut fmt::Formatter<W>) -> fmt::Result {
        write!(f, "{} ({})", WordText(self.0), PointerText::of(self.0))
    }
}

impl<'a> fmt::Display for CanonicalText<'a> {
    ghost use Rattle.std.specs.Prelude.{Some};
    ghost use Rattle.capn_diagnostics.specs.MessageTexts.{canonical_text};

    ghost output = { λ text. Some (canonical_text text) };

    fn fmt<W: fmt::Write>(&self, f: &mut fmt::Formatter<W>) -> fmt::Result {
        match *self {
            CanonicalText::Yes => write!(f, "yes"),
            CanonicalText::Segments(count) => write!(f, "no: {count} segments"),
            CanonicalText::Capability(index, path) => {
                write!(f, "no: capability {index} at {}", PathText(path))
            }
            CanonicalText::Pointer(byte, word, canonical, path) => write!(
                f,
                "no: at byte {byte}: {}, canonical {}, the pointer at {}",
                WordSays(word),
                WordSays(canonical),
                PathText(path)
            ),
            CanonicalText::Tag(byte, word, canonical, path) => write!(
                f,
                "no: at byte {byte}: {}, canonical {}, the tag of {}",
                WordText(word),
                WordText(canonical),
                PathText(path)
            ),
            CanonicalText::LastWord(byte, word, canonical, path) => write!(
                f,
                "no: at byte {byte}: {}, canonical {}, the last word of {}",
                WordText(word),
                WordText(canonical),
                PathText(path)
            ),
            CanonicalText::After(byte, word) => write!(
                f,
                "no: at byte {byte}: {}, canonical nothing, after the value",
                WordText(word)
            ),
        }
    }
}
