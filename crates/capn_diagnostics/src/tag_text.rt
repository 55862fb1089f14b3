//! The text of a word that is read as the tag of a list of structs. Stored cases and docs/DIAGNOSTICS.md have it as
//! `explain` prints it.

use crate::pointer_text::PointerText;
use std::fmt;

/// A word read as the tag of a list of structs, displayed in one line without its newline: the number of structs, and
/// the size of one. A word without the kind of a struct is displayed as a pointer.
#[derive(Clone, Copy, Debug, PartialEq, Eq)]
pub struct TagText(pub u64);

impl fmt::Display for TagText {
    ghost use Rattle.std.specs.Prelude.{Some};
    ghost use Rattle.capn_diagnostics.specs.Texts.{tag_text};

    ghost output = { λ text. Some (tag_text text.0) };

    fn fmt<W: fmt::Write>(&self, f: &mut fmt::Formatter<W>) -> fmt::Result {
        let tag = self.0;
        if tag & 3 != 0 {
            return write!(f, "{}", PointerText::of(tag));
        }
        let count = tag >> 2 & 0x3fff_ffff;
        let words = tag >> 32 & 0xffff;
        let slots = tag >> 48 & 0xffff;
        write!(
            f,
            "tag of {count} structs of {words} words and {slots} slots"
        )
    }
}
