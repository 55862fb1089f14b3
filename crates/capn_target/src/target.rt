//! The types `Target`, which is what a pointer leads to, and `Fault`, which is the reason why a slot is refused.

use capn_words::Width;
use std::error::Error;
use std::fmt;

/// The shape of the content that a pointer leads to. (Page: structs, lists.)
#[derive(Clone, Copy, Debug, PartialEq, Eq)]
pub enum Shape {
    /// A struct.
    Node {
        /// The number of data words.
        words: u16,
        /// The number of pointers, each of one word, after the data words.
        slots: u16,
    },
    /// A list that is not composite.
    Many {
        /// The size of an element.
        width: Width,
        /// The number of elements.
        count: u32,
    },
    /// A composite list: a tag word, then structs of one size.
    Rows {
        /// The number of structs.
        count: u32,
        /// The number of data words of each struct.
        words: u16,
        /// The number of pointers of each struct.
        slots: u16,
        /// The number of words that the pointer gives for all structs together, without the tag word.
        span: u32,
    },
}

/// The target of a pointer: null, a capability, or content.
#[derive(Clone, Copy, Debug, PartialEq, Eq)]
pub enum Target {
    /// Null.
    Nil,
    /// A capability, given by its index.
    Cap(u32),
    /// Content that lies within its segment.
    Content {
        /// The number of the segment.
        segment: u32,
        /// The index, within the segment, of the content's first word, which for a composite list is the tag word.
        start: u32,
        /// The form and size of the content.
        shape: Shape,
        /// The number of words of the pointer's landing pad: 0 for a near pointer, otherwise 1 or 2.
        pads: u8,
    },
}

/// The reason why a slot is refused. The tests of one slot are made in the order of the variants, and the first test
/// that fails gives the fault. There are two exceptions: `RootKind` is tested after `TagOverrun`, and for a landing pad
/// of two words, the segment of the content is looked up after the pad's words are tested. (Our own.)
#[derive(Clone, Copy, Debug, PartialEq, Eq)]
pub enum Fault {
    /// Segment 0 has no word, so there is no root.
    NoRoot,
    /// The root is a capability.
    RootKind,
    /// The word is a pointer of no known kind.
    Reserved,
    /// The segment of the landing pad, or of the content that a pad of two words leads to, does not exist.
    NoSegment,
    /// The landing pad is not within its segment.
    PadRange,
    /// The landing pad has the wrong words. A pad of one word has to be a struct or list pointer. The first word of a
    /// pad of two has to be a far pointer whose double bit is 0, and the second a struct or list pointer, or zero.
    BadPad,
    /// The content starts before word 0 or ends past its segment's end.
    Range,
    /// The tag word of a composite list does not have the form of a struct pointer.
    BadTag,
    /// The structs of a composite list take more words than the list's pointer gives.
    TagOverrun,
    /// The object is deeper than the limit.
    TooDeep,
    /// The price of the content, added to what was already paid, is above the budget.
    OverBudget,
    /// An allocation was refused.
    Memory,
}

impl fmt::Display for Fault {
    ghost use Rattle.std.specs.Prelude.{Some};
    ghost use Rattle.capn_target.specs.Display.{fault_name};

    ghost output = { λ fault. Some (fault_name fault) };

    fn fmt<W: fmt::Write>(&self, f: &mut fmt::Formatter<W>) -> fmt::Result {
        match self {
            Fault::NoRoot => f.write_str("NoRoot"),
            Fault::RootKind => f.write_str("RootKind"),
            Fault::Reserved => f.write_str("Reserved"),
            Fault::NoSegment => f.write_str("NoSegment"),
            Fault::PadRange => f.write_str("PadRange"),
            Fault::BadPad => f.write_str("BadPad"),
            Fault::Range => f.write_str("Range"),
            Fault::BadTag => f.write_str("BadTag"),
            Fault::TagOverrun => f.write_str("TagOverrun"),
            Fault::TooDeep => f.write_str("TooDeep"),
            Fault::OverBudget => f.write_str("OverBudget"),
            Fault::Memory => f.write_str("Memory"),
        }
    }
}

impl Error for Fault {}
