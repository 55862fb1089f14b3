//! The findings about a slot at which a walk was refused.

use crate::slot_text::SlotText;

/// The landing pad of the pointer in a slot.
#[derive(Clone, Copy, Debug, PartialEq, Eq)]
pub enum Pad {
    /// There is no pad to show: the pointer is not far, or the words of the pad are not all inside the segment.
    Absent,
    /// A pad of one word.
    One(SlotText),
    /// A pad of two words.
    Two(SlotText, SlotText),
}

/// The words of a segment to which a pointer leads. Some may lie outside the segment, even before its first word.
#[derive(Clone, Copy, Debug, PartialEq, Eq)]
pub struct Stretch {
    /// The number of the segment.
    pub segment: u32,
    /// The first of the words.
    pub start: i64,
    /// The word after the last of the words.
    pub end: i64,
    /// The length of the segment in words.
    pub length: u32,
}

/// The rows of a list of structs, with the sizes that its tag and its pointer give.
#[derive(Clone, Copy, Debug, PartialEq, Eq)]
pub struct RowWords {
    /// The number of rows.
    pub count: u32,
    /// The number of words of one row.
    pub each: u32,
    /// The number of words of all rows.
    pub words: u64,
    /// The number of words that the list's pointer gives to the rows. The tag is not counted.
    pub span: u32,
}

/// The limit that a fault is about, with the numbers to compare.
#[derive(Clone, Copy, Debug, PartialEq, Eq)]
pub enum Limit {
    /// The limit on depth, in objects.
    Depth(u32),
    /// The price of the visit, the budget that is left before the visit, and the complete budget, all in words.
    Budget(u64, u32, u32),
    /// The number of segments of the message.
    Segments(u32),
}

/// The findings about the slot at which the walk over a message was refused.
#[derive(Clone, Copy, Debug, PartialEq, Eq)]
pub struct Examined {
    /// The slot and its word.
    pub slot: SlotText,
    /// The landing pad of the slot's pointer.
    pub pad: Pad,
    /// The tag of the list of structs to which the slot leads, if the list is inside its segment.
    pub tag: Option<SlotText>,
    /// The words of the content if the fault is `Range` or `TagOverrun`, or of the landing pad if the fault is
    /// `PadRange`.
    pub content: Option<Stretch>,
    /// The rows, if the fault is `TagOverrun`.
    pub rows: Option<RowWords>,
    /// The limit, if the fault is `TooDeep`, `OverBudget` or `NoSegment`.
    pub limit: Option<Limit>,
}
