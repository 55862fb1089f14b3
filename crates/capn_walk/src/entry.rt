//! The entries of a message's index, one for each slot.

ghost use Rattle.std.specs.Prelude.{◌≡◌};
ghost use Rattle.capn_walk.specs.Index.{entry_of};
ghost use Rattle.capn_target.specs.declared.target.Target.TheVariants.{Nil};

use crate::kind::{Kind, kind_of_list};
use capn_target::{Shape, Target};
use std::alloc::{Allocator, Global};
use std::mem::size_of;

/// The entry of a slot in an index: the target of the slot's pointer, and the number of entries for the slot and all
/// slots below it. An entry has 24 bytes.
#[derive(Clone, Copy, Debug, PartialEq, Eq)]
pub struct Entry {
    /// The index, within the segment, of the content's first word, or 0 if the target has no content. The first word of
    /// a composite list is the tag word.
    pub start: u32,
    /// The index of the segment that has the content, or 0 if the target has no content.
    pub segment: u32,
    /// The number of elements of a list, the number of rows of a composite list, or the index of a capability. The
    /// count of null and of a struct is 0.
    pub count: u32,
    /// The number of entries for the slot and all slots below it. The entry of the next slot of the same object is
    /// `span` entries further on.
    pub span: u32,
    /// The number of data words of a struct, or of each row of a composite list, or 0 for any other target.
    pub words: u16,
    /// The number of pointers of a struct, or of each row of a composite list, or 0 for any other target.
    pub slots: u16,
    /// The kind of the slot's target.
    pub kind: Kind,
}

impl Entry {
    /// Returns the size of an entry in bytes.
    pub fn bytes() -> usize
        ensures { result ≡ 24 }
    {
        size_of::<Entry>()
    }

    /// Returns the entry of a null slot.
    pub fn nil() -> Entry
        ensures { result ≡ entry_of Nil 1 }
    {
        Entry::of(Target::Nil, 1)
    }

    /// Returns the entry of a slot with the target `target` and the span `span`.
    #[inline(always)]
    pub(crate) fn of(target: Target, span: u32) -> Entry
        ensures { result ≡ entry_of target span }
    {
        match target {
            Target::Nil => Entry {
                start: 0,
                segment: 0,
                count: 0,
                span,
                words: 0,
                slots: 0,
                kind: Kind::Nil,
            },
            Target::Cap(index) => Entry {
                start: 0,
                segment: 0,
                count: index,
                span,
                words: 0,
                slots: 0,
                kind: Kind::Cap,
            },
            Target::Content {
                segment,
                start,
                shape,
                pads: _,
            } => match shape {
                Shape::Node { words, slots } => Entry {
                    start,
                    segment,
                    count: 0,
                    span,
                    words,
                    slots,
                    kind: Kind::Node,
                },
                Shape::Many { width, count } => Entry {
                    start,
                    segment,
                    count,
                    span,
                    words: 0,
                    slots: 0,
                    kind: kind_of_list(width),
                },
                Shape::Rows {
                    count,
                    words,
                    slots,
                    span: _,
                } => Entry {
                    start,
                    segment,
                    count,
                    span,
                    words,
                    slots,
                    kind: Kind::Rows,
                },
            },
        }
    }
}

/// The totals of an index: the number of words that the walk of the message pays, and the number of visits.
#[derive(Clone, Copy, Debug, PartialEq, Eq)]
pub struct Indexed {
    /// The number of words paid: the sum of the prices of all visits.
    pub paid: u32,
    /// The number of visits, which is the number of entries of the complete index. Fewer entries are written if the
    /// room is too small for all entries.
    pub visits: u32,
}

/// The index of a message, and the number of words that the walk of the message pays.
#[derive(Debug, Drop)]
pub struct Index<A: Allocator = Global> {
    /// An entry for each slot that the walk visits, in preorder.
    pub entries: Vec<Entry, A>,
    /// The number of words paid: the sum of the prices of all visits.
    pub paid: u32,
}
