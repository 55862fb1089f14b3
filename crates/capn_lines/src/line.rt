//! One line of a message.

use crate::kind::Kind;
use capn_words::Place;

/// Words one after another in one segment that are alike: of one kind, of one visit, and covered as often. A line has
/// as many words as it can, but a pointer, a word of a landing pad and a tag have a line each. (Our own.)
#[derive(Clone, Copy, Debug, PartialEq, Eq)]
pub struct Line {
    /// The place of the first word.
    pub place: Place,
    /// The number of words, 1 or more.
    pub words: u32,
    /// The number of times that each of the words is covered.
    pub times: u32,
    /// The kind of the words.
    pub kind: Kind,
    /// The number of the slot to whose visit the words belong: how many words of the message lie before that slot. For
    /// the root's slot, and for words that nothing covers, 0.
    pub slot: u32,
    /// The number of the words that canonical bytes leave out of the object to which they belong.
    pub cut: u32,
    /// The number of the words that are not zero.
    pub not_zero: u32,
    /// Set if two that cover the first word differ.
    pub overlap: bool,
}
