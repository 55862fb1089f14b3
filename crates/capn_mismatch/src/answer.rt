//! The result of the test whether a message is canonical.

use crate::whose::Whose;
use std::alloc::{Allocator, Global};

/// The mismatch of a message with its canonical bytes: none, or the first reason why the message isn't canonical.
/// (Our own.)
///
/// The first word of the message's only segment has the number 0.
#[derive(Debug, Drop)]
pub enum Mismatch<A: Allocator = Global> {
    /// The message is canonical: its only segment has the canonical bytes.
    Canonical,
    /// The message has more than one segment. The number is the number of segments.
    Segments(u32),
    /// The value has a capability. The fields are the index of the first capability in preorder, and the path to that
    /// capability's slot.
    Capability(u32, Vec<u32, A>),
    /// A word differs from the word at the same place in the canonical bytes.
    Word {
        /// The number of the word.
        word: u32,
        /// The value of the word in the message.
        is: u64,
        /// The value of the word in the canonical bytes.
        canonical: u64,
        /// The owner of the word in the canonical bytes.
        whose: Whose<A>,
    },
    /// The message begins with its canonical bytes, and goes on after them.
    After {
        /// The number of the first word after the canonical bytes.
        word: u32,
        /// The value of that word.
        is: u64,
    },
}
