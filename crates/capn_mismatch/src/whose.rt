//! The owner of a word of canonical bytes.

use std::alloc::{Allocator, Global};

/// The owner of a word of canonical bytes, given by the path from the root to a slot. (Our own.)
///
/// The path has the form that [`path_of_visit`](capn_path::path_of_visit) returns. The path to the root's slot has no
/// numbers.
#[derive(Debug, Drop)]
pub enum Whose<A: Allocator = Global> {
    /// The word is the pointer of the slot to which the path leads.
    Pointer(Vec<u32, A>),
    /// The word is the tag of the list of structs that the slot names.
    Tag(Vec<u32, A>),
    /// The word is the last word of the list of bits, bytes, `u16` or `u32` that the slot names.
    LastWord(Vec<u32, A>),
}
