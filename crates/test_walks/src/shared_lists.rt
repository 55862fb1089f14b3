//! The frame in which each visit takes many reads.

use crate::words::bytes_of;
use std::alloc::{AllocError, Global};

/// A struct of six slots in the first of two segments. Each slot is a far pointer to the same landing pad of two words,
/// which leads to a list of structs without rows. The pad, and the tag of the list, are the second segment.
const SHARED_LISTS: [u64; 12] = [
    0x7_0000_0001,
    3,
    0x6_0000_0000_0000,
    0x1_0000_0006,
    0x1_0000_0006,
    0x1_0000_0006,
    0x1_0000_0006,
    0x1_0000_0006,
    0x1_0000_0006,
    0x1_0000_0012,
    0x7_0000_0001,
    0,
];

/// Returns the bytes of the frame.
pub(crate) fn shared_lists(alloc: Global) -> Result<Vec<u8>, AllocError> {
    bytes_of(alloc, &SHARED_LISTS)
}
