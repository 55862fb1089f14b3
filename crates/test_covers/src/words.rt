//! `bytes_of`: the bytes of words.

use std::alloc::{AllocError, Global};

/// Returns the bytes of `words`, one after the other.
pub(crate) fn bytes_of(alloc: Global, words: &[u64]) -> Result<Vec<u8>, AllocError> {
    let mut bytes = Vec::new(alloc);
    for word in words {
        bytes.extend_from_slice(&word.to_le_bytes())?;
    }
    Ok(bytes)
}
