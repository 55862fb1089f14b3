//! A stream of small messages.

use crate::shapes::random::{Content, Random};
use std::alloc::{AllocError, Global};

/// The number of bytes of each message.
pub(crate) const BYTES: u32 = 32;

/// The table of one segment of three words, and the pointer to a struct of two words.
const HEAD: [u8; 16] = [0, 0, 0, 0, 3, 0, 0, 0, 0, 0, 0, 0, 2, 0, 0, 0];

/// Returns a stream of messages of one struct with two data words.
pub(crate) fn stream(alloc: Global, bytes: u32) -> Result<Vec<u8>, AllocError> {
    let mut stream = Vec::new(alloc);
    let mut random = Random::new();
    for _ in 0..bytes / BYTES {
        stream.extend_from_slice(&HEAD)?;
        stream.extend_from_slice(&random.word(Content::Numbers).to_le_bytes())?;
        stream.extend_from_slice(&random.word(Content::Numbers).to_le_bytes())?;
    }
    Ok(stream)
}
