//! The greatest number of bytes of one read.

/// The greatest number of bytes that one call of a reader may return.
pub const CHUNK: u64 = 65_536;
