//! The limits on the size of a message. (Our own.)

/// The greatest number of segments of a message.
pub const MOST_SEGMENTS: u32 = 4096;

/// The greatest number of words that a caller may allow for a framed message.
pub const MOST_MESSAGE_WORDS: u32 = 1 << 28;

/// The greatest number of words of any message, in all its segments together.
pub const MOST_WORDS: u32 = MOST_MESSAGE_WORDS + 1;
