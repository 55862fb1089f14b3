//! The position and the size of a message.

ghost use Rattle.std.specs.Prelude.{◌≡◌};
ghost use Rattle.capn_archive.specs.MessageHead as spec;

use capn_serve::Position;
use capn_words::{Space, total_words};

/// The position and the size of a message.
#[derive(Clone, Copy, Debug, PartialEq, Eq)]
pub struct MessageHead {
    /// The position of the message.
    pub at: Position,
    /// The number of bytes of the message's frame: table, padding and contents.
    pub bytes: u64,
    /// The number of segments.
    pub segments: u32,
    /// The number of words of all segments together.
    pub words: u32,
}

/// Returns the head of the message at `at`, with the length of its `frame` and the size of its segments.
pub(crate) fn head_of<S: Space>(at: Position, frame: &[u8], message: &S) -> MessageHead
    ensures { result ≡ spec.head_of at frame.now (S.message message.now) }
{
    MessageHead {
        at,
        bytes: frame.len() as u64,
        segments: message.segments(),
        words: total_words(message),
    }
}
