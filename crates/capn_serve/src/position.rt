//! The position of a message in a stream.

ghost use Rattle.std.specs.Prelude.{◌≡◌, ◌+◌};

/// The position of a message in a stream. (Our own.)
///
/// The offset counts the bytes from the start of the stream to the segment table of the message. In a packed stream the
/// offset counts unpacked bytes. In a bare input the index and the offset are 0.
#[derive(Clone, Copy, Debug, PartialEq, Eq)]
pub struct Position {
    /// The number of the message, counted from 0.
    pub index: u64,
    /// The number of bytes before the message.
    pub offset: u64,
}

/// Returns the number, counted from 1, of the message that follows `index` other messages.
pub fn number_of(index: u64) -> u128
    ensures { result ≡ index + 1 }
{
    u128::from(index) + 1
}
