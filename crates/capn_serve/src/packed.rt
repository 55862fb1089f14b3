//! The state of a packed stream after a part of its bytes: an unfinished group, an unfinished message and a limit.

ghost use Rattle.std.specs.Prelude.{◌≡◌, ◌≤◌, [], false};
ghost use Rattle.capn_words.specs.Message.{most_message_words};

use capn_pack::Unpacker;
use capn_stream::Framer;
use std::alloc::Allocator;

/// The state of a packed stream between two slices. A slice is at most 512 bytes of the stream.
#[derive(Drop)]
pub(crate) struct Packed<A: Allocator + Copy> {
    /// The unpacker, which holds an unfinished group.
    pub unpacker: Unpacker,
    /// The framer, which holds an unfinished message.
    pub framer: Framer<A>,
    /// The bytes that a slice unpacks to.
    pub part: Vec<u8, A>,
    /// The number of unpacked bytes that may still be served.
    pub left: u64,
}

/// Returns the state before the first byte of a packed stream. `most` is the greatest number of words of a message. At
/// most `limit` unpacked bytes may be served. The state allocates no memory yet.
pub(crate) fn new_packed<A: Allocator + Copy>(alloc: A, most: u32, limit: u64) -> Packed<A>
    requires { most ≤ most_message_words }
    ensures unpacker { result.unpacker ≡ record { rest = []; offset = 0; failed = false } }
    ensures framer { result.framer ≡ record { rest = []; most = most; failed = false } }
    ensures left { result.left ≡ limit }
{
    Packed {
        unpacker: Unpacker::new(),
        framer: Framer::new(alloc, most),
        part: Vec::new(alloc),
        left: limit,
    }
}
