//! The capacity that is reserved in advance for a long text or for many words, so that the bytes are seldom moved.
ghost use Rattle.std.specs.Prelude.{◌≤◌, ◌+◌, ◌*◌, max, length};

use std::alloc::Allocator;

/// The limit of the estimate in [`text_room`], as a multiple of the text's length.
const TIMES: usize = 64;

/// Returns the number of bytes to reserve in `out` for `count` more bytes of text. The text and these bytes pack the
/// first `at` of `all` bytes. If `out` has capacity for `count` more bytes, returns `count`. Otherwise returns `count`
/// plus an estimate, as if the bytes after `at` packed like the bytes before `at`. The estimate is at most [`TIMES`]
/// times the length of the text with the `count` bytes.
#[inline(always)]
pub(crate) fn text_room<A: Allocator>(
    out: &Vec<u8, A>,
    count: usize,
    at: usize,
    all: usize,
) -> usize
    ensures enough { count ≤ result }
    ensures within { result ≤ count + 64 * (length out.now.items + count) }
{
    if count <= out.capacity() - out.len() {
        return count;
    }
    let text = out.len().saturating_add(count);
    let times = all.saturating_sub(at).div_ceil(at.max(8)).min(TIMES);
    count.saturating_add(text.saturating_mul(times))
}

/// Returns the number of bytes to reserve in `out` for `count` more bytes, which are words of the first groups of
/// `rest`. If `out` has capacity for `count` more bytes, returns `count`. Otherwise returns at most twice the length of
/// `rest` and at most the bytes of `room` words, but at least `count`.
#[inline(always)]
pub(crate) fn words_room<A: Allocator>(
    out: &Vec<u8, A>,
    count: usize,
    rest: &[u8],
    room: usize,
) -> usize
    ensures enough { count ≤ result }
    ensures twice { result ≤ max count (2 * length rest.now) }
    ensures within { result ≤ max count (8 * room) }
{
    if count <= out.capacity() - out.len() {
        return count;
    }
    count.max(8 * (rest.len() / 4).min(room).min(1 << 40))
}
