//! The call `unpack_some`, which unpacks the complete groups at the front of some bytes.

ghost use Rattle.std.specs.Prelude.{◌≡◌, ◌+◌, ◌≤◌, length, IfOk, OnErr};
ghost use Rattle.capn_pack.specs.UnpackRefusal.{StartsWithin};
ghost use Rattle.capn_pack.specs.WholeGroups.{UnpacksSome, AppendsSome};

use crate::unpack_block::{SLACK, take_block};
use crate::unpack_group::{Stop, take_group};
use std::alloc::{AllocError, Allocator};

/// The length in bytes of the block that words are unpacked into before they are appended, including its slack.
const BLOCK: usize = 4096 + SLACK;

/// The reason why no more groups were unpacked: what follows the unpacked groups.
#[derive(Clone, Copy, Debug, PartialEq, Eq)]
pub enum Next {
    /// The end of the bytes.
    End,
    /// A group that the end of the bytes cuts off. At most 2,049 bytes of the group come before that end. Further bytes
    /// may complete the group.
    Cut,
    /// A group whose head gives more words than are left of the maximum.
    TooLong,
}

/// The size of the groups that were unpacked, and what follows those groups.
#[derive(Clone, Copy, Debug, PartialEq, Eq)]
pub struct Progress {
    /// The number of bytes of the unpacked groups.
    pub bytes: usize,
    /// The number of words of the unpacked groups.
    pub words: u32,
    /// What follows the unpacked groups.
    pub next: Next,
}

/// Returns the progress after `bytes` bytes, if `room` of `max_words` words are left and `next` follows.
fn stopped(bytes: usize, max_words: u32, room: usize, next: Next) -> Progress
    requires { room ≤ max_words }
    ensures bytes { result.bytes ≡ bytes }
    ensures words { result.words + room ≡ max_words }
    ensures next { result.next ≡ next }
{
    Progress {
        bytes,
        words: max_words - room as u32,
        next,
    }
}

/// Appends to `out` the words of the complete groups at the front of `bytes`, as long as there are at most `max_words`
/// words in all. Returns the size of these groups and what follows them. (Our own.)
///
/// Repeated calls unpack a text in pieces under one maximum. Each call gets the bytes that the earlier call did not
/// unpack, and then the next piece. The caller subtracts the unpacked words from the maximum. If a call returns
/// `TooLong`, [`unpack`](crate::unpack) returns `TooLong` for all of the text, at the group after the unpacked groups.
/// If the last call returns `Cut`, [`unpack`](crate::unpack) returns `Cut` at the group after the unpacked groups.
///
/// Takes memory for the words in `out` only. Error: `AllocError` if an allocation for `out` was refused, which can
/// happen only if `bytes` begin with a complete group within the maximum. In that case a prefix of the words was
/// appended.
pub fn unpack_some<A: Allocator>(
    bytes: &[u8],
    max_words: u32,
    out: &mut Vec<u8, A>,
) -> Result<Progress, AllocError>
    // If `result` is `Ok`, the words of the first groups were appended. No complete group that fits into the maximum
    // follows these groups.
    ensures some { IfOk result (λ p. UnpacksSome bytes.now max_words out.old.items out.new.items p.bytes p.words
        p.next) }
    // If an allocation was refused, a prefix of the words within the maximum was appended.
    ensures begun { OnErr result (AppendsSome bytes.now max_words out.old.items out.new.items) }
    // An allocation can be refused only if `bytes` begin with a complete group within the maximum.
    ensures memory { OnErr result (StartsWithin bytes.now max_words) }
{
    let mut block = [0; BLOCK];
    let mut room = max_words as usize;
    let mut at = 0;
    while at < bytes.len() {
        let row = take_block(&bytes[at..], room, &mut block, out)?;
        at += row.bytes;
        room -= row.words;
        if at < bytes.len() {
            match take_group(&bytes[at..], room, out) {
                Ok(taken) => {
                    at += taken.bytes;
                    room -= taken.words;
                }
                Err(Stop::Memory) => return Err(AllocError),
                Err(Stop::Cut) => return Ok(stopped(at, max_words, room, Next::Cut)),
                Err(Stop::TooLong) => return Ok(stopped(at, max_words, room, Next::TooLong)),
            }
        }
    }
    Ok(stopped(at, max_words, room, Next::End))
}
