//! `Subject`: the messages that calls with refused allocations are tested on, and the judgement of their outcomes.

use crate::words::bytes_of;
use capn_pack::pack;
use capn_stream::{Framed, first, frame};
use capn_walk::{Limits, Walked, walk};
use capn_words::Space;
use std::alloc::{AllocError, Global};
use std::test::Fail;

/// The limit on the words of a message.
pub(crate) const MOST: u32 = 268_435_456;

/// The outcome of a call: a right result, a wrong one, or a refused allocation.
#[derive(Clone, Copy)]
pub(crate) enum Answer {
    Right,
    Wrong,
    Memory,
}

/// The inputs of the calls: a message, as a stream and packed, its walk, and a chain of 70 structs. `respelt` is the
/// chain with another offset in its last pointer, so that it is accepted but not canonical.
#[derive(Drop)]
pub(crate) struct Subject<'a> {
    pub alloc: Global,
    pub stream: &'a [u8],
    pub message: Framed<'a>,
    pub packed: Vec<u8>,
    pub walked: Walked,
    pub chain: Vec<u8>,
    pub respelt: Vec<u8>,
}

/// Returns the default limits with a depth of `depth` objects.
pub(crate) fn limits(depth: u32) -> Limits {
    Limits::new(8_388_608, 8_388_608, depth).unwrap_or(Limits::usual())
}

/// The canonical pointer to an empty struct.
const EMPTY: u64 = 0xffff_fffc;

/// Returns a chain of `levels` structs of two slots, each in the first slot of the one before. The second slot of the
/// last struct is `last`. The slots that remain point to empty structs.
fn chain_to(alloc: Global, levels: u32, last: u64) -> Result<Vec<u8>, AllocError> {
    let mut words = Vec::new(alloc);
    words.push(0x2_0000_0000_0000)?;
    for _ in 1..levels {
        words.extend_from_slice(&[0x2_0000_0000_0004, EMPTY])?;
    }
    words.extend_from_slice(&[EMPTY, last])?;
    bytes_of(alloc, words.as_slice())
}

/// Returns the canonical bytes of a chain of `levels` structs.
pub(crate) fn chain(alloc: Global, levels: u32) -> Result<Vec<u8>, AllocError> {
    chain_to(alloc, levels, EMPTY)
}

pub(crate) fn packed_of(alloc: Global, stream: &[u8]) -> Result<Vec<u8>, Fail> {
    match pack(alloc, stream) {
        Ok(packed) => Ok(packed),
        Err(_) => Err(Fail::new("no text")),
    }
}

fn message_of(alloc: Global, stream: &[u8]) -> Result<Framed<'_>, Fail> {
    match first(alloc, stream, MOST) {
        Ok((message, _)) => Ok(message),
        Err(_) => Err(Fail::new("no stream")),
    }
}

fn walked_of<S: Space>(alloc: Global, message: &S) -> Result<Walked, Fail> {
    match walk(alloc, message, limits(256)) {
        Ok(walked) => Ok(walked),
        Err(_) => Err(Fail::new("no message")),
    }
}

/// Returns the inputs of the calls for `stream`.
pub(crate) fn subject_of(alloc: Global, stream: &[u8]) -> Result<Subject<'_>, Fail> {
    let chain = chain(alloc, 70)?;
    let respelt = chain_to(alloc, 70, 0xffff_fff8)?;
    let packed = packed_of(alloc, stream)?;
    let message = message_of(alloc, stream)?;
    let walked = walked_of(alloc, &message)?;
    Ok(Subject {
        alloc,
        stream,
        message,
        packed,
        walked,
        chain,
        respelt,
    })
}

/// Returns `Right` if `is_right`, and `Wrong` otherwise.
pub(crate) fn judged(is_right: bool) -> Answer {
    if is_right {
        Answer::Right
    } else {
        Answer::Wrong
    }
}

/// Returns `Memory` if `is_right`, and `Wrong` otherwise: for a call that had an allocation refused.
pub(crate) fn wanting(is_right: bool) -> Answer {
    if is_right {
        Answer::Memory
    } else {
        Answer::Wrong
    }
}

/// Judges `message`: it is right if it is the message of the stream.
pub(crate) fn judged_message<S: Space>(of: &Subject, message: &S) -> Answer {
    match frame(of.alloc, message) {
        Ok(text) => judged(text.as_slice() == of.stream),
        Err(_) => Answer::Wrong,
    }
}
