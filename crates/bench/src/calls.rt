//! The measured calls, and the calls that make their inputs.

use anyhow::{Result, anyhow};
use capn_canon::{Form, canonical_of, is_canonical, same_messages};
use capn_commands::{Command, run};
use capn_pack::{pack, unpack};
use capn_stream::{Framed, Framer, first};
use capn_value::Tree;
use capn_walk::{Entry, Kind, Limits, Walked, index, index_into, survey, walk};
use capn_words::{MOST_MESSAGE_WORDS, Space, Watched};
use sha2::{Digest, Sha256};
use std::alloc::Global;

/// The number of bytes of a chunk that a framer is fed.
const PIECE: usize = 65_536;

pub(crate) fn message(alloc: Global, framed: &[u8]) -> Result<Framed<'_>> {
    match first(alloc, framed, MOST_MESSAGE_WORDS) {
        Ok((message, _)) => Ok(message),
        Err(_) => Err(anyhow!("no frame")),
    }
}

/// Returns the tree of a message, with the price of its walk.
fn walk_of<S: Space>(alloc: Global, space: &S) -> Result<Walked> {
    match walk(alloc, space, Limits::usual()) {
        Ok(walked) => Ok(walked),
        Err(_) => Err(anyhow!("not walked")),
    }
}

/// Returns the number of words that the walk of a framed message pays. The tree of the walk is freed.
pub(crate) fn walked(alloc: Global, framed: &[u8]) -> Result<u32> {
    let message = message(alloc, framed)?;
    let walked = walk_of(alloc, &message)?;
    let paid = walked.paid;
    // One call of `drop` is cheaper for the prover than fields that are dropped one by one.
    drop(walked);
    Ok(paid)
}

pub(crate) fn tree_of(alloc: Global, framed: &[u8]) -> Result<Tree> {
    let message = message(alloc, framed)?;
    Ok(walk_of(alloc, &message)?.tree)
}

pub(crate) fn canonical(alloc: Global, framed: &[u8]) -> Result<Vec<u8>> {
    match canonical_of(alloc, &message(alloc, framed)?, Limits::usual()) {
        Ok(canonical) => Ok(canonical.bytes),
        Err(_) => Err(anyhow!("no canonical bytes")),
    }
}

/// Returns the canonical bytes of a framed message, and a word after them that belongs to no object.
pub(crate) fn longer(alloc: Global, framed: &[u8]) -> Result<Vec<u8>> {
    let mut bytes = canonical(alloc, framed)?;
    bytes.extend_from_slice(&[0; 8])?;
    Ok(bytes)
}

/// Tests whether bytes are canonical.
pub(crate) fn test(alloc: Global, bytes: &[u8]) -> Result<bool> {
    is_canonical(alloc, bytes, Limits::usual()).map_err(|_| anyhow!("not read"))
}

/// Returns the packed bytes of `words`.
pub(crate) fn packed(alloc: Global, words: &[u8]) -> Result<Vec<u8>> {
    pack(alloc, words).map_err(|_| anyhow!("not packed"))
}

/// Returns the words that the packed bytes `text` stand for.
pub(crate) fn unpacked(alloc: Global, text: &[u8]) -> Result<Vec<u8>> {
    unpack(alloc, text, MOST_MESSAGE_WORDS).map_err(|_| anyhow!("not unpacked"))
}

/// Returns the number of words that the survey of a framed message pays.
pub(crate) fn paid(alloc: Global, framed: &[u8]) -> Result<u32> {
    match survey(alloc, &message(alloc, framed)?, Limits::usual()) {
        Ok(surveyed) => Ok(surveyed.paid),
        Err(_) => Err(anyhow!("not surveyed")),
    }
}

/// Returns a vector of as many index entries as a framed message has words.
fn room_of(alloc: Global, framed: &[u8]) -> Result<Vec<Entry>> {
    let words = framed.len() / 8;
    let mut room = Vec::with_capacity(alloc, words)?;
    for _ in 0..words {
        room.push(Entry::nil())?;
    }
    Ok(room)
}

/// Returns the length of the vector that `room_of` makes.
pub(crate) fn roomed(alloc: Global, framed: &[u8]) -> Result<usize> {
    Ok(room_of(alloc, framed)?.len())
}

/// Returns the number of index entries of a framed message.
pub(crate) fn indexed(alloc: Global, framed: &[u8]) -> Result<u32> {
    let message = message(alloc, framed)?;
    let mut room = room_of(alloc, framed)?;
    match index_into(&message, Limits::usual(), &mut room) {
        Ok(indexed) => Ok(indexed.visits),
        Err(_) => Err(anyhow!("not indexed")),
    }
}

/// Feeds the message in `framed` to `framer` in chunks. Returns the number of words of the message.
fn fed(framer: &mut Framer, framed: &[u8]) -> Result<u32> {
    for piece in framed.chunks(PIECE) {
        match framer.feed(piece) {
            Ok(taken) => if taken < piece.len() {
                return Err(anyhow!("a message ended early"));
            },
            Err(_) => return Err(anyhow!("not fed")),
        }
    }
    match framer.take() {
        Some(message) => Ok(words_of(&message)),
        None => Err(anyhow!("no message")),
    }
}

/// Reads the message in `framed` in chunks with a new framer. Returns the number of words of the message.
pub(crate) fn received(alloc: Global, framed: &[u8]) -> Result<u32> {
    let mut framer = Framer::new(alloc, MOST_MESSAGE_WORDS);
    fed(&mut framer, framed)
}

pub(crate) fn copied(alloc: Global, bytes: &[u8]) -> Result<Vec<u8>> {
    Ok(Vec::from_slice(alloc, bytes)?)
}

pub(crate) fn segments_of(alloc: Global, framed: &[u8]) -> Result<u32> {
    Ok(message(alloc, framed)?.segments())
}

/// Returns 1 if `bytes` are canonical, and otherwise 0.
pub(crate) fn told(alloc: Global, bytes: &[u8]) -> Result<u32> {
    Ok(u32::from(test(alloc, bytes)?))
}

/// Returns the first byte of the digest of a message's canonical bytes.
pub(crate) fn first_byte(alloc: Global, framed: &[u8]) -> Result<u32> {
    Ok(u32::from(digest(alloc, framed)?[0]))
}

/// Returns the number of words of all segments of a message.
pub(crate) fn words_of<S: Space>(message: &S) -> u32 {
    let mut words = 0u32;
    for segment in 0..message.segments() {
        words = words.saturating_add(message.words(segment).unwrap_or(0));
    }
    words
}

/// Returns the output of the program for `check` of `stream`.
pub(crate) fn checked(alloc: Global, stream: &[u8]) -> Result<Vec<u8>> {
    let mut reader = Watched::new(stream);
    let mut writer = Watched::new(Vec::new(alloc));
    let command = Command::Check(Form::Stream, Limits::usual());
    match run(alloc, command, &mut reader, &mut writer) {
        Ok(()) => Ok(writer.into_inner()),
        Err(_) => Err(anyhow!("not checked")),
    }
}

/// Returns the SHA-256 of a message's canonical bytes.
pub(crate) fn digest(alloc: Global, framed: &[u8]) -> Result<[u8; 32]> {
    Ok(Sha256::digest(canonical(alloc, framed)?.as_slice()))
}

/// Tests whether the content of an entry begins with a data word, which is neither a pointer nor a tag.
fn is_data(entry: &Entry) -> bool {
    match entry.kind {
        Kind::Node => entry.words != 0,
        Kind::Bits | Kind::Bytes | Kind::Pairs | Kind::Quads | Kind::Octs => entry.count != 0,
        Kind::Nil | Kind::Voids | Kind::Links | Kind::Rows | Kind::Cap => false,
    }
}

/// Returns the number of bytes of a message from the content of an entry to the end of the last segment.
fn bytes_from<S: Space>(message: &S, entry: &Entry) -> usize {
    let mut words = 0u32;
    for segment in entry.segment..message.segments() {
        words = words.saturating_add(message.words(segment).unwrap_or(0));
    }
    (words.saturating_sub(entry.start) as usize).saturating_mul(8)
}

/// Returns the place of the first data word of a framed message in preorder, in bytes from the end.
fn place_of_data(alloc: Global, framed: &[u8]) -> Result<usize> {
    let message = message(alloc, framed)?;
    match index(alloc, &message, Limits::usual()) {
        Ok(index) => match index.entries.iter().find(|entry| is_data(entry)) {
            Some(entry) => Ok(bytes_from(&message, entry)),
            None => Err(anyhow!("no data word")),
        },
        Err(_) => Err(anyhow!("not indexed")),
    }
}

/// Returns a framed message with one changed bit in its first data word, so that it is accepted as the message is, but
/// has another value.
pub(crate) fn changed(alloc: Global, framed: &[u8]) -> Result<Vec<u8>> {
    let place = framed.len().saturating_sub(place_of_data(alloc, framed)?);
    let mut bytes = copied(alloc, framed)?;
    match bytes.get_mut(place) {
        Some(byte) => {
            *byte ^= 1;
            Ok(bytes)
        }
        None => Err(anyhow!("no such byte")),
    }
}

/// Returns 1 if two framed messages have the same value, and otherwise 0.
pub(crate) fn compared(alloc: Global, one: &[u8], other: &[u8]) -> Result<u32> {
    match same_messages(
        &message(alloc, one)?,
        &message(alloc, other)?,
        Limits::usual(),
    ) {
        Ok(same) => Ok(u32::from(same)),
        Err(_) => Err(anyhow!("not compared")),
    }
}
