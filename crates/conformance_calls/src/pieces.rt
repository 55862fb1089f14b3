//! The answers for calls on streams read in chunks, and on readers and writers.

ghost use Rattle.std.specs.Prelude.{◌≤◌};
ghost use Rattle.capn_words.specs.Message.{most_message_words};

use crate::frames::{limit_at, segments_text};
use crate::refusals::told;
use anyhow::{Result, anyhow, bail};
use capn_stream::{FrameFault, Framer, ReadFault, Stored, read_message, write_message};
use capn_words::{MOST_MESSAGE_WORDS, Watched};
use conformance_cases::{Heap, MEMORY, bytes_at, digits_of, number_at, push_told, word_at};
use std::alloc::Global;

/// Returns the line of `message`, which shows the bytes of each segment.
fn message_text(alloc: Global, message: &Stored<&Heap>) -> Result<String> {
    let segments = segments_text(alloc, message)?;
    Ok(format!(in alloc; "message{segments}")?)
}

fn push_message(alloc: Global, message: &Stored<&Heap>, text: &mut String) -> Result<()> {
    let told = message_text(alloc, message)?;
    push_told(text, told.as_str())
}

fn ending_text(alloc: Global, ending: Result<(), FrameFault>) -> Result<String> {
    match ending {
        Ok(()) => Ok(String::from_str(alloc, "Ok")?),
        Err(fault) => told(alloc, fault),
    }
}

/// Returns the answer of a framer that is fed `piece`.
fn fed_text(framer: &mut Framer<&Heap>, alloc: Global, piece: &[u8]) -> Result<String> {
    match framer.feed(piece) {
        Ok(taken) => Ok(format!(in alloc; "{taken}")?),
        Err(fault) => told(alloc, fault),
    }
}

/// Takes the message of `framer` and returns its line, or returns `none` if there is no message.
fn taken_text(framer: &mut Framer<&Heap>, alloc: Global) -> Result<String> {
    match framer.take() {
        Some(message) => message_text(alloc, &message),
        None => Ok(String::from_str(alloc, "none")?),
    }
}

/// Lets `framer` do the step that word `at` of the line names, and returns the answer. The next word holds the bytes to
/// feed.
fn framer_text(
    framer: &mut Framer<&Heap>,
    alloc: Global,
    words: &[&str],
    at: usize,
) -> Result<String> {
    match word_at(words, at)? {
        "feed" => {
            let piece = bytes_at(alloc, words, at.saturating_add(1))?;
            fed_text(framer, alloc, piece.as_slice())
        }
        "take" => taken_text(framer, alloc),
        "finish" => ending_text(alloc, framer.finish()),
        step => bail!("no step {step:?}"),
    }
}

/// Checks that a framer fails at `feed` and `finish`, and has no message, after an allocation was refused.
fn has_to_fail(framer: &mut Framer<&Heap>) -> Result<()> {
    match (framer.feed(&[0]), framer.finish(), framer.take()) {
        (Err(FrameFault::Failed), Err(FrameFault::Failed), None) => Ok(()),
        _ => Err(anyhow!("a framer goes on without memory")),
    }
}

/// Does the step at word `at` and appends its answer to `text`. Returns whether an allocation was refused.
fn framer_step(
    framer: &mut Framer<&Heap>,
    alloc: Global,
    words: &[&str],
    at: usize,
    text: &mut String,
) -> Result<bool> {
    let told = framer_text(framer, alloc, words, at)?;
    push_told(text, told.as_str())?;
    Ok(told.as_str() == MEMORY)
}

/// Returns the answers of `framer` to the steps of the line. A step that has an allocation refused is the last.
fn framer_steps(framer: &mut Framer<&Heap>, alloc: Global, words: &[&str]) -> Result<String> {
    let mut text = String::new(alloc);
    let mut is_piece = false;
    for at in 2..words.len() {
        if is_piece {
            is_piece = false;
            continue;
        }
        if framer_step(framer, alloc, words, at, &mut text)? {
            has_to_fail(framer)?;
            break;
        }
        is_piece = word_at(words, at)? == "feed";
    }
    Ok(text)
}

/// Answers `framer MOST_WORDS STEP ..`, where each step is `feed BYTES`, `take` or `finish`.
pub(crate) fn framer_answer(alloc: Global, heap: &Heap, words: &[&str]) -> Result<String> {
    let mut framer = Framer::new(heap, limit_at(words, 1)?);
    framer_steps(&mut framer, alloc, words)
}

fn rest_of(bytes: &[u8], at: usize) -> &[u8] {
    if at <= bytes.len() { &bytes[at..] } else { &[] }
}

/// Takes the message of `framer`, if it has one, and appends the message's line to `text`.
fn push_taken(framer: &mut Framer<&Heap>, alloc: Global, text: &mut String) -> Result<()> {
    match framer.take() {
        Some(message) => push_message(alloc, &message, text),
        None => Ok(()),
    }
}

/// Feeds `piece`, and appends the line of each message that becomes whole. Returns the first fault, if there is one.
fn feed_all(
    framer: &mut Framer<&Heap>,
    alloc: Global,
    piece: &[u8],
    text: &mut String,
) -> Result<Result<(), FrameFault>> {
    let mut at = 0usize;
    for _ in 0..piece.len() {
        match framer.feed(rest_of(piece, at)) {
            Ok(taken) => at = at.saturating_add(taken),
            Err(fault) => return Ok(Err(fault)),
        }
        push_taken(framer, alloc, text)?;
        if at >= piece.len() {
            break;
        }
    }
    Ok(Ok(()))
}

/// Feeds `bytes`, `size` at a time, and appends the line of each message that becomes whole. Returns the fault of the
/// framer, or the result of its `finish`.
fn feed_pieces(
    framer: &mut Framer<&Heap>,
    alloc: Global,
    bytes: &[u8],
    size: usize,
    text: &mut String,
) -> Result<Result<(), FrameFault>> {
    if size == 0 {
        bail!("pieces of no bytes");
    }
    for piece in bytes.chunks(size) {
        let fed = feed_all(framer, alloc, piece, text)?;
        if fed.is_err() {
            return Ok(fed);
        }
    }
    Ok(framer.finish())
}

/// Returns the lines of the messages that `framer` makes of `bytes`, fed `size` at a time, and then `Ok` or the fault.
fn pieces_text(
    framer: &mut Framer<&Heap>,
    alloc: Global,
    bytes: &[u8],
    size: usize,
) -> Result<String> {
    let mut text = String::new(alloc);
    let ending = feed_pieces(framer, alloc, bytes, size, &mut text)?;
    if ending == Err(FrameFault::Memory) {
        has_to_fail(framer)?;
    }
    let told = ending_text(alloc, ending)?;
    push_told(&mut text, told.as_str())?;
    Ok(text)
}

/// Answers `pieces SIZE MOST_WORDS BYTES` by the messages of `BYTES`, fed `SIZE` at a time, and `Ok` or the fault.
pub(crate) fn pieces_answer(alloc: Global, heap: &Heap, words: &[&str]) -> Result<String> {
    let size = number_at(words, 1)? as usize;
    let limit = limit_at(words, 2)?;
    let bytes = bytes_at(alloc, words, 3)?;
    let mut framer = Framer::new(heap, limit);
    pieces_text(&mut framer, alloc, bytes.as_slice(), size)
}

/// Appends the line of a message that was read, and returns `true`.
fn push_read(alloc: Global, message: &Stored<&Heap>, text: &mut String) -> Result<bool> {
    push_message(alloc, message, text)?;
    Ok(true)
}

/// Reads a message and appends its line. If none is read, appends `Ok` or the fault. Returns whether one was read.
fn read_next(
    reader: &mut Watched<&[u8]>,
    alloc: Global,
    heap: &Heap,
    limit: u32,
    text: &mut String,
) -> Result<bool>
    requires { limit ≤ most_message_words }
{
    if reader.failed() {
        bail!("no input");
    }
    let ending = match read_message(heap, reader, limit) {
        Ok(Some(message)) => return push_read(alloc, &message, text),
        Ok(None) => Ok(()),
        Err(ReadFault::Frame(fault)) => Err(fault),
        Err(ReadFault::Memory) => Err(FrameFault::Memory),
        Err(_) => bail!("no input"),
    };
    let told = ending_text(alloc, ending)?;
    push_told(text, told.as_str())?;
    Ok(false)
}

/// Answers `read MOST_WORDS BYTES` by the messages that are read from `BYTES`, and then `Ok` or the fault.
pub(crate) fn read_answer(alloc: Global, heap: &Heap, words: &[&str]) -> Result<String> {
    let limit = limit_at(words, 1)?;
    let bytes = bytes_at(alloc, words, 2)?;
    let mut reader = Watched::new(bytes.as_slice());
    let mut text = String::new(alloc);
    for _ in 0..=bytes.len() {
        if !read_next(&mut reader, alloc, heap, limit, &mut text)? {
            return Ok(text);
        }
    }
    Err(anyhow!("a reader without end"))
}

/// Returns the bytes that `write_message` writes for `message`, in hexadecimal.
fn written_text(alloc: Global, message: &Stored<&Heap>) -> Result<String> {
    let mut writer = Watched::new(Vec::new(alloc));
    match write_message(&mut writer, message) {
        Ok(()) => digits_of(alloc, writer.into_inner().as_slice()),
        Err(_) => Err(anyhow!("no output")),
    }
}

/// Answers `write BYTES` by the bytes that `write_message` writes for the first message in `BYTES`.
pub(crate) fn write_answer(alloc: Global, heap: &Heap, words: &[&str]) -> Result<String> {
    let bytes = bytes_at(alloc, words, 1)?;
    let mut reader = Watched::new(bytes.as_slice());
    match read_message(heap, &mut reader, MOST_MESSAGE_WORDS) {
        Ok(Some(message)) => written_text(alloc, &message),
        Err(ReadFault::Memory) => Ok(String::from_str(alloc, MEMORY)?),
        _ => Err(anyhow!("no message")),
    }
}
