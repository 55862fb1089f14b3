//! `cut_each`: cuts the message of a case at each byte, and compares the answer for each prefix with the right one.

use crate::messages::{canonical_text, paid_text, true_limits_at};
use crate::refusals::told;
use crate::tariff_and_call;
use anyhow::{Result, anyhow, bail};
use capn_canon::{Form, LayoutFault, Tree, layout};
use capn_pack::{UnpackFault, Unpacker, unpack};
use capn_walk::{Limits, walk};
use capn_words::{Bare, MOST_MESSAGE_WORDS, MOST_SEGMENTS};
use conformance_cases::{bytes_at, form_at, word_at};
use std::alloc::Global;

/// Returns the first `len` bytes, or all if there are fewer.
fn start_of(bytes: &[u8], len: usize) -> &[u8] {
    if len <= bytes.len() {
        &bytes[..len]
    } else {
        bytes
    }
}

/// Returns the answer for `tree`: the price `paid` and the layout, or the first capability.
fn tree_text(alloc: Global, paid: u32, tree: &Tree) -> Result<String> {
    match layout(alloc, tree) {
        Ok(laid) => paid_text(alloc, paid, laid.as_slice()),
        Err(LayoutFault::Capability(index)) => Ok(format!(in alloc; "capability {index}")?),
        Err(LayoutFault::Memory) => Err(anyhow!("out of memory")),
    }
}

/// Returns the answer for the bare message `bytes`: that its length is no multiple of 8, or the result of its walk.
fn bare_text(alloc: Global, bytes: &[u8], limits: Limits) -> Result<String> {
    let length = bytes.len();
    let Ok(space) = Bare::new(bytes) else {
        return Ok(format!(in alloc; "bare: NotWhole({length})")?);
    };
    match walk(alloc, &space, limits) {
        Ok(walked) => {
            let text = tree_text(alloc, walked.paid, &walked.tree);
            // One call of `drop` is cheaper for the prover than fields that are dropped one by one.
            drop(walked);
            text
        }
        Err(stopped) => told(alloc, stopped),
    }
}

/// Returns the end of the group that starts at offset `at`, or `None` if the group is cut. A group of zeros has two
/// bytes. A group of raw words has ten bytes, and eight for each further word. Any other group has its tag, and a byte
/// for each bit that is set in the tag.
fn group_end(text: &[u8], at: usize) -> Option<usize> {
    let len = match *text.get(at)? {
        0 => 2,
        0xff => 10 + 8 * *text.get(at.saturating_add(9))? as usize,
        tag => 1 + tag.count_ones() as usize,
    };
    let end = at.saturating_add(len);
    if end <= text.len() { Some(end) } else { None }
}

/// Returns the start of the group in which `text` is cut, or the end of a `text` that is not cut.
fn last_group(text: &[u8]) -> usize {
    let mut at = 0usize;
    for _ in 0..text.len() {
        match group_end(text, at) {
            Some(end) => at = end,
            None => break,
        }
    }
    at
}

/// Tests whether an unpacker that is fed `text` in one call returns what `unpack` returns for the whole groups of
/// `text`. The unpacker and `unpack` must report the start of a cut group, if there is one, and otherwise no cut.
fn is_unpacked(alloc: Global, text: &[u8]) -> bool {
    let at = last_group(text);
    let mut unpacker = Unpacker::new();
    let mut fed = Vec::new(alloc);
    let ending = match unpacker.feed(text, &mut fed) {
        Ok(()) => unpacker.finish(),
        Err(fault) => Err(fault),
    };
    let is_whole = match unpack(alloc, start_of(text, at), MOST_MESSAGE_WORDS) {
        Ok(words) => words.as_slice() == fed.as_slice(),
        Err(_) => false,
    };
    let cut = if at < text.len() {
        Some(at as u64)
    } else {
        None
    };
    is_whole && cut_of(ending) == cut && cut_of(unpack(alloc, text, MOST_MESSAGE_WORDS)) == cut
}

/// Returns the offset at which `answer` says that packed bytes are cut, if it says so.
fn cut_of<T: Drop>(answer: Result<T, UnpackFault>) -> Option<u64> {
    match answer {
        Err(UnpackFault::Cut { at }) => Some(at),
        _ => None,
    }
}

/// Returns the answer for the packed bytes `text`. If the last group is cut, the answer is the start of the group.
/// Otherwise it is the answer for the unpacked stream.
fn packed_text(alloc: Global, text: &[u8], limits: Limits) -> Result<String> {
    if !is_unpacked(alloc, text) {
        bail!("the groups of a beginning are other ones");
    }
    let at = last_group(text);
    if at < text.len() {
        return Ok(format!(in alloc; "packed: Cut at {at}")?);
    }
    match unpack(alloc, text, MOST_MESSAGE_WORDS) {
        Ok(stream) => canonical_text(alloc, Form::Stream, stream.as_slice(), limits),
        Err(_) => Err(anyhow!("no stream")),
    }
}

/// Returns the number in the four bytes at offset `at` of a frame's table, or `None` if `bytes` are too short.
fn entry_at(bytes: &[u8], at: usize) -> Option<u64> {
    let low = *bytes.get(at)? as u64;
    let next = *bytes.get(at.saturating_add(1))? as u64;
    let third = *bytes.get(at.saturating_add(2))? as u64;
    let high = *bytes.get(at.saturating_add(3))? as u64;
    Some(low | next << 8 | third << 16 | high << 24)
}

/// Returns the sum of the `count` segment sizes in the table of a frame, or `None` if `bytes` are too short.
fn sizes_of(bytes: &[u8], count: u64) -> Option<u64> {
    let mut sum = 0u64;
    for segment in 1..=count {
        sum = sum.saturating_add(entry_at(bytes, segment.saturating_mul(4) as usize)?);
    }
    Some(sum)
}

/// The reason why a frame is refused.
#[derive(Clone, Copy)]
enum FrameRefusal {
    Empty,
    Cut,
    TooManySegments(u64),
    TooManyWords(u64),
}

/// Returns the reason why the first frame of a stream is refused, if it is.
fn frame_refusal(bytes: &[u8], limits: Limits) -> Option<FrameRefusal> {
    if bytes.is_empty() {
        return Some(FrameRefusal::Empty);
    }
    let Some(last) = entry_at(bytes, 0) else {
        return Some(FrameRefusal::Cut);
    };
    let count = last.saturating_add(1);
    if count > MOST_SEGMENTS as u64 {
        return Some(FrameRefusal::TooManySegments(count));
    }
    let table = count.saturating_add(2) / 2;
    // Sizes are summed only if all are there, which saves time: each prefix of a long table is tested.
    if (bytes.len() as u64) < count.saturating_add(1).saturating_mul(4) {
        return Some(FrameRefusal::Cut);
    }
    let Some(words) = sizes_of(bytes, count) else {
        return Some(FrameRefusal::Cut);
    };
    if (bytes.len() as u64) < table.saturating_mul(8) {
        return Some(FrameRefusal::Cut);
    }
    if words > limits.message_words() as u64 {
        return Some(FrameRefusal::TooManyWords(words));
    }
    if (bytes.len() as u64) < table.saturating_add(words).saturating_mul(8) {
        return Some(FrameRefusal::Cut);
    }
    None
}

/// Returns the refusal of a frame as a line.
fn refusal_text(alloc: Global, refusal: FrameRefusal) -> Result<String> {
    match refusal {
        FrameRefusal::Empty => Ok(String::from_str(alloc, "frame: Empty")?),
        FrameRefusal::Cut => Ok(String::from_str(alloc, "frame: Cut")?),
        FrameRefusal::TooManySegments(count) => {
            Ok(format!(in alloc; "frame: TooManySegments({count})")?)
        }
        FrameRefusal::TooManyWords(words) => {
            Ok(format!(in alloc; "frame: TooManyWords({words})")?)
        }
    }
}

/// Returns the right answer for `bytes`, a prefix of a message. For bare bytes, a cut group and a refused frame of a
/// stream, the answer is found without `canonicalise`. Otherwise it is the answer of `canonicalise` for the stream.
fn due_text(alloc: Global, form: Form, bytes: &[u8], limits: Limits) -> Result<String> {
    match form {
        Form::Bare => bare_text(alloc, bytes, limits),
        Form::Packed => packed_text(alloc, bytes, limits),
        Form::Stream => match frame_refusal(bytes, limits) {
            Some(refusal) => refusal_text(alloc, refusal),
            None => canonical_text(alloc, form, bytes, limits),
        },
    }
}

/// Checks that `canonicalise` gives the right answer for `start`, a prefix of a message.
fn cut_once(alloc: Global, form: Form, start: &[u8], limits: Limits) -> Result<()> {
    let told = canonical_text(alloc, form, start, limits)?;
    let due = due_text(alloc, form, start, limits)?;
    if told.as_str() == due.as_str() {
        Ok(())
    } else {
        let len = start.len();
        Err(anyhow!("cut at {len}: {told}"))
    }
}

/// If the case calls `canonicalise`, cuts its message at each byte and checks the answer for each prefix. A case whose
/// packed bytes are refused as too long is left out.
pub(crate) fn cut_each(alloc: Global, words: &[&str], answer: &str) -> Result<()> {
    let (tariff, words) = tariff_and_call(words);
    if word_at(words, 0)? != "canonicalise" || answer.starts_with("packed: TooLong") {
        return Ok(());
    }
    let form = form_at(words, 1)?;
    let limits = true_limits_at(words, 2, tariff)?;
    let bytes = bytes_at(alloc, words, 5)?;
    for len in 0..bytes.len() {
        cut_once(alloc, form, start_of(bytes.as_slice(), len), limits)?;
    }
    Ok(())
}
