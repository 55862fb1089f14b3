//! `Segments`: the segments of a message, written word by word, and calls that make pointers, tag words and streams.

ghost use Rattle.std.specs.Prelude.{◌≡◌, [], length, map, replicate, slice_index_or, IfOk};

use std::alloc::{AllocError, Global};

/// The place of a word: its segment, and its index there.
#[derive(Clone, Copy)]
pub(crate) struct At {
    pub segment: u64,
    pub word: u64,
}

/// The segments of a message.
#[derive(Drop)]
pub(crate) struct Segments {
    segments: Vec<Vec<u64>>,
}

impl Segments {
    /// Returns `count` empty segments.
    pub(crate) fn new(alloc: Global, count: u64) -> Result<Segments, AllocError>
        ensures { IfOk result (λ it. map (λ words. words.items) it.segments.items ≡ replicate count []) }
    {
        let mut segments = Vec::new(alloc);
        for _ in 0..count {
            segments.push(Vec::new(alloc))?;
        }
        Ok(Segments { segments })
    }

    pub(crate) fn count(&self) -> u64
        ensures { result ≡ length self.now.segments.items }
    {
        self.segments.len() as u64
    }

    pub(crate) fn len(&self, segment: u64) -> u64
        ensures { result ≡ length (slice_index_or (map (λ words. words.items) self.now.segments.items) segment []) }
    {
        match self.segments.get(segment as usize) {
            Some(words) => words.len() as u64,
            None => 0,
        }
    }

    /// Appends `word` to `segment`, if the message has that segment.
    pub(crate) fn push(&mut self, segment: u64, word: u64) -> Result<(), AllocError> {
        match self.segments.get_mut(segment as usize) {
            Some(words) => Ok(words.push(word)?),
            None => Ok(()),
        }
    }

    /// Replaces the word at `at`, if there is one, by `word`.
    pub(crate) fn set(&mut self, at: At, word: u64) {
        if let Some(words) = self.segments.get_mut(at.segment as usize) {
            if let Some(place) = words.get_mut(at.word as usize) {
                *place = word;
            }
        }
    }

    /// Returns the message as a stream.
    pub(crate) fn stream(&self, alloc: Global) -> Result<Vec<u8>, AllocError> {
        let count = self.count();
        let mut bytes = Vec::new(alloc);
        push_entry(&mut bytes, count.saturating_sub(1))?;
        for segment in 0..count {
            push_entry(&mut bytes, self.len(segment))?;
        }
        if count % 2 == 0 {
            push_entry(&mut bytes, 0)?;
        }
        for words in &self.segments {
            push_words(&mut bytes, words)?;
        }
        Ok(bytes)
    }
}

// Appends `number` in the four bytes of a table entry.
fn push_entry(bytes: &mut Vec<u8>, number: u64) -> Result<(), AllocError> {
    Ok(bytes.extend_from_slice(&number.to_le_bytes()[..4])?)
}

fn push_words(bytes: &mut Vec<u8>, words: &[u64]) -> Result<(), AllocError> {
    for word in words {
        bytes.extend_from_slice(&word.to_le_bytes())?;
    }
    Ok(())
}

/// Returns the offset field of a pointer at word `pointer` to content that starts at word `start`.
pub(crate) fn offset_to(start: u64, pointer: u64) -> u64 {
    (start.wrapping_sub(pointer).wrapping_sub(1) & 0x3fff_ffff) << 2
}

/// Returns a pointer to a struct, with the offset 0.
pub(crate) fn node(words: u64, slots: u64) -> u64 {
    (words & 0xffff) << 32 | (slots & 0xffff) << 48
}

/// Returns a pointer to a list whose width has the code `code`, with the offset 0.
pub(crate) fn list(code: u64, count: u64) -> u64 {
    (count & 0x1fff_ffff) << 35 | (code & 7) << 32 | 1
}

/// Returns the tag word of a composite list of `count` rows.
pub(crate) fn tag(count: u64, words: u64, slots: u64) -> u64 {
    node(words, slots) | (count & 0x3fff_ffff) << 2
}

/// Returns a far pointer to the landing pad at `pad`, which has one word, or two if `is_double`.
pub(crate) fn far(pad: At, is_double: bool) -> u64 {
    let double = if is_double { 4 } else { 0 };
    (pad.segment & 0xffff_ffff) << 32 | (pad.word & 0x1fff_ffff) << 3 | double | 2
}

/// Returns the pointer to the capability `index`.
pub(crate) fn capability(index: u64) -> u64 {
    (index & 0xffff_ffff) << 32 | 3
}
