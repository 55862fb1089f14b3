//! A message with its lines and its counts.

use capn_cover::{cover, words_before};
use capn_lines::{Counts, Line, ListPart, count_words, line_at, list_part};
use capn_stream::first;
use capn_walk::Limits;
use capn_words::{Place, Space};
use std::alloc::{AllocError, Global};
use std::test::Fail;

/// The lines of a message, what they have of lists, and the counts of its words.
#[derive(Debug, Drop)]
pub(crate) struct Annotated {
    /// The lines, in order.
    pub(crate) lines: Vec<Line>,
    /// For each line, what it has of its list.
    pub(crate) parts: Vec<ListPart>,
    /// The counts of the words.
    pub(crate) counts: Counts,
}

/// Returns the lines and the counts of the message that `words` begin with, after its segment table.
pub(crate) fn annotate(alloc: Global, words: &[u64]) -> Result<Annotated, Fail> {
    let bytes = bytes_of(alloc, words)?;
    let Ok((framed, _)) = first(alloc, bytes.as_slice(), Limits::usual().message_words()) else {
        return Err(Fail::new("no message"));
    };
    let Ok(covered) = cover(alloc, &framed, Limits::usual()) else {
        return Err(Fail::new("refused"));
    };
    let before = words_before(alloc, &framed)?;
    let mut lines = Vec::new(alloc);
    let mut parts = Vec::new(alloc);
    for segment in 0..framed.segments() {
        let count = framed.words(segment).unwrap_or(0);
        let mut word = 0;
        'lines: while word < count {
            let line = line_at(&framed, &before, &covered, Place { segment, word });
            lines.push(line)?;
            parts.push(list_part(&framed, &before, &line))?;
            word += line.words;
        }
    }
    Ok(Annotated {
        lines,
        parts,
        counts: count_words(&framed, &before, &covered),
    })
}

/// Returns the bytes of `words`, one after the other.
fn bytes_of(alloc: Global, words: &[u64]) -> Result<Vec<u8>, AllocError> {
    let mut bytes = Vec::new(alloc);
    for word in words {
        bytes.extend_from_slice(&word.to_le_bytes())?;
    }
    Ok(bytes)
}
