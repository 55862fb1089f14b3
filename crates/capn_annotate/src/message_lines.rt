//! The lines of a message, which are made and added to the output one by one.

ghost use Rattle.std.specs.Prelude.{◌≡◌, ◌≤◌, ◌<◌, ◌+◌, ◌^◌, false, length};
ghost use Rattle.capn_words.specs.Message.{IsMessage, segment_at, total};
ghost use Rattle.capn_words.specs.Watched.{inner_of, has_failed};
ghost use Rattle.capn_cover.specs.Numbers.{CountsBefore};
ghost use Rattle.capn_lines.specs.Lines.{segment_lines};
ghost use Rattle.capn_serve.specs.Outgoing.{outgoing};
ghost use Rattle.capn_annotate.specs.LineTexts as spec;
ghost use Rattle.capn_annotate.specs.MessageLines.{lines_text, message_lines_text};
ghost use Rattle.capn_annotate.specs.inner.Adding.{AddsText};

use crate::message_line::line_text;
use capn_cover::Covered;
use capn_lines::{Line, line_at};
use capn_serve::{ServeFault, add_bytes};
use capn_target::segment_length;
use capn_words::{Place, Space, Watched};
use std::alloc::Allocator;
use std::io::Write;

/// Adds the text of `line` to the output.
fn add_line<S: Space, W: Write, A: Allocator + Copy>(
    alloc: A,
    space: &S,
    before: &[u32],
    words: &[Covered],
    start: u128,
    levels: u32,
    line: &Line,
    text: &mut Vec<u8, A>,
    writer: &mut Watched<W>,
) -> Result<(), ServeFault>
    requires message { IsMessage (S.message space.now) }
    requires counts { CountsBefore (S.message space.now) before.now }
    requires start { start < 2 ^ 66 }
    requires some { 0 < line.now.words }
    requires within { line.now.place.word + line.now.words
        ≤ length (segment_at (S.message space.now) line.now.place.segment) }
    requires fine { has_failed writer.old ≡ false }
    ensures { AddsText (spec.line_text (S.message space.now) words.now start levels line.now)
        (outgoing (W.contents (inner_of writer.old)) text.old.items)
        (outgoing (W.contents (inner_of writer.new)) text.new.items) (has_failed writer.new) result }
{
    let bytes = line_text(alloc, space, before, words, start, levels, line)?;
    add_bytes(&bytes, text, writer)
}

/// Adds the lines of `segment` to the output, one by one.
fn add_segment<S: Space, W: Write, A: Allocator + Copy>(
    alloc: A,
    space: &S,
    before: &[u32],
    words: &[Covered],
    start: u128,
    levels: u32,
    segment: u32,
    text: &mut Vec<u8, A>,
    writer: &mut Watched<W>,
) -> Result<(), ServeFault>
    requires message { IsMessage (S.message space.now) }
    requires counts { CountsBefore (S.message space.now) before.now }
    requires each { length words.now ≡ total (S.message space.now) }
    requires start { start < 2 ^ 66 }
    requires fine { has_failed writer.old ≡ false }
    ensures { AddsText (lines_text (S.message space.now) words.now start levels
        (segment_lines (S.message space.now) words.now segment))
        (outgoing (W.contents (inner_of writer.old)) text.old.items)
        (outgoing (W.contents (inner_of writer.new)) text.new.items) (has_failed writer.new) result }
{
    let count = segment_length(space, segment);
    let mut word = 0;
    while word < count {
        let line = line_at(space, before, words, Place { segment, word });
        add_line(
            alloc, space, before, words, start, levels, &line, text, writer,
        )?;
        word += line.words;
    }
    Ok(())
}

/// Adds the lines of the message `space` to the output, segment by segment. `words` has what the visits make of each
/// word, and element `s` of `before` is the number of words before segment `s`. The first word lies at the byte `start`
/// of the stream, and no slot is more than `levels` objects deep.
pub fn add_lines<S: Space, W: Write, A: Allocator + Copy>(
    alloc: A,
    space: &S,
    before: &[u32],
    words: &[Covered],
    start: u128,
    levels: u32,
    text: &mut Vec<u8, A>,
    writer: &mut Watched<W>,
) -> Result<(), ServeFault>
    requires message { IsMessage (S.message space.now) }
    requires counts { CountsBefore (S.message space.now) before.now }
    requires each { length words.now ≡ total (S.message space.now) }
    requires start { start < 2 ^ 66 }
    requires fine { has_failed writer.old ≡ false }
    ensures { AddsText (message_lines_text (S.message space.now) words.now start levels)
        (outgoing (W.contents (inner_of writer.old)) text.old.items)
        (outgoing (W.contents (inner_of writer.new)) text.new.items) (has_failed writer.new) result }
{
    for segment in 0..space.segments() {
        add_segment(
            alloc, space, before, words, start, levels, segment, text, writer,
        )?;
    }
    Ok(())
}
