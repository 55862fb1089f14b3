//! The text of one message, which is added to the output.

ghost use Rattle.std.specs.Prelude.{◌≡◌, ◌≤◌, ◌<◌, ◌+◌, ◌*◌, ◌^◌, false, length, IfOk};
ghost use Rattle.capn_words.specs.Message.{IsMessage, total};
ghost use Rattle.capn_words.specs.Watched.{inner_of, has_failed};
ghost use Rattle.capn_walk.specs.Surveyed.{IsSurvey};
ghost use Rattle.capn_cover.specs.Cover.{IsCover};
ghost use Rattle.capn_cover.specs.Numbers.{CountsBefore};
ghost use Rattle.capn_serve.specs.Outgoing.{outgoing};
ghost use Rattle.capn_annotate.specs.Annotation as spec;
ghost use Rattle.capn_annotate.specs.Summary as ends;
ghost use Rattle.capn_annotate.specs.Table as tables;
ghost use Rattle.capn_annotate.specs.inner.Adding.{AddsText, AddsAnnotation};

use crate::annotate_order::AnnotateOrder;
use crate::canonical_words::canonical_words;
use crate::message_lines::add_lines;
use crate::summary::{Summary, end_line, summary_line};
use crate::table_line::table_line;
use capn_cover::{Covered, words_before};
use capn_lines::count_words;
use capn_serve::{Position, ServeFault, add_bytes, table_words};
use capn_walk::Surveyed;
use capn_words::{Space, Watched, total_words};
use std::alloc::Allocator;
use std::io::Write;

/// Adds the line of the table of `message` to the output.
fn add_table<S: Space, W: Write, A: Allocator + Copy>(
    alloc: A,
    message: &S,
    frame: &[u8],
    offset: u64,
    table: u32,
    text: &mut Vec<u8, A>,
    writer: &mut Watched<W>,
) -> Result<(), ServeFault>
    requires table { table < 2 ^ 16 }
    requires fine { has_failed writer.old ≡ false }
    ensures { AddsText (tables.table_text (S.message message.now) frame.now offset table)
        (outgoing (W.contents (inner_of writer.old)) text.old.items)
        (outgoing (W.contents (inner_of writer.new)) text.new.items) (has_failed writer.new) result }
{
    let line = table_line(alloc, message, frame, offset, table)?;
    add_bytes(line.as_bytes(), text, writer)
}

/// Adds the line of the table of `message` to the output, or nothing if the table has no words.
fn add_head<S: Space, W: Write, A: Allocator + Copy>(
    alloc: A,
    message: &S,
    frame: &[u8],
    offset: u64,
    table: u32,
    text: &mut Vec<u8, A>,
    writer: &mut Watched<W>,
) -> Result<(), ServeFault>
    requires table { table < 2 ^ 16 }
    requires fine { has_failed writer.old ≡ false }
    ensures { AddsText (spec.head_text (S.message message.now) frame.now offset table)
        (outgoing (W.contents (inner_of writer.old)) text.old.items)
        (outgoing (W.contents (inner_of writer.new)) text.new.items) (has_failed writer.new) result }
{
    if table == 0 {
        return Ok(());
    }
    add_table(alloc, message, frame, offset, table, text, writer)
}

/// Adds the last line of a message to the output, which ends before the byte `byte` of the stream.
fn add_end<W: Write, A: Allocator + Copy>(
    alloc: A,
    byte: u128,
    summary: Summary,
    text: &mut Vec<u8, A>,
    writer: &mut Watched<W>,
) -> Result<(), ServeFault>
    requires fine { has_failed writer.old ≡ false }
    ensures { AddsText (ends.end_text byte summary)
        (outgoing (W.contents (inner_of writer.old)) text.old.items)
        (outgoing (W.contents (inner_of writer.new)) text.new.items) (has_failed writer.new) result }
{
    let line = end_line(alloc, byte, summary)?;
    add_bytes(line.as_bytes(), text, writer)
}

/// Adds the summary of a message to the output.
fn add_summary<W: Write, A: Allocator + Copy>(
    alloc: A,
    summary: Summary,
    text: &mut Vec<u8, A>,
    writer: &mut Watched<W>,
) -> Result<(), ServeFault>
    requires fine { has_failed writer.old ≡ false }
    ensures { AddsText (ends.summary_text summary)
        (outgoing (W.contents (inner_of writer.old)) text.old.items)
        (outgoing (W.contents (inner_of writer.new)) text.new.items) (has_failed writer.new) result }
{
    let line = summary_line(alloc, summary)?;
    add_bytes(line.as_bytes(), text, writer)
}

/// Returns the byte of the stream at which the first word of a message lies. Its table has `table` words, and begins at
/// the byte `offset`.
fn first_byte(offset: u64, table: u32) -> u128
    requires table { table < 2 ^ 16 }
    ensures is { result ≡ spec.first_byte offset table }
    ensures small { result < 2 ^ 65 }
{
    u128::from(offset) + 8 * u128::from(table)
}

/// Returns the byte of the stream behind `message`, whose first word lies at the byte `start`.
fn byte_after<S: Space>(message: &S, start: u128) -> u128
    requires message { IsMessage (S.message message.now) }
    requires start { start < 2 ^ 66 }
    ensures { result ≡ start + 8 * total (S.message message.now) }
{
    start + 8 * u128::from(total_words(message))
}

/// Adds the lines of the segments of `message` and the last line to the output. The first word lies at the byte `start`
/// of the stream.
fn add_body<S: Space, W: Write, A: Allocator + Copy>(
    alloc: A,
    message: &S,
    before: &[u32],
    words: &[Covered],
    start: u128,
    levels: u32,
    summary: Summary,
    text: &mut Vec<u8, A>,
    writer: &mut Watched<W>,
) -> Result<(), ServeFault>
    requires message { IsMessage (S.message message.now) }
    requires counts { CountsBefore (S.message message.now) before.now }
    requires each { length words.now ≡ total (S.message message.now) }
    requires start { start < 2 ^ 66 }
    requires fine { has_failed writer.old ≡ false }
    ensures { AddsText (spec.body_text (S.message message.now) words.now start levels summary)
        (outgoing (W.contents (inner_of writer.old)) text.old.items)
        (outgoing (W.contents (inner_of writer.new)) text.new.items) (has_failed writer.new) result }
{
    add_lines(alloc, message, before, words, start, levels, text, writer)?;
    add_end(alloc, byte_after(message, start), summary, text, writer)
}

/// Adds all lines of `message` to the output: the table's, those of its segments and the last line. The table has
/// `table` words.
fn add_map<S: Space, W: Write, A: Allocator + Copy>(
    alloc: A,
    frame: &[u8],
    message: &S,
    before: &[u32],
    words: &[Covered],
    table: u32,
    levels: u32,
    summary: Summary,
    text: &mut Vec<u8, A>,
    writer: &mut Watched<W>,
) -> Result<(), ServeFault>
    requires message { IsMessage (S.message message.now) }
    requires counts { CountsBefore (S.message message.now) before.now }
    requires each { length words.now ≡ total (S.message message.now) }
    requires table { table < 2 ^ 16 }
    requires fine { has_failed writer.old ≡ false }
    ensures { AddsText (spec.all_lines frame.now (S.message message.now) words.now table levels summary)
        (outgoing (W.contents (inner_of writer.old)) text.old.items)
        (outgoing (W.contents (inner_of writer.new)) text.new.items) (has_failed writer.new) result }
{
    add_head(
        alloc,
        message,
        frame,
        summary.at.offset,
        table,
        text,
        writer,
    )?;
    let start = first_byte(summary.at.offset, table);
    add_body(
        alloc, message, before, words, start, levels, summary, text, writer,
    )
}

/// Adds what is written for `message` to the output. `words` has what the visits make of each of its words, and
/// `summary` its counts.
fn add_chosen<S: Space, W: Write, A: Allocator + Copy>(
    alloc: A,
    order: &AnnotateOrder,
    frame: &[u8],
    message: &S,
    before: &[u32],
    words: &[Covered],
    summary: Summary,
    text: &mut Vec<u8, A>,
    writer: &mut Watched<W>,
) -> Result<(), ServeFault>
    requires message { IsMessage (S.message message.now) }
    requires counts { CountsBefore (S.message message.now) before.now }
    requires each { length words.now ≡ total (S.message message.now) }
    requires fine { has_failed writer.old ≡ false }
    ensures { AddsText (spec.annotation order.now frame.now (S.message message.now) words.now summary)
        (outgoing (W.contents (inner_of writer.old)) text.old.items)
        (outgoing (W.contents (inner_of writer.new)) text.new.items) (has_failed writer.new) result }
{
    if order.summary {
        return add_summary(alloc, summary, text, writer);
    }
    let table = table_words(order.form, message);
    let levels = order.limits.depth();
    add_map(
        alloc, frame, message, before, words, table, levels, summary, text, writer,
    )
}

/// Adds what is written for `message` to the output. The message is accepted within the limits of `order`, with the
/// given `survey`, and `words` has what the visits make of each of its words.
pub fn add_annotation<S: Space, W: Write, A: Allocator + Copy>(
    alloc: A,
    order: &AnnotateOrder,
    at: Position,
    frame: &[u8],
    message: &S,
    words: &[Covered],
    survey: Surveyed,
    text: &mut Vec<u8, A>,
    writer: &mut Watched<W>,
) -> Result<(), ServeFault>
    requires message { IsMessage (S.message message.now) }
    requires survey { IsSurvey (S.message message.now) order.now.limits survey }
    requires cover { IsCover (S.message message.now) order.now.limits words.now }
    requires fine { has_failed writer.old ≡ false }
    ensures { AddsAnnotation (spec.IsAnnotation order.now at frame.now (S.message message.now))
        (outgoing (W.contents (inner_of writer.old)) text.old.items)
        (outgoing (W.contents (inner_of writer.new)) text.new.items) (has_failed writer.new) result }
{
    let before = words_before(alloc, message)?;
    let counts = count_words(message, &before, words);
    let canonical = canonical_words(message, order.limits, survey);
    let summary = Summary {
        at,
        counts,
        canonical,
    };
    add_chosen(
        alloc, order, frame, message, &before, words, summary, text, writer,
    )
}
