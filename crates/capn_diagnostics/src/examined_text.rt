//! The lines about a refused slot: its word, its landing pads, its tag, its content, and the limit that the fault is
//! about. Stored cases and docs/DIAGNOSTICS.md have it as `explain` prints it.

use crate::examined::{Examined, Limit, Pad, RowWords, Stretch};
use crate::holder_text::HolderText;
use crate::path_text::PathText;
use crate::slot_text::SlotText;
use crate::tag_text::TagText;
use crate::word_text::WordText;
use std::fmt;

impl fmt::Display for Stretch {
    ghost use Rattle.std.specs.Prelude.{Some};
    ghost use Rattle.capn_diagnostics.specs.SlotTexts.{stretch_text};

    ghost output = { λ stretch. Some (stretch_text stretch) };

    fn fmt<W: fmt::Write>(&self, f: &mut fmt::Formatter<W>) -> fmt::Result {
        let start = self.start;
        let end = self.end;
        let segment = self.segment;
        let length = self.length;
        write!(
            f,
            "words {start} to {end} of segment {segment}, which has {length}"
        )
    }
}

impl fmt::Display for RowWords {
    ghost use Rattle.std.specs.Prelude.{Some};
    ghost use Rattle.capn_diagnostics.specs.SlotTexts.{rows_text};

    ghost output = { λ rows. Some (rows_text rows) };

    fn fmt<W: fmt::Write>(&self, f: &mut fmt::Formatter<W>) -> fmt::Result {
        let count = self.count;
        let each = self.each;
        let words = self.words;
        let span = self.span;
        write!(
            f,
            "{count} of {each} words each: {words} of the list's {span}"
        )
    }
}

impl fmt::Display for Limit {
    ghost use Rattle.std.specs.Prelude.{Some};
    ghost use Rattle.capn_diagnostics.specs.SlotTexts.{limit_text};

    ghost output = { λ limit. Some (limit_text limit) };

    fn fmt<W: fmt::Write>(&self, f: &mut fmt::Formatter<W>) -> fmt::Result {
        match self {
            Limit::Depth(depth) => write!(f, "--depth {depth}"),
            Limit::Budget(asks, left, budget) => {
                write!(f, "asks for {asks} of {left} left, --budget {budget}")
            }
            Limit::Segments(count) => write!(f, "{count} segments"),
        }
    }
}

/// The word of a tag, displayed with its offset in bytes, its place, its bytes, and its text as a tag.
#[derive(Drop)]
struct TagAt(SlotText);

impl fmt::Display for TagAt {
    ghost use Rattle.std.specs.Prelude.{Some};
    ghost use Rattle.capn_diagnostics.specs.SlotTexts.{word_as_tag};

    ghost output = { λ tag. Some (word_as_tag tag.0) };

    fn fmt<W: fmt::Write>(&self, f: &mut fmt::Formatter<W>) -> fmt::Result {
        let byte = self.0.byte;
        let segment = self.0.place.segment;
        let word = self.0.place.word;
        write!(
            f,
            "byte {byte}, segment {segment} word {word}: {}: {}",
            WordText(self.0.word),
            TagText(self.0.word)
        )
    }
}

/// The line `in:`, with the object that holds a slot. The line is empty if there is no such object.
#[derive(Drop)]
struct HolderLine(Option<HolderText>);

impl fmt::Display for HolderLine {
    ghost use Rattle.std.specs.Prelude.{Some};
    ghost use Rattle.capn_diagnostics.specs.SlotTexts.{holder_line};

    ghost output = { λ line. Some (holder_line line.0) };

    fn fmt<W: fmt::Write>(&self, f: &mut fmt::Formatter<W>) -> fmt::Result {
        match self.0 {
            Some(holder) => write!(f, "in: {holder}\n"),
            None => write!(f, ""),
        }
    }
}

/// The lines `pad:`, one for each word of a landing pad. There are no lines for the pad `Absent`.
#[derive(Drop)]
struct PadLines(Pad);

impl fmt::Display for PadLines {
    ghost use Rattle.std.specs.Prelude.{Some};
    ghost use Rattle.capn_diagnostics.specs.SlotTexts.{pad_lines};

    ghost output = { λ lines. Some (pad_lines lines.0) };

    fn fmt<W: fmt::Write>(&self, f: &mut fmt::Formatter<W>) -> fmt::Result {
        match self.0 {
            Pad::Absent => write!(f, ""),
            Pad::One(word) => write!(f, "pad: {word}\n"),
            Pad::Two(first, second) => {
                write!(f, "pad: {first}\n")?;
                write!(f, "pad: {second}\n")
            }
        }
    }
}

/// The line `tag:`, with the tag of a list of structs. The line is empty if there is no tag.
#[derive(Drop)]
struct TagLine(Option<SlotText>);

impl fmt::Display for TagLine {
    ghost use Rattle.std.specs.Prelude.{Some};
    ghost use Rattle.capn_diagnostics.specs.SlotTexts.{tag_line};

    ghost output = { λ line. Some (tag_line line.0) };

    fn fmt<W: fmt::Write>(&self, f: &mut fmt::Formatter<W>) -> fmt::Result {
        match self.0 {
            Some(tag) => write!(f, "tag: {}\n", TagAt(tag)),
            None => write!(f, ""),
        }
    }
}

/// The line `content:`, with words of content or of a landing pad. The line is empty if there are no such words.
#[derive(Drop)]
struct ContentLine(Option<Stretch>);

impl fmt::Display for ContentLine {
    ghost use Rattle.std.specs.Prelude.{Some};
    ghost use Rattle.capn_diagnostics.specs.SlotTexts.{content_line};

    ghost output = { λ line. Some (content_line line.0) };

    fn fmt<W: fmt::Write>(&self, f: &mut fmt::Formatter<W>) -> fmt::Result {
        match self.0 {
            Some(stretch) => write!(f, "content: {stretch}\n"),
            None => write!(f, ""),
        }
    }
}

/// The line `rows:`, with the rows of a list of structs. The line is empty if there are no rows to show.
#[derive(Drop)]
struct RowsLine(Option<RowWords>);

impl fmt::Display for RowsLine {
    ghost use Rattle.std.specs.Prelude.{Some};
    ghost use Rattle.capn_diagnostics.specs.SlotTexts.{rows_line};

    ghost output = { λ line. Some (rows_line line.0) };

    fn fmt<W: fmt::Write>(&self, f: &mut fmt::Formatter<W>) -> fmt::Result {
        match self.0 {
            Some(rows) => write!(f, "rows: {rows}\n"),
            None => write!(f, ""),
        }
    }
}

/// The line `limit:`, with the limit that a fault is about. The line is empty if there is no limit.
#[derive(Drop)]
struct LimitLine(Option<Limit>);

impl fmt::Display for LimitLine {
    ghost use Rattle.std.specs.Prelude.{Some};
    ghost use Rattle.capn_diagnostics.specs.SlotTexts.{limit_line};

    ghost output = { λ line. Some (limit_line line.0) };

    fn fmt<W: fmt::Write>(&self, f: &mut fmt::Formatter<W>) -> fmt::Result {
        match self.0 {
            Some(limit) => write!(f, "limit: {limit}\n"),
            None => write!(f, ""),
        }
    }
}

/// The findings about the slot at which the walk over a message was refused, displayed in lines.
#[derive(Clone, Copy, Debug, PartialEq, Eq)]
pub struct SlotLines<'a> {
    /// The numbers that lead from the root to the slot.
    pub path: &'a [u32],
    /// The object that holds the slot, or `None` for the slot of the root.
    pub holder: Option<HolderText>,
    /// The findings about the slot.
    pub examined: Examined,
}

impl<'a> fmt::Display for SlotLines<'a> {
    ghost use Rattle.std.specs.Prelude.{Some};
    ghost use Rattle.capn_diagnostics.specs.SlotTexts.{slot_lines};

    ghost output = { λ lines. Some (slot_lines lines.path.now lines.holder lines.examined) };

    fn fmt<W: fmt::Write>(&self, f: &mut fmt::Formatter<W>) -> fmt::Result {
        let examined = self.examined;
        let slot = examined.slot;
        write!(f, "way: {}\n", PathText(self.path))?;
        write!(f, "slot: {slot}\n")?;
        write!(
            f,
            "{}{}{}{}{}{}",
            HolderLine(self.holder),
            PadLines(examined.pad),
            TagLine(examined.tag),
            ContentLine(examined.content),
            RowsLine(examined.rows),
            LimitLine(examined.limit)
        )
    }
}
