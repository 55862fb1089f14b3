//! The lines about a message that is explained. Stored cases and docs/DIAGNOSTICS.md have it as `explain` prints it.

use crate::examined_text::SlotLines;
use crate::frame_text::FrameKey;
use crate::segments_text::SegmentsText;
use capn_walk::Stopped;
use std::fmt;

/// The place and the size of a message, displayed in lines.
#[derive(Clone, Copy, Debug, PartialEq, Eq)]
pub struct MessageHead {
    /// The number of messages before this one.
    pub index: u64,
    /// The byte of the stream at which the message's table begins.
    pub offset: u64,
    /// The segments of the message, if all their sizes are known.
    pub segments: Option<SegmentsText>,
}

/// The line `segments:`, with the sizes of a message. The line is empty if the sizes are not known.
#[derive(Drop)]
struct SegmentsLine(Option<SegmentsText>);

impl fmt::Display for SegmentsLine {
    ghost use Rattle.std.specs.Prelude.{Some};
    ghost use Rattle.capn_diagnostics.specs.MessageTexts.{segments_line};

    ghost output = { λ line. Some (segments_line line.0) };

    fn fmt<W: fmt::Write>(&self, f: &mut fmt::Formatter<W>) -> fmt::Result {
        match self.0 {
            Some(segments) => write!(f, "segments: {segments}\n"),
            None => write!(f, ""),
        }
    }
}

impl fmt::Display for MessageHead {
    ghost use Rattle.std.specs.Prelude.{Some};
    ghost use Rattle.capn_diagnostics.specs.MessageTexts.{head_lines};

    ghost output = { λ head. Some (head_lines head) };

    fn fmt<W: fmt::Write>(&self, f: &mut fmt::Formatter<W>) -> fmt::Result {
        // Messages are numbered from 1, so the number for the greatest index needs more than 64 bits.
        let number = u128::from(self.index) + 1;
        let offset = self.offset;
        write!(
            f,
            "message: {number} at {offset}\n{}",
            SegmentsLine(self.segments)
        )
    }
}

/// The lines about a message that was refused in its walk.
#[derive(Clone, Copy, Debug, PartialEq, Eq)]
pub struct RefusedLines<'a> {
    /// The place and the size of the message.
    pub head: MessageHead,
    /// The fault at which the walk stopped, and its place.
    pub stopped: Stopped,
    /// The findings about the slot, or `None` if there is no root.
    pub slot: Option<SlotLines<'a>>,
}

/// The lines about a slot. There are no lines if there is no root.
#[derive(Drop)]
struct SomeSlot<'a>(Option<SlotLines<'a>>);

impl<'a> fmt::Display for SomeSlot<'a> {
    ghost use Rattle.std.specs.Prelude.{Some};
    ghost use Rattle.capn_diagnostics.specs.MessageTexts.{some_slot};

    ghost output = { λ lines. Some (some_slot lines.0) };

    fn fmt<W: fmt::Write>(&self, f: &mut fmt::Formatter<W>) -> fmt::Result {
        match self.0 {
            Some(slot) => write!(f, "{slot}"),
            None => write!(f, ""),
        }
    }
}

impl<'a> fmt::Display for RefusedLines<'a> {
    ghost use Rattle.std.specs.Prelude.{Some};
    ghost use Rattle.capn_diagnostics.specs.MessageTexts.{refused_lines};

    ghost output = { λ lines. Some (refused_lines lines.head lines.stopped lines.slot) };

    fn fmt<W: fmt::Write>(&self, f: &mut fmt::Formatter<W>) -> fmt::Result {
        let head = self.head;
        let stopped = self.stopped;
        write!(f, "{head}refused: {stopped}\n{}", SomeSlot(self.slot))
    }
}

/// The lines about a message whose frame, packing or length is refused.
#[derive(Clone, Copy, Debug, PartialEq, Eq)]
pub struct FrameLines<'a> {
    /// The place and the size of the message.
    pub head: MessageHead,
    /// The text of the fault.
    pub fault: &'a str,
    /// The sizes that explain the fault.
    pub key: FrameKey,
}

impl<'a> fmt::Display for FrameLines<'a> {
    ghost use Rattle.std.specs.Prelude.{Some};
    ghost use Rattle.capn_diagnostics.specs.MessageTexts.{frame_lines};

    ghost output = { λ lines. Some (frame_lines lines.head lines.fault.now lines.key) };

    fn fmt<W: fmt::Write>(&self, f: &mut fmt::Formatter<W>) -> fmt::Result {
        let head = self.head;
        let fault = self.fault;
        let key = self.key;
        write!(f, "{head}refused: {fault}\n{key}")
    }
}
