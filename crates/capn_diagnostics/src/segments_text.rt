//! The text of the segments of a message. Stored cases and docs/DIAGNOSTICS.md have it as `explain` prints it.

ghost use Rattle.std.specs.Prelude.{◌≡◌};
ghost use Rattle.capn_diagnostics.specs.MessageTexts.{segments_of};

use capn_target::segment_length;
use capn_words::{Space, total_words};
use std::fmt;

/// Numbers, displayed with commas between them.
#[derive(Drop)]
struct Listed<'a>(&'a [u32]);

impl<'a> fmt::Display for Listed<'a> {
    ghost use Rattle.std.specs.Prelude.{Some};
    ghost use Rattle.capn_diagnostics.specs.MessageTexts.{listed};

    ghost output = { λ numbers. Some (listed numbers.0.now) };

    fn fmt<W: fmt::Write>(&self, f: &mut fmt::Formatter<W>) -> fmt::Result {
        let numbers = self.0;
        if numbers.len() == 0 {
            return write!(f, "");
        }
        write!(f, "{}", numbers[0])?;
        for i in 1..numbers.len() {
            write!(f, ", {}", numbers[i])?;
        }
        Ok(())
    }
}

/// The segments of a message, displayed in one line without its newline: the number of segments, and the number of
/// words of all segments. If there are two or more segments, the number of words of each of the first eight follows.
#[derive(Clone, Copy, Debug, PartialEq, Eq)]
pub struct SegmentsText {
    /// The number of segments.
    pub count: u32,
    /// The number of words of all segments.
    pub words: u64,
    /// The number of words of each of the first eight segments. Elements past the number of segments are not displayed.
    pub first: [u32; 8],
}

/// The sizes of segments, displayed if there are two or more.
#[derive(Drop)]
struct Sizes<'a>(&'a SegmentsText);

impl<'a> fmt::Display for Sizes<'a> {
    ghost use Rattle.std.specs.Prelude.{Some};
    ghost use Rattle.capn_diagnostics.specs.MessageTexts.{sizes_text};

    ghost output = { λ sizes. Some (sizes_text sizes.0.now.count sizes.0.now.first) };

    fn fmt<W: fmt::Write>(&self, f: &mut fmt::Formatter<W>) -> fmt::Result {
        let count = self.0.count;
        if count < 2 {
            return write!(f, "");
        }
        let shown = count.min(8) as usize;
        let sizes = Listed(&self.0.first[..shown]);
        if 8 < count {
            write!(f, ": {sizes}, ..")
        } else {
            write!(f, ": {sizes}")
        }
    }
}

impl fmt::Display for SegmentsText {
    ghost use Rattle.std.specs.Prelude.{Some};
    ghost use Rattle.capn_diagnostics.specs.MessageTexts.{segments_text};

    ghost output = { λ segments. Some (segments_text segments) };

    fn fmt<W: fmt::Write>(&self, f: &mut fmt::Formatter<W>) -> fmt::Result {
        let count = self.count;
        let words = self.words;
        write!(f, "{count} of {words} words{}", Sizes(self))
    }
}

impl SegmentsText {
    /// Returns the text of the segments of the message `space`. The call asks `space` for the length of each segment.
    pub fn of<S: Space>(space: &S) -> SegmentsText
        ensures { result ≡ segments_of (S.message space.now) }
    {
        SegmentsText {
            count: space.segments(),
            words: total_words(space) as u64,
            first: [
                segment_length(space, 0),
                segment_length(space, 1),
                segment_length(space, 2),
                segment_length(space, 3),
                segment_length(space, 4),
                segment_length(space, 5),
                segment_length(space, 6),
                segment_length(space, 7),
            ],
        }
    }
}
