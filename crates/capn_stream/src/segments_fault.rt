//! The reasons why separate segments are refused as a message.

use std::error::Error;
use std::fmt;

/// The reason why segments are no message. The variants are in the order of the tests.
#[derive(Clone, Copy, Debug, PartialEq, Eq)]
pub enum SegmentsFault {
    /// There are no segments.
    Empty,
    /// The number of segments, which is above 4,096.
    TooManySegments(u64),
    /// The number of words in all segments, which is above the maximum. If there are more than 2^64 - 1 words, the
    /// number is 2^64 - 1.
    TooManyWords(u64),
}

impl fmt::Display for SegmentsFault {
    ghost use Rattle.std.specs.Prelude.{Some};
    ghost use Rattle.capn_stream.specs.Display.{segments_text};

    ghost output = { λ fault. Some (segments_text fault) };

    fn fmt<W: fmt::Write>(&self, f: &mut fmt::Formatter<W>) -> fmt::Result {
        match self {
            SegmentsFault::Empty => write!(f, "Empty"),
            SegmentsFault::TooManySegments(count) => write!(f, "TooManySegments({count})"),
            SegmentsFault::TooManyWords(words) => write!(f, "TooManyWords({words})"),
        }
    }
}

impl Error for SegmentsFault {}
