//! The faults of frames, of readers and of writers.

use std::alloc::AllocError;
use std::error::Error;
use std::{fmt, io};

/// The reason why bytes are no frame.
#[derive(Clone, Copy, Debug, PartialEq, Eq)]
pub enum FrameFault {
    /// An allocation was refused.
    Memory,
    /// There are no bytes.
    Empty,
    /// The number of segments that the table announces, which is above 4,096. This fault is returned once the count is
    /// read.
    TooManySegments(u64),
    /// The number of words that the table announces, which is above the maximum. This fault is returned once the table
    /// and its padding are read.
    TooManyWords(u64),
    /// The bytes end within the count, the table, its padding or the contents.
    Cut,
    /// An earlier call returned an error. Only a [`Framer`](crate::Framer) returns this fault.
    Failed,
}

impl From<AllocError> for FrameFault {
    ghost use Rattle.std.specs.Prelude.{◌≡◌};
    ghost use Rattle.capn_stream.specs.declared.fault.FrameFault.TheVariants.{Memory as out_of_memory};

    ghost from_gives = { λ _ e. e ≡ out_of_memory };

    fn from(_: AllocError) -> FrameFault {
        FrameFault::Memory
    }
}

/// The reason why no message was read.
#[derive(Clone, Copy, Debug, PartialEq, Eq)]
pub enum ReadFault {
    /// An allocation was refused.
    Memory,
    /// The reader failed.
    Io,
    /// The bytes are no frame. The fault is `TooManySegments`, `TooManyWords` or `Cut`.
    Frame(FrameFault),
}

/// The failure of a writer.
#[derive(Clone, Copy, Debug, PartialEq, Eq)]
pub struct Io;

impl From<io::Error> for Io {
    fn from(_: io::Error) -> Io {
        Io
    }
}

impl fmt::Display for FrameFault {
    ghost use Rattle.std.specs.Prelude.{Some};
    ghost use Rattle.capn_stream.specs.Display.{frame_text};

    ghost output = { λ fault. Some (frame_text fault) };

    fn fmt<W: fmt::Write>(&self, f: &mut fmt::Formatter<W>) -> fmt::Result {
        match self {
            FrameFault::Memory => write!(f, "out of memory"),
            FrameFault::Empty => write!(f, "Empty"),
            FrameFault::TooManySegments(count) => write!(f, "TooManySegments({count})"),
            FrameFault::TooManyWords(words) => write!(f, "TooManyWords({words})"),
            FrameFault::Cut => write!(f, "Cut"),
            FrameFault::Failed => write!(f, "Failed"),
        }
    }
}

impl Error for FrameFault {}

impl fmt::Display for ReadFault {
    ghost use Rattle.std.specs.Prelude.{Some};
    ghost use Rattle.capn_stream.specs.Display.{read_text};

    ghost output = { λ fault. Some (read_text fault) };

    fn fmt<W: fmt::Write>(&self, f: &mut fmt::Formatter<W>) -> fmt::Result {
        match self {
            ReadFault::Memory => write!(f, "out of memory"),
            ReadFault::Io => write!(f, "input or output failed"),
            ReadFault::Frame(fault) => write!(f, "frame: {fault}"),
        }
    }
}

impl Error for ReadFault {}

impl fmt::Display for Io {
    ghost use Rattle.std.specs.Prelude.{Some, codes};

    ghost output = { λ _. Some (codes "input or output failed") };

    fn fmt<W: fmt::Write>(&self, f: &mut fmt::Formatter<W>) -> fmt::Result {
        f.write_str("input or output failed")
    }
}

impl Error for Io {}
