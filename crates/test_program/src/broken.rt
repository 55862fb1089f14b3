//! Runs of the program over failing readers and writers, and their outcomes.

use capn_tool::{Watched, program};
use std::alloc::Global;
use std::io::{self, ErrorKind, Read, Write};

/// A reader that gives at most `most` bytes a call. After `bytes` it ends. If `fails` is set, it returns an error there
/// instead, and sets `failed`.
#[derive(Drop)]
struct Pieces<'a> {
    bytes: &'a [u8],
    most: usize,
    fails: bool,
    failed: bool,
}

impl Read for Pieces<'_> {
    fn read(&mut self, buf: &mut [u8]) -> io::Result<usize> {
        if self.bytes.is_empty() && self.fails {
            self.failed = true;
            return Err(ErrorKind::Other.into());
        }
        let count = self.bytes.len().min(self.most).min(buf.len());
        buf[..count].copy_from_slice(&self.bytes[..count]);
        self.bytes = &self.bytes[count..];
        Ok(count)
    }
}

/// A writer that takes a number of bytes, and then fails.
#[derive(Drop)]
pub(crate) struct Short {
    /// The bytes that it took.
    pub(crate) bytes: Vec<u8>,
    /// The number of bytes that it still takes.
    pub(crate) room: usize,
}

impl Write for Short {
    fn write(&mut self, buf: &[u8]) -> io::Result<usize> {
        let count = self.room.min(buf.len());
        if count == 0 && !buf.is_empty() {
            return Err(ErrorKind::Other.into());
        }
        self.bytes.extend_from_slice(&buf[..count])?;
        self.room -= count;
        Ok(count)
    }

    fn flush(&mut self) -> io::Result<()> {
        Ok(())
    }
}

/// The input of a run, and the points at which its reader and its writer fail.
#[derive(Clone, Copy)]
pub(crate) struct Input<'a> {
    /// The bytes that the reader gives.
    pub(crate) bytes: &'a [u8],
    /// The greatest number of bytes of one read.
    pub(crate) most: usize,
    /// `true` if the reader fails after `bytes`.
    pub(crate) fails: bool,
    /// The greatest number of bytes that the writer takes.
    pub(crate) room: usize,
}

impl<'a> Input<'a> {
    /// Returns an input of `bytes`, read in chunks of at most `most`, without a failure.
    pub(crate) fn whole(bytes: &'a [u8], most: usize) -> Input<'a> {
        Input {
            bytes,
            most,
            fails: false,
            room: usize::MAX,
        }
    }
}

/// The output of a run, its last line, its exit status, and whether its reader returned an error.
#[derive(Drop)]
pub(crate) struct Ending {
    pub(crate) text: Vec<u8>,
    pub(crate) line: Vec<u8>,
    pub(crate) status: u8,
    pub(crate) read_failed: bool,
}

impl Ending {
    /// Tests whether the run reported that the input or the output failed.
    pub(crate) fn is_broken(&self) -> bool {
        self.status == 3 && self.line.as_slice() == b"capn: input or output failed\n".as_slice()
    }

    /// Tests whether the run has the output, the last line and the status of `other`.
    pub(crate) fn is_as(&self, other: &Ending) -> bool {
        self.text.as_slice() == other.text.as_slice()
            && self.line.as_slice() == other.line.as_slice()
            && self.status == other.status
    }
}

/// Returns the outcome of the program that is started with `words`.
pub(crate) fn ended(alloc: Global, words: &[&str], input: Input<'_>) -> Ending {
    let mut reader = Watched::new(Pieces {
        bytes: input.bytes,
        most: input.most,
        fails: input.fails,
        failed: false,
    });
    let mut writer = Watched::new(Short {
        bytes: Vec::new(alloc),
        room: input.room,
    });
    let mut errors = Watched::new(Vec::new(alloc));
    let status = program(alloc, words, &mut reader, &mut writer, &mut errors);
    Ending {
        text: writer.into_inner().bytes,
        line: errors.into_inner(),
        status,
        read_failed: reader.into_inner().failed,
    }
}
