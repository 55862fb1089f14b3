//! A reader and a writer of one byte a call, which fail at a given call.

use capn_tool::{Command, ToolFault, run};
use capn_words::Watched;
use std::alloc::Global;
use std::io::{self, Error, ErrorKind, Read, Write};

/// A reader of one byte a call, which fails at the call `fails_at`, and remembers the greatest number of bytes
/// requested.
#[derive(Drop)]
struct Slow<'a> {
    bytes: &'a [u8],
    calls: u64,
    fails_at: u64,
    asked: usize,
}

impl Read for Slow<'_> {
    fn read(&mut self, buf: &mut [u8]) -> io::Result<usize> {
        self.calls = self.calls.saturating_add(1);
        self.asked = self.asked.max(buf.len());
        if self.calls == self.fails_at {
            return Err(Error::from(ErrorKind::Interrupted));
        }
        match self.bytes.split_first() {
            Some((first, rest)) if !buf.is_empty() => {
                buf[0] = *first;
                self.bytes = rest;
                Ok(1)
            }
            _ => Ok(0),
        }
    }
}

/// A writer of one byte a call, which at the call `fails_at` returns an error or takes nothing.
#[derive(Drop)]
struct Narrow {
    bytes: Vec<u8>,
    calls: u64,
    fails_at: u64,
    takes_nothing: bool,
}

impl Write for Narrow {
    fn write(&mut self, buf: &[u8]) -> io::Result<usize> {
        self.calls = self.calls.saturating_add(1);
        if self.calls == self.fails_at {
            return if self.takes_nothing {
                Ok(0)
            } else {
                Err(Error::from(ErrorKind::Other))
            };
        }
        match buf.first() {
            Some(first) => {
                self.bytes.push(*first)?;
                Ok(1)
            }
            None => Ok(0),
        }
    }

    fn flush(&mut self) -> io::Result<()> {
        Ok(())
    }
}

/// A command, its input, and its output.
#[derive(Clone, Copy)]
pub(crate) struct Run<'a> {
    pub(crate) command: Command,
    pub(crate) input: &'a [u8],
    pub(crate) text: &'a [u8],
}

/// The outcome of a run: its result, its output, the number of calls of its reader, and the greatest number of bytes
/// that a call requested.
#[derive(Drop)]
pub(crate) struct Ending {
    pub(crate) outcome: Result<(), ToolFault>,
    pub(crate) written: Vec<u8>,
    pub(crate) reads: u64,
    pub(crate) asked: usize,
}

/// Returns the outcome of a run whose reader fails at the call `read`, and its writer at the call `write`. With 0 in
/// place of a call, the reader or the writer never fails.
pub(crate) fn ended(
    alloc: Global,
    run_of: &Run,
    read: u64,
    write: u64,
    takes_nothing: bool,
) -> Ending {
    let mut reader = Watched::new(Slow {
        bytes: run_of.input,
        calls: 0,
        fails_at: read,
        asked: 0,
    });
    let mut writer = Watched::new(Narrow {
        bytes: Vec::new(alloc),
        calls: 0,
        fails_at: write,
        takes_nothing,
    });
    let outcome = run(alloc, run_of.command, &mut reader, &mut writer);
    let reader = reader.into_inner();
    Ending {
        outcome,
        written: writer.into_inner().bytes,
        reads: reader.calls,
        asked: reader.asked,
    }
}
