//! Tests of runs over a reader of chunks, with counted calls.

use capn_canon::Form;
use capn_tool::*;
use capn_value::Tariff;
use capn_walk::Limits;
use capn_words::Watched;
use std::alloc::{AllocError, Global};
use std::cell::Cell;
use std::io::{self, Read, Write};

/// The numbers of calls of a run's reader and writer, and of its reader before the writer was first called.
#[derive(Drop)]
pub(crate) struct Calls {
    pub(crate) reads: Cell<u64>,
    pub(crate) writes: Cell<u64>,
    reads_before: Cell<u64>,
}

/// Returns counters at zero.
pub(crate) fn no_calls() -> Calls {
    Calls {
        reads: Cell::new(0),
        writes: Cell::new(0),
        reads_before: Cell::new(0),
    }
}

/// A reader of at most `piece` bytes a call, which counts its calls.
#[derive(Drop)]
pub(crate) struct Source<'a> {
    pub(crate) bytes: &'a [u8],
    pub(crate) piece: usize,
    pub(crate) calls: &'a Calls,
}

impl Read for Source<'_> {
    fn read(&mut self, buf: &mut [u8]) -> io::Result<usize> {
        self.calls
            .reads
            .set(self.calls.reads.get().saturating_add(1));
        let count = self.piece.min(buf.len()).min(self.bytes.len());
        let (given, rest) = self.bytes.split_at(count);
        buf[..count].copy_from_slice(given);
        self.bytes = rest;
        Ok(count)
    }
}

/// A writer that takes all that it is given, and counts its calls.
#[derive(Drop)]
pub(crate) struct Sink<'a> {
    pub(crate) bytes: Vec<u8>,
    pub(crate) calls: &'a Calls,
}

impl Write for Sink<'_> {
    fn write(&mut self, buf: &[u8]) -> io::Result<usize> {
        if self.calls.writes.get() == 0 {
            self.calls.reads_before.set(self.calls.reads.get());
        }
        self.calls
            .writes
            .set(self.calls.writes.get().saturating_add(1));
        self.bytes.extend_from_slice(buf)?;
        Ok(buf.len())
    }

    fn flush(&mut self) -> io::Result<()> {
        Ok(())
    }
}

/// Returns the result and the output of a run over chunks of `piece` bytes.
fn ended(
    alloc: Global,
    command: Command,
    input: &[u8],
    piece: usize,
    calls: &Calls,
) -> (Result<(), ToolFault>, Vec<u8>) {
    let mut reader = Watched::new(Source {
        bytes: input,
        piece,
        calls,
    });
    let mut writer = Watched::new(Sink {
        bytes: Vec::new(alloc),
        calls,
    });
    let outcome = run(alloc, command, &mut reader, &mut writer);
    (outcome, writer.into_inner().bytes)
}

/// The frame of a struct of two words: 32 bytes.
pub(crate) const FRAMED: [u8; 32] = [
    0, 0, 0, 0, 3, 0, 0, 0, 0, 0, 0, 0, 2, 0, 0, 0, 5, 0, 0, 0, 0, 0, 0, 0, 6, 0, 0, 0, 0, 0, 0, 0,
];

/// The line of the price of `FRAMED`.
const LINE: &[u8] = b"ok paid 3 visits 1\n";

/// Returns `count` copies of `bytes`, one after the other.
fn repeated(alloc: Global, bytes: &[u8], count: u32) -> Option<Vec<u8>> {
    let mut all = Vec::new(alloc);
    for _ in 0..count {
        all.extend_from_slice(bytes).ok()?;
    }
    Some(all)
}

/// Returns the command `check` of a stream.
fn check_stream() -> Command {
    Command::Check(Form::Stream, Limits::usual())
}

/// Tests whether `check` of `count` messages, in chunks of `piece` bytes, writes their lines.
fn is_checked(alloc: Global, count: u32, piece: usize, calls: &Calls) -> bool {
    let Some(lines) = repeated(alloc, LINE, count) else {
        return false;
    };
    let Some(input) = repeated(alloc, &FRAMED, count) else {
        return false;
    };
    let (outcome, written) = ended(alloc, check_stream(), &input, piece, calls);
    outcome == Ok(()) && written.as_slice() == lines.as_slice()
}

#[test]
fn a_message_is_written_before_the_next_piece_is_read(rt: HostRuntime) {
    let calls = no_calls();
    assert!(rt; is_checked(rt.alloc(), 2, 32, &calls));
    assert!(rt; calls.reads_before.get() == 1 && calls.writes.get() == 2);
}

#[test]
fn ten_thousand_messages_are_written_at_once(rt: HostRuntime) {
    let calls = no_calls();
    assert!(rt; is_checked(rt.alloc(), 10_000, 65_536, &calls));
    assert!(rt; calls.reads.get() == 6 && calls.writes.get() == 5);
}

/// The data words and null slots of structs. A struct costs one word more than both together. So the prices are 9 and
/// 10, then 99 and 100, and again 9 and 10.
const SIZES: [(u8, u8); 6] = [(8, 0), (9, 0), (98, 0), (99, 0), (0, 8), (0, 9)];

/// The lines of the prices of `SIZES`.
const LINES: &[u8] = b"ok paid 9 visits 1\n\
ok paid 10 visits 1\n\
ok paid 99 visits 1\n\
ok paid 100 visits 1\n\
ok paid 9 visits 9\n\
ok paid 10 visits 10\n";

/// Appends the frame of a struct of `words` words and `slots` null slots to `stream`.
fn add_struct(stream: &mut Vec<u8>, words: u8, slots: u8) -> Result<(), AllocError> {
    let content = u16::from(words) + u16::from(slots);
    let [low, high] = (content + 1).to_le_bytes();
    let head = [0, 0, 0, 0, low, high, 0, 0, 0, 0, 0, 0, words, 0, slots, 0];
    stream.extend_from_slice(&head)?;
    for _ in 0..content {
        stream.extend_from_slice(&[0; 8])?;
    }
    Ok(())
}

/// Returns a stream of structs with the given `sizes`.
fn structs(alloc: Global, sizes: &[(u8, u8)]) -> Result<Vec<u8>, AllocError> {
    let mut stream = Vec::new(alloc);
    for &(words, slots) in sizes {
        add_struct(&mut stream, words, slots)?;
    }
    Ok(stream)
}

#[test]
fn lines_have_numbers_of_one_digit_and_of_more(rt: HostRuntime) {
    let calls = no_calls();
    let Ok(stream) = structs(rt.alloc(), &SIZES) else {
        assert!(rt; false, "out of memory");
        return;
    };
    let (outcome, written) = ended(rt.alloc(), check_stream(), &stream, 65_536, &calls);
    assert!(rt; outcome == Ok(()));
    assert_eq!(rt; written.as_slice(), LINES);
}

#[test]
fn a_number_of_visits_may_be_longer_than_a_price(rt: HostRuntime) {
    let calls = no_calls();
    let Ok(stream) = structs(rt.alloc(), &[(0, 9)]) else {
        assert!(rt; false, "out of memory");
        return;
    };
    let plain = Limits::usual().with_tariff(Tariff::Plain);
    let command = Command::Check(Form::Stream, plain);
    let (outcome, written) = ended(rt.alloc(), command, &stream, 65_536, &calls);
    assert!(rt; outcome == Ok(()));
    assert_eq!(rt; written.as_slice(), b"ok paid 9 visits 10\n".as_slice());
}
