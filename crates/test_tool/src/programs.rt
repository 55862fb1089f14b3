//! Tests of the program over readers and writers in memory: its status, its output and its errors.

use capn_tool::program;
use capn_words::Watched;
use std::alloc::Global;
use std::io::{self, Error, ErrorKind, Write};

/// A writer that takes every byte, fails at the first, or fails at the flush. It counts its flushes.
#[derive(Drop)]
struct Page {
    bytes: Vec<u8>,
    takes: bool,
    flushes: bool,
    flushed: usize,
}

impl Write for Page {
    fn write(&mut self, buf: &[u8]) -> io::Result<usize> {
        if !self.takes {
            return Err(Error::from(ErrorKind::Other));
        }
        self.bytes.extend_from_slice(buf)?;
        Ok(buf.len())
    }

    fn flush(&mut self) -> io::Result<()> {
        self.flushed = self.flushed.saturating_add(1);
        if !self.flushes {
            return Err(Error::from(ErrorKind::Other));
        }
        Ok(())
    }
}

/// Returns an empty writer, whose writes fail unless `takes` is set, and whose flushes fail unless `flushes` is set.
fn blank(alloc: Global, takes: bool, flushes: bool) -> Page {
    Page {
        bytes: Vec::new(alloc),
        takes,
        flushes,
        flushed: 0,
    }
}

/// Returns the status of the program for `words` and `input`, its writer, which was `output`, and its error writer.
fn ended(alloc: Global, words: &[&str], input: &[u8], output: Page) -> (u8, Page, Page) {
    let mut reader = Watched::new(input);
    let mut writer = Watched::new(output);
    let mut errors = Watched::new(blank(alloc, true, true));
    let code = program(alloc, words, &mut reader, &mut writer, &mut errors);
    (code, writer.into_inner(), errors.into_inner())
}

/// A stream of one message: a struct of one word.
const STREAM: [u8; 24] = [
    0, 0, 0, 0, 2, 0, 0, 0, 0, 0, 0, 0, 1, 0, 0, 0, 5, 0, 0, 0, 0, 0, 0, 0,
];

/// The line of the price of `STREAM`.
const PRICE: &[u8] = b"ok paid 2 visits 1\n";

/// The error line for an output that failed.
const FAILED: &[u8] = b"capn: input or output failed\n";

/// Tests whether the program ends with the status, the output and the errors in `want`, and flushes its output once.
fn is_ended(
    alloc: Global,
    words: &[&str],
    input: &[u8],
    output: Page,
    want: (u8, &[u8], &[u8]),
) -> bool {
    let (code, written, told) = ended(alloc, words, input, output);
    code == want.0
        && written.bytes.as_slice() == want.1
        && written.flushed == 1
        && told.bytes.as_slice() == want.2
}

#[test]
fn each_status_of_a_run(rt: HostRuntime) {
    let cut = b"capn: frame: Cut\n";
    for (size, takes, flushes, code, written, told) in [
        (24, true, true, 0, PRICE, b"".as_slice()),
        (9, true, true, 1, b"", cut),
        (24, false, true, 3, b"", FAILED),
        (24, true, false, 3, PRICE, FAILED),
        // A flush that fails after a refusal changes neither the status nor the line.
        (9, true, false, 1, b"", cut),
    ] {
        let output = blank(rt.alloc(), takes, flushes);
        let want = (code, written, told);
        assert!(rt;
            is_ended(
                rt.alloc(),
                &["capn", "check"],
                &STREAM[..size],
                output,
                want
            )
        );
    }
}

/// Tests whether `words` are refused: the status is 2, no output is written, and the errors begin with `line`.
fn is_mistake(alloc: Global, words: &[&str], line: &[u8]) -> bool {
    let (code, written, told) = ended(alloc, words, &STREAM, blank(alloc, true, true));
    code == 2 && written.bytes.is_empty() && told.bytes.as_slice().starts_with(line)
}

#[test]
fn mistakes_are_told_as_errors(rt: HostRuntime) {
    let words = ["capn", "hash", "--tariff", "cheap"];
    let line = b"error: --tariff takes strict or plain\n";
    assert!(rt; is_mistake(rt.alloc(), &words, line));
    let words = ["capn", "hash", "--form", "text"];
    let line = b"error: --form takes stream, packed or bare\n";
    assert!(rt; is_mistake(rt.alloc(), &words, line));
}

/// Tests whether `--help` ends with the status `code` and the errors `line`. The help must be written to `output` if
/// and only if `is_written`.
fn is_helped(alloc: Global, output: Page, code: u8, is_written: bool, line: &[u8]) -> bool {
    let words = ["capn", "pack", "--help"];
    let (status, written, told) = ended(alloc, &words, &STREAM, output);
    status == code
        && written.bytes.as_slice().starts_with(b"capn 1.1.0-dev: ") == is_written
        && told.bytes.as_slice() == line
}

#[test]
fn help_is_output(rt: HostRuntime) {
    for (takes, flushes, code, line) in [
        (true, true, 0, b"".as_slice()),
        (false, true, 3, FAILED),
        (true, false, 3, FAILED),
    ] {
        let output = blank(rt.alloc(), takes, flushes);
        assert!(rt; is_helped(rt.alloc(), output, code, takes, line));
    }
}
