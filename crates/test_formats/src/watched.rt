//! Tests of `Watched` readers and writers: calls are passed on, and failures are remembered.

ghost use Rattle.std.specs.Prelude.{◌≤◌, IfOk};

use capn_words::Watched;
use std::io::{self, Error, ErrorKind, Read, Write};
use std::test::Fail;

/// Kinds of error, including those after which other code would try again.
const KINDS: [ErrorKind; 5] = [
    ErrorKind::Interrupted,
    ErrorKind::WouldBlock,
    ErrorKind::BrokenPipe,
    ErrorKind::OutOfMemory,
    ErrorKind::Other,
];

/// The result that a call is to return.
#[derive(Clone, Copy)]
enum Answer {
    Bytes(usize),
    Fault(ErrorKind),
}

/// A reader and writer whose calls return the results of a list, one after the other, and 0 after the last.
#[derive(Drop)]
struct Told<'a> {
    answers: &'a [Answer],
}

impl<'a> Told<'a> {
    fn answer(&mut self, most: usize) -> io::Result<usize>
        ensures { IfOk result (λ count. count ≤ most) }
    {
        match self.answers.split_first() {
            None => Ok(0),
            Some((first, rest)) => {
                self.answers = rest;
                match *first {
                    Answer::Bytes(count) => Ok(count.min(most)),
                    Answer::Fault(kind) => Err(Error::from(kind)),
                }
            }
        }
    }
}

impl<'a> Read for Told<'a> {
    fn read(&mut self, buf: &mut [u8]) -> io::Result<usize> {
        self.answer(buf.len())
    }
}

impl<'a> Write for Told<'a> {
    fn write(&mut self, buf: &[u8]) -> io::Result<usize> {
        self.answer(buf.len())
    }

    fn flush(&mut self) -> io::Result<()> {
        self.answer(0)?;
        Ok(())
    }
}

#[test]
fn passes_a_read_on(rt: HostRuntime) -> std::result::Result<(), Fail> {
    let mut reader = Watched::new(b"abcde".as_slice());
    let mut piece = [0; 3];
    let count = reader.read(&mut piece)?;
    assert!(rt; count == 3 && piece == [97, 98, 99] && !reader.failed());
    assert!(rt; reader.into_inner() == b"de".as_slice());
    Ok(())
}

#[test]
fn passes_a_write_on(rt: HostRuntime) -> std::result::Result<(), Fail> {
    let mut writer = Watched::new(Vec::new(rt.alloc()));
    let count = writer.write(b"abc")?;
    assert!(rt; count == 3 && !writer.failed());
    assert!(rt; writer.into_inner().as_slice() == b"abc".as_slice());
    Ok(())
}

#[test]
fn fails_at_the_first_error_of_a_read(rt: HostRuntime) {
    for kind in KINDS {
        let answers = [
            Answer::Bytes(2),
            Answer::Bytes(0),
            Answer::Fault(kind),
            Answer::Bytes(1),
        ];
        let mut reader = Watched::new(Told { answers: &answers });
        let mut piece = [0; 4];
        assert!(rt; matches!(reader.read(&mut piece), Ok(2)));
        assert!(rt; matches!(reader.read(&mut piece), Ok(0)));
        assert!(rt; !reader.failed());
        assert!(rt; matches!(reader.read(&mut piece), Err(_)));
        assert!(rt; reader.failed());
        assert!(rt; matches!(reader.read(&mut piece), Ok(1)));
        assert!(rt; reader.failed());
    }
}

#[test]
fn fails_at_the_first_error_of_a_write(rt: HostRuntime) {
    for kind in KINDS {
        let answers = [Answer::Bytes(2), Answer::Fault(kind), Answer::Bytes(1)];
        let mut writer = Watched::new(Told { answers: &answers });
        assert!(rt; matches!(writer.write(b"abc"), Ok(2)));
        assert!(rt; !writer.failed());
        assert!(rt; matches!(writer.write(b"abc"), Err(_)));
        assert!(rt; writer.failed());
        assert!(rt; matches!(writer.write(b"abc"), Ok(1)));
        assert!(rt; writer.failed());
    }
}

/// Each flush is passed on, even after one that failed: the inner writer gets every call, and its results are returned.
#[test]
fn fails_at_the_first_error_of_a_flush(rt: HostRuntime) {
    for kind in KINDS {
        let answers = [
            Answer::Bytes(0),
            Answer::Fault(kind),
            Answer::Bytes(0),
            Answer::Fault(kind),
        ];
        let mut writer = Watched::new(Told { answers: &answers });
        assert!(rt; writer.flush().is_ok() && !writer.failed());
        assert!(rt; writer.flush().is_err() && writer.failed());
        assert!(rt; writer.flush().is_ok() && writer.failed());
        assert!(rt; writer.flush().is_err() && writer.failed());
        assert!(rt; writer.into_inner().answers.is_empty());
    }
}

/// All output goes through `write_all`. A write that fails is not tried again.
#[test]
fn fails_at_the_first_error_of_a_whole_text(rt: HostRuntime) {
    for kind in KINDS {
        let answers = [Answer::Bytes(2), Answer::Fault(kind), Answer::Bytes(1)];
        let mut writer = Watched::new(Told { answers: &answers });
        assert!(rt; writer.write_all(b"abc").is_err() && writer.failed());
        assert!(rt; matches!(writer.write(b"abc"), Ok(1)));
    }
}

#[test]
fn passes_empty_pieces_on(rt: HostRuntime) {
    let answers = [Answer::Fault(ErrorKind::Other)];
    let mut reader = Watched::new(Told { answers: &answers });
    assert!(rt; reader.read(&mut []).is_err() && reader.failed());
    let mut writer = Watched::new(Told { answers: &answers });
    assert!(rt; writer.write(b"").is_err() && writer.failed());
}

#[test]
fn fails_at_a_write_that_takes_nothing_of_something(rt: HostRuntime) {
    let answers = [Answer::Bytes(0), Answer::Bytes(0), Answer::Bytes(2)];
    let mut writer = Watched::new(Told { answers: &answers });
    assert!(rt; matches!(writer.write(b""), Ok(0)));
    assert!(rt; !writer.failed());
    assert!(rt; matches!(writer.write(b"abc"), Ok(0)));
    assert!(rt; writer.failed());
    assert!(rt; matches!(writer.write(b"abc"), Ok(2)));
}
