//! Tests of messages that are written as soon as their texts are read. The tests vary the chunks, let a reader or a
//! writer fail, and measure how much of a long input is held.

use crate::making::NULL;
use capn_make::{Form, MakeFault, Watched, make};
use std::alloc::Global;
use std::io::{self, Error, ErrorKind, Read, Write};
use std::test::Fail;
use test_allocator::Refusing;

/// A reader that gives `first`, and then `then`. If `fails`, it fails after `first` instead.
#[derive(Drop)]
struct Parted<'a> {
    first: &'a [u8],
    then: &'a [u8],
    fails: bool,
}

impl Read for Parted<'_> {
    fn read(&mut self, buf: &mut [u8]) -> io::Result<usize> {
        if self.first.is_empty() {
            if self.fails {
                return Err(Error::from(ErrorKind::Other));
            }
            self.first = self.then;
            self.then = b"";
        }
        let len = self.first.len().min(buf.len());
        buf[..len].copy_from_slice(&self.first[..len]);
        self.first = &self.first[len..];
        Ok(len)
    }
}

/// A writer that takes the next `left - 1` calls, and fails at each later one. If `left` is 0, it never fails.
#[derive(Drop)]
struct Breaking {
    bytes: Vec<u8>,
    left: u64,
}

impl Write for Breaking {
    fn write(&mut self, buf: &[u8]) -> io::Result<usize> {
        if self.left == 1 {
            return Err(Error::from(ErrorKind::Other));
        }
        self.left = self.left.saturating_sub(1);
        self.bytes.extend_from_slice(buf)?;
        Ok(buf.len())
    }

    fn flush(&mut self) -> io::Result<()> {
        Ok(())
    }
}

/// Returns the result and the output of a run over `parted`. The writer fails from call `fails_at` on (0: never).
fn run_parted(
    alloc: Global,
    form: Form,
    parted: Parted,
    fails_at: u64,
) -> (Result<(), MakeFault>, Vec<u8>) {
    let mut reader = Watched::new(parted);
    let mut writer = Watched::new(Breaking {
        bytes: Vec::new(alloc),
        left: fails_at,
    });
    let outcome = make(alloc, form, &mut reader, &mut writer);
    let _ = reader.into_inner();
    (outcome, writer.into_inner().bytes)
}

/// The texts of two values. The first ends after 70 bytes, the second after 79.
const TEXTS: &[u8] =
    b"struct 2 1\n  word 0000000000000005\n  word 0000000000000000\n  null\nend\nnull\nend\n";

/// The number of bytes of the first text, and of both.
const WHOLE: [usize; 2] = [70, 79];

/// The messages of `TEXTS` in the form `stream`.
const FRAMES: &[u8] = b"\0\0\0\0\x02\0\0\0\0\0\0\0\x01\0\0\0\x05\0\0\0\0\0\0\0\
    \0\0\0\0\x01\0\0\0\0\0\0\0\0\0\0\0";

/// The number of bytes of the first message in `FRAMES`.
const FIRST_FRAME: usize = 24;

/// The messages of `TEXTS` in the form `packed`.
const PACKED: &[u8] = b"\x10\x02\x10\x01\x01\x05\x10\x01\0\0";

/// The number of bytes of the first message in `PACKED`.
const FIRST_PACKED: usize = 6;

#[test]
fn parted_at_each_byte(rt: HostRuntime) {
    for (form, messages) in [(Form::Stream, FRAMES), (Form::Packed, PACKED)] {
        for at in 0..=TEXTS.len() {
            let (first, then) = TEXTS.split_at(at);
            let parted = Parted {
                first,
                then,
                fails: false,
            };
            let (outcome, written) = run_parted(rt.alloc(), form, parted, 0);
            assert!(rt; outcome == Ok(()), "{at}");
            assert!(rt; written.as_slice() == messages, "{at}");
        }
    }
}

/// Returns the part of `messages` that a run writes if it reads only the first `bytes` bytes of `TEXTS`. The first
/// message has `first` bytes.
fn heard(messages: &'static [u8], first: usize, bytes: usize) -> &'static [u8] {
    if bytes < WHOLE[0] {
        b""
    } else if bytes < WHOLE[1] {
        &messages[..first.min(messages.len())]
    } else {
        messages
    }
}

#[test]
fn a_reader_that_fails_after_each_byte(rt: HostRuntime) {
    for (form, messages, first) in [
        (Form::Stream, FRAMES, FIRST_FRAME),
        (Form::Packed, PACKED, FIRST_PACKED),
        (Form::Bare, b"".as_slice(), 0),
    ] {
        for at in 0..=TEXTS.len() {
            // In the form `bare` a second text is refused before the reader fails.
            if let (Form::Bare, true) = (form, at > 74) {
                continue;
            }
            let parted = Parted {
                first: &TEXTS[..at],
                then: b"",
                fails: true,
            };
            let (outcome, written) = run_parted(rt.alloc(), form, parted, 0);
            assert!(rt; outcome == Err(MakeFault::Io), "{at}");
            assert!(rt; written.as_slice() == heard(messages, first, at), "{at}");
        }
    }
}

#[test]
fn a_writer_that_fails_at_each_write(rt: HostRuntime) {
    let (first, then) = TEXTS.split_at(WHOLE[0]);
    for (fails_at, bytes) in [(1u64, 0usize), (2, FIRST_FRAME)] {
        let parted = Parted {
            first,
            then,
            fails: false,
        };
        let (outcome, written) = run_parted(rt.alloc(), Form::Stream, parted, fails_at);
        assert!(rt; outcome == Err(MakeFault::Io), "{fails_at}");
        assert!(rt; written.as_slice() == &FRAMES[..bytes], "{fails_at}");
    }
    let parted = Parted {
        first,
        then,
        fails: false,
    };
    let (outcome, _) = run_parted(rt.alloc(), Form::Stream, parted, 3);
    assert!(rt; outcome == Ok(()));
}

/// A reader that gives `begins`, then `again` as often as `times` says, then `ends`.
#[derive(Drop)]
pub(crate) struct Repeating<'a> {
    pub(crate) begins: &'a [u8],
    pub(crate) again: &'a [u8],
    pub(crate) times: u64,
    pub(crate) ends: &'a [u8],
}

impl Read for Repeating<'_> {
    fn read(&mut self, buf: &mut [u8]) -> io::Result<usize> {
        if self.begins.is_empty() {
            if self.times > 0 {
                self.times -= 1;
                self.begins = self.again;
            } else {
                self.begins = self.ends;
                self.ends = b"";
            }
        }
        let len = self.begins.len().min(buf.len());
        buf[..len].copy_from_slice(&self.begins[..len]);
        self.begins = &self.begins[len..];
        Ok(len)
    }
}

/// A writer that counts the bytes that it is given.
#[derive(Drop)]
pub(crate) struct Counting {
    pub(crate) bytes: u64,
}

impl Write for Counting {
    fn write(&mut self, buf: &[u8]) -> io::Result<usize> {
        self.bytes = self.bytes.saturating_add(buf.len() as u64);
        Ok(buf.len())
    }

    fn flush(&mut self) -> io::Result<()> {
        Ok(())
    }
}

/// Returns the number of bytes that a run writes, if it ends with `Ok` and no allocation is above `most` bytes.
fn written_within(alloc: Global, repeating: Repeating, most: usize) -> Option<u64> {
    let heap = Refusing::nth(alloc, 0);
    heap.refuse_above(most);
    let mut reader = Watched::new(repeating);
    let mut writer = Watched::new(Counting { bytes: 0 });
    let outcome = make(&heap, Form::Stream, &mut reader, &mut writer);
    let _ = reader.into_inner();
    match outcome {
        Ok(()) => Some(writer.into_inner().bytes),
        Err(_) => None,
    }
}

/// Texts are not kept after the chunk that they are in. The input has 200,001 texts, most of them in chunks of eight.
#[test]
fn many_texts_in_little_memory(rt: HostRuntime) {
    let repeating = Repeating {
        begins: NULL,
        again: b"null\nend\nnull\nend\nnull\nend\nnull\nend\nnull\nend\nnull\nend\nnull\nend\nnull\nend\n",
        times: 25_000,
        ends: b"",
    };
    assert!(rt; written_within(rt.alloc(), repeating, 1_024) == Some(3_200_016));
}

/// A text with a line of 16 MiB takes no allocation of much more than twice its bytes.
#[test]
fn a_line_of_16_mebibytes(rt: HostRuntime) -> Result<(), Fail> {
    let mut digits = Vec::new(rt.alloc());
    for _ in 0..32_768u32 {
        digits.extend_from_slice(b"7f")?;
    }
    let repeating = Repeating {
        begins: b"bytes 8388608\n  ",
        again: digits.as_slice(),
        times: 256,
        ends: b"\nend\n",
    };
    assert!(rt; written_within(rt.alloc(), repeating, 33_600_000) == Some(8_388_624));
    Ok(())
}
