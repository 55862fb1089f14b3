//! Tests of reading a message: the number of bytes that a call requests of the reader, and the number read in all.

use capn_stream::{FrameFault, ReadFault, read_message};
use capn_words::{MOST_MESSAGE_WORDS, Watched};
use std::alloc::{AllocError, Global};
use std::io::{self, Read};
use std::test::Fail;

/// A reader that remembers the greatest number of bytes that a call requested.
#[derive(Drop)]
struct Source<'a> {
    bytes: &'a [u8],
    asked: usize,
}

impl Read for Source<'_> {
    fn read(&mut self, buf: &mut [u8]) -> io::Result<usize> {
        self.asked = self.asked.max(buf.len());
        let count = buf.len().min(self.bytes.len());
        let (given, rest) = self.bytes.split_at(count);
        buf[..count].copy_from_slice(given);
        self.bytes = rest;
        Ok(count)
    }
}

/// Returns the frame of one segment of 100,000 words, and three bytes after it.
fn long_stream(alloc: Global) -> Result<Vec<u8>, AllocError> {
    let mut stream = Vec::new(alloc);
    stream.extend_from_slice(&[0; 4])?;
    stream.extend_from_slice(&100_000u32.to_le_bytes())?;
    stream.resize(800_011, 7)?;
    Ok(stream)
}

/// Returns the greatest number of bytes that a call requested while a message was read, and the number left to the
/// reader.
fn asked_and_left(alloc: Global, stream: &[u8]) -> Option<(usize, usize)> {
    let mut reader = Watched::new(Source {
        bytes: stream,
        asked: 0,
    });
    match read_message(alloc, &mut reader, MOST_MESSAGE_WORDS) {
        Ok(Some(_)) => {}
        _ => return None,
    }
    let source = reader.into_inner();
    Some((source.asked, source.bytes.len()))
}

#[test]
fn a_call_asks_for_no_more_than_16_384_bytes(rt: HostRuntime) -> Result<(), Fail> {
    let stream = long_stream(rt.alloc())?;
    assert_eq!(rt;
        asked_and_left(rt.alloc(), stream.as_slice()),
        Some((16_384, 3))
    );
    Ok(())
}

/// Streams that are refused, each with the reason and the number of bytes read. If the table is wrong, nothing is read
/// after the bytes that show the error. A stream that is cut is read to its end.
const REFUSED: [(&[u8], FrameFault, usize); 8] = [
    (
        &[0, 0x10, 0, 0, 1, 0, 0, 0, 2, 0, 0, 0],
        FrameFault::TooManySegments(4_097),
        4,
    ),
    (
        &[0xff, 0xff, 0xff, 0xff, 1],
        FrameFault::TooManySegments(4_294_967_296),
        4,
    ),
    (
        &[0, 0, 0, 0, 1, 0, 0, 0x10, 2, 0, 0, 0, 3],
        FrameFault::TooManyWords(268_435_457),
        8,
    ),
    (
        &[
            1, 0, 0, 0, 0xff, 0xff, 0xff, 0xff, 0xff, 0xff, 0xff, 0xff, 1, 2, 3, 4, 5, 6,
        ],
        FrameFault::TooManyWords(8_589_934_590),
        16,
    ),
    (
        &[
            2, 0, 0, 0, 0xff, 0xff, 0xff, 0xff, 1, 0, 0, 0, 0, 0, 0, 0, 5,
        ],
        FrameFault::TooManyWords(4_294_967_296),
        16,
    ),
    (&[0, 0x10], FrameFault::Cut, 2),
    (&[1, 0, 0, 0, 1, 0, 0, 0, 2, 0, 0, 0], FrameFault::Cut, 12),
    (
        &[0, 0, 0, 0, 2, 0, 0, 0, 1, 2, 3, 4, 5, 6, 7, 8, 9],
        FrameFault::Cut,
        17,
    ),
];

/// Returns the reason why the first message of `stream` is refused, and the number of bytes that were read.
fn refused(alloc: Global, stream: &[u8]) -> Option<(FrameFault, usize)> {
    let mut reader = Watched::new(stream);
    match read_message(alloc, &mut reader, MOST_MESSAGE_WORDS) {
        Err(ReadFault::Frame(fault)) => {
            Some((
                fault,
                stream.len().saturating_sub(reader.into_inner().len()),
            ))
        }
        _ => None,
    }
}

#[test]
fn a_refusal_reads_no_more_than_decides(rt: HostRuntime) {
    for (stream, fault, taken) in REFUSED {
        assert!(rt;
            refused(rt.alloc(), stream) == Some((fault, taken)),
            "{fault}"
        );
    }
}
