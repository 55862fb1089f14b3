//! Tests of the runs over a stream and over an input in a given form, and of the bytes that a service adds.

use crate::picks::Once;
use crate::places::{Places, Single};
use capn_canon::{Form, Limits, Refusal};
use capn_pack::UnpackFault;
use capn_serve::{
    Position, Run, RunFault, ServeFault, add_bytes, run_messages, run_stream, serve_form,
};
use capn_stream::FrameFault;
use capn_words::{BareFault, Watched};
use std::alloc::{AllocError, Global};
use std::io::{self, ErrorKind, Read, Write};
use std::test::Fail;
use test_allocator::Refusing;

/// Two frames of 16 bytes, and one of 8 bytes.
const STREAM: [u8; 40] = [
    0, 0, 0, 0, 1, 0, 0, 0, 0, 0, 0, 0, 0, 0, 0, 0, 0, 0, 0, 0, 1, 0, 0, 0, 0, 0, 0, 0, 0, 0, 0, 0,
    0, 0, 0, 0, 0, 0, 0, 0,
];

/// The packed bytes of `STREAM`. The last group has the second root and the third frame.
const PACKED: [u8; 8] = [0x10, 1, 0, 0, 0x10, 1, 0, 1];

/// The output for the frames of `STREAM`.
const PLACES: [u8; 9] = [0, 0, 16, 1, 16, 16, 2, 32, 8];

/// The outcome of a run: its result, its output, and the position of the next message.
#[derive(Drop)]
struct Outcome {
    ending: Result<(), RunFault>,
    text: Vec<u8>,
    at: Position,
}

impl Outcome {
    /// Tests whether the run ended with `Ok` after `count` messages of `length` bytes, and wrote `text`.
    fn is_done(&self, text: &[u8], count: u64, length: u64) -> bool {
        let at = Position {
            index: count,
            offset: length,
        };
        self.ending == Ok(()) && self.text.as_slice() == text && self.at == at
    }

    /// Tests whether the run ended with `fault` after `count` messages of `STREAM`, and wrote their output.
    fn is_ended(&self, fault: RunFault, count: u8) -> bool {
        let at = place(count);
        let text = &PLACES[..3 * count.min(3) as usize];
        self.ending == Err(fault) && self.text.as_slice() == text && self.at == at
    }
}

/// Returns the position after `count` frames of 16 bytes.
fn place(count: u8) -> Position {
    Position {
        index: count as u64,
        offset: 16 * count as u64,
    }
}

/// Runs over the stream `input`, whose messages may have `most` words, and whose length may be `limit`.
fn streamed<R: Read + Drop>(alloc: Global, input: R, most: u8, limit: u64) -> Outcome {
    let mut run = Run::new(Places);
    let mut reader = Watched::new(input);
    let mut writer = Watched::new(Vec::new(alloc));
    let ending = run_stream(
        alloc,
        most as u32,
        limit,
        &mut run,
        &mut reader,
        &mut writer,
    );
    let Run { service: _, at } = run;
    Outcome {
        ending,
        text: writer.into_inner(),
        at,
    }
}

/// Messages are served whatever the number of bytes of a read, within a limit of just the length of the stream.
#[test]
fn a_stream_within_its_limits(rt: HostRuntime) {
    let at_once = streamed(rt.alloc(), STREAM.as_slice(), 1, 40);
    assert!(rt; at_once.is_done(&PLACES, 3, 40));
    let one_by_one = streamed(rt.alloc(), Single { bytes: &STREAM }, 1, u64::MAX);
    assert!(rt; one_by_one.is_done(&PLACES, 3, 40));
    let nothing = streamed(rt.alloc(), b"".as_slice(), 1, 0);
    assert!(rt; nothing.is_done(&[], 0, 0));
}

/// The messages before the fault are served.
#[test]
fn a_stream_that_ends_with_a_fault(rt: HostRuntime) {
    let alloc = rt.alloc();
    let long = streamed(alloc, STREAM.as_slice(), 1, 39);
    assert!(rt; long.is_ended(RunFault::InputTooLong, 2));
    let words = Refusal::Frame(FrameFault::TooManyWords(1));
    let large = streamed(alloc, STREAM.as_slice(), 0, 40);
    assert!(rt; large.is_ended(RunFault::Refused(place(0), words), 0));
    let cut = Refusal::Frame(FrameFault::Cut);
    let short = streamed(alloc, &STREAM[..31], 1, 40);
    assert!(rt; short.is_ended(RunFault::Refused(place(1), cut), 1));
    let broken = Once {
        bytes: &STREAM[..31],
        is_over: false,
    };
    assert!(rt; streamed(alloc, broken, 1, 40).is_ended(RunFault::Io, 1));
}

/// Runs over `input` in `form`.
fn formed<R: Read + Drop>(alloc: Global, form: Form, input: R) -> Outcome {
    let mut run = Run::new(Places);
    let mut reader = Watched::new(input);
    let mut writer = Watched::new(Vec::new(alloc));
    let ending = serve_form(alloc, form, 1, &mut run, &mut reader, &mut writer);
    let Run { service: _, at } = run;
    Outcome {
        ending,
        text: writer.into_inner(),
        at,
    }
}

/// A stream has the same messages packed or not. As a bare input it is one message.
#[test]
fn an_input_in_each_form(rt: HostRuntime) {
    let stream = formed(rt.alloc(), Form::Stream, STREAM.as_slice());
    assert!(rt; stream.is_done(&PLACES, 3, 40));
    let packed = formed(rt.alloc(), Form::Packed, PACKED.as_slice());
    assert!(rt; packed.is_done(&PLACES, 3, 40));
    let bare = formed(rt.alloc(), Form::Bare, STREAM.as_slice());
    assert!(rt; bare.is_done(&[0, 0, 40], 1, 40));
}

#[test]
fn a_refused_input_in_each_form(rt: HostRuntime) {
    let cut = Refusal::Frame(FrameFault::Cut);
    let stream = formed(rt.alloc(), Form::Stream, &STREAM[..31]);
    assert!(rt; stream.is_ended(RunFault::Refused(place(1), cut), 1));
    let group = Refusal::Packed(UnpackFault::Cut { at: 6 });
    let packed = formed(rt.alloc(), Form::Packed, &PACKED[..7]);
    assert!(rt; packed.is_ended(RunFault::Refused(place(1), group), 1));
    let rest = Refusal::Bare(BareFault::NotWhole(31));
    let bare = formed(rt.alloc(), Form::Bare, &STREAM[..31]);
    assert!(rt; bare.is_ended(RunFault::Refused(place(0), rest), 0));
    for form in [Form::Stream, Form::Packed, Form::Bare] {
        let broken = Once {
            bytes: &[],
            is_over: true,
        };
        assert!(rt; formed(rt.alloc(), form, broken).is_ended(RunFault::Io, 0));
    }
}

/// A writer that takes `room` bytes, and then fails.
#[derive(Drop)]
struct Narrow {
    bytes: Vec<u8>,
    room: usize,
}

impl Write for Narrow {
    fn write(&mut self, buf: &[u8]) -> io::Result<usize> {
        let count = self.room.min(buf.len());
        if count == 0 && !buf.is_empty() {
            return Err(ErrorKind::Other.into());
        }
        self.bytes.extend_from_slice(&buf[..count])?;
        self.room -= count;
        Ok(count)
    }

    fn flush(&mut self) -> io::Result<()> {
        Ok(())
    }
}

/// Adds `bytes` after the text `ab`, to a writer with the given room. Returns the result, the written bytes, and the
/// text that is left.
fn added(
    alloc: Global,
    bytes: &[u8],
    room: usize,
) -> Result<(Result<(), ServeFault>, Vec<u8>, Vec<u8>), AllocError> {
    let mut text = Vec::new(alloc);
    text.extend_from_slice(b"ab")?;
    let mut writer = Watched::new(Narrow {
        bytes: Vec::new(alloc),
        room,
    });
    let ending = add_bytes(bytes, &mut text, &mut writer);
    let Narrow { bytes, room: _ } = writer.into_inner();
    Ok((ending, bytes, text))
}

/// Bytes are written at once if there are 65,536 of them with the text. Fewer bytes are appended to the text.
#[test]
fn short_and_long_bytes(rt: HostRuntime) -> Result<(), Fail> {
    let bytes = [7; 65_534];
    let (ending, written, text) = added(rt.alloc(), &bytes[..3], 0)?;
    assert!(rt; ending == Ok(()) && written.is_empty());
    assert!(rt; text.as_slice() == [97, 98, 7, 7, 7].as_slice());
    let (ending, written, text) = added(rt.alloc(), &bytes[..65_533], 0)?;
    assert!(rt; ending == Ok(()) && written.is_empty() && text.len() == 65_535);
    let (ending, written, text) = added(rt.alloc(), &bytes, 65_536)?;
    assert!(rt; ending == Ok(()) && text.is_empty());
    assert!(rt; written.len() == 65_536 && written.as_slice().starts_with(b"ab\x07\x07"));
    Ok(())
}

/// If the writer fails, a prefix of the text and the bytes was written.
#[test]
fn long_bytes_that_are_not_written(rt: HostRuntime) -> Result<(), Fail> {
    let bytes = [7; 65_534];
    let (ending, written, _text) = added(rt.alloc(), &bytes, 3)?;
    assert!(rt; ending == Err(ServeFault::Io) && written.as_slice() == b"ab\x07".as_slice());
    Ok(())
}

/// If memory for short bytes is refused, nothing is added.
#[test]
fn short_bytes_without_memory(rt: HostRuntime) {
    let heap = Refusing::nth(rt.alloc(), 0);
    heap.refuse_each();
    let mut text = Vec::new(&heap);
    let mut writer = Watched::new(Vec::new(rt.alloc()));
    let ending = add_bytes(b"abc", &mut text, &mut writer);
    assert!(rt; ending == Err(ServeFault::Memory) && text.is_empty());
    assert!(rt; writer.into_inner().is_empty());
}

/// Returns the result of a run of the service `Places` over `input` in `form`, and the output.
fn counted(alloc: Global, form: Form, input: &[u8]) -> (Result<u64, RunFault>, Vec<u8>) {
    let mut reader = Watched::new(input);
    let mut writer = Watched::new(Vec::new(alloc));
    let found = run_messages(
        alloc,
        form,
        Limits::usual(),
        Places,
        &mut reader,
        &mut writer,
    );
    (found, writer.into_inner())
}

/// A run ends with the outcome of its service after the last message, or with the fault of its service.
#[test]
fn a_run_from_the_first_message_to_the_result(rt: HostRuntime) {
    let (three, text) = counted(rt.alloc(), Form::Stream, &STREAM);
    assert!(rt; three == Ok(3) && text.as_slice() == PLACES.as_slice());
    let (unpacked, text) = counted(rt.alloc(), Form::Packed, &PACKED);
    assert!(rt; unpacked == Ok(3) && text.as_slice() == PLACES.as_slice());
    let (cut, text) = counted(rt.alloc(), Form::Stream, &STREAM[..31]);
    let fault = RunFault::Refused(place(1), Refusal::Frame(FrameFault::Cut));
    assert!(rt; cut == Err(fault) && text.as_slice() == &PLACES[..3]);
    let (bare, text) = counted(rt.alloc(), Form::Bare, &STREAM[..9]);
    let fault = RunFault::Refused(place(0), Refusal::Bare(BareFault::NotWhole(9)));
    assert!(rt; bare == Err(fault) && text.is_empty());
}
