//! Tests of the positions that are passed to a service. These tests define the service.

ghost use Rattle.std.specs.Prelude.{⊤, Ok};

use capn_canon::{Form, Refusal};
use capn_pack::UnpackFault;
use capn_serve::{
    Begun, Finish, Position, Run, RunFault, ServeFault, Service, flush_long, run_packed,
    serve_form_with,
};
use capn_stream::FrameFault;
use capn_words::{Space, Watched};
use std::alloc::{Allocator, Global};
use std::io::{self, Read, Write};
use std::test::Fail;

/// The service that writes three bytes for each message: its index, its offset, and the length of its frame.
#[derive(Drop)]
pub(crate) struct Places;

impl Service for Places {
    ghost use Rattle.capn_serve.specs.Fold.{never};

    ghost serves = { λ s at frame message text t. ⊤ };

    ghost refuses = { λ s at frame message r. ⊥ };

    ghost done = { never };

    fn is_done(&self, _at: Position) -> bool {
        false
    }

    fn serve<S: Space, W: Write, A: Allocator + Copy>(
        &mut self,
        _alloc: A,
        at: Position,
        frame: &[u8],
        _message: &S,
        text: &mut Vec<u8, A>,
        writer: &mut Watched<W>,
    ) -> Result<(), ServeFault> {
        let place = [
            (at.index % 256) as u8,
            (at.offset % 256) as u8,
            (frame.len() % 256) as u8,
        ];
        match text.extend_from_slice(&place) {
            Ok(()) => flush_long(text, writer),
            Err(_) => Err(ServeFault::Memory),
        }
    }
}

/// A run has the number of its messages as its result, and writes nothing after the messages.
impl Finish for Places {
    ghost use Rattle.capn_serve.specs.Finish.{no_closing, nothing_told};

    type Found = u64;

    type Fault = RunFault;

    ghost closing = { no_closing };

    ghost told = { nothing_told };

    ghost outcome = { λ s at. Ok at.index };

    ghost stops = { λ s at fault. fault };

    fn write_closing<W: Write, A: Allocator + Copy>(
        &self,
        _alloc: A,
        _at: Position,
        _writer: &mut Watched<W>,
    ) -> Result<(), RunFault> {
        Ok(())
    }

    fn write_told<W: Write, A: Allocator + Copy>(
        &self,
        _alloc: A,
        _at: Position,
        _refusal: &Refusal,
        _begun: &Begun<A>,
        _writer: &mut Watched<W>,
    ) -> Result<(), RunFault> {
        Ok(())
    }

    fn outcome(&self, at: Position) -> Result<u64, RunFault> {
        Ok(at.index)
    }

    fn stops(&self, _at: Position, stopped: RunFault) -> RunFault {
        stopped
    }
}

/// A reader that gives one byte at a time.
#[derive(Drop)]
pub(crate) struct Single<'a> {
    pub(crate) bytes: &'a [u8],
}

impl<'a> Read for Single<'a> {
    fn read(&mut self, buf: &mut [u8]) -> io::Result<usize> {
        match (self.bytes.split_first(), buf.first_mut()) {
            (Some((byte, rest)), Some(place)) => {
                *place = *byte;
                self.bytes = rest;
                Ok(1)
            }
            _ => Ok(0),
        }
    }
}

/// Returns the result and the output of a run over the packed `input` that unpacks at most `limit` bytes.
fn packed<R: Read + Drop>(alloc: Global, input: R, limit: u64) -> (Result<(), RunFault>, Vec<u8>) {
    let mut run = Run::new(Places);
    let mut reader = Watched::new(input);
    let mut writer = Watched::new(Vec::new(alloc));
    let ending = run_packed(
        alloc,
        1_024,
        u64::MAX,
        limit,
        &mut run,
        &mut reader,
        &mut writer,
    );
    let Run { service: _, at: _ } = run;
    (ending, writer.into_inner())
}

/// The packed bytes of two frames of 16 bytes and one of 8 bytes, which shares a group with the second.
const THREE: [u8; 8] = [0x10, 1, 0, 0, 0x10, 1, 0, 1];

/// The output for `THREE`.
const PLACES: [u8; 9] = [0, 0, 16, 1, 16, 16, 2, 32, 8];

/// Offsets are counted in the unpacked bytes, even if each packed byte is read by itself.
#[test]
fn packed_messages_in_many_chunks(rt: HostRuntime) -> Result<(), Fail> {
    let (ending, text) = packed(rt.alloc(), Single { bytes: &THREE }, u64::MAX);
    assert!(rt; ending == Ok(()) && text.as_slice() == PLACES.as_slice());
    Ok(())
}

/// The limit is on the unpacked bytes, and the messages within it are served.
#[test]
fn more_than_the_limit(rt: HostRuntime) -> Result<(), Fail> {
    let (within, all) = packed(rt.alloc(), THREE.as_slice(), 40);
    let (past, some) = packed(rt.alloc(), THREE.as_slice(), 39);
    assert!(rt; within == Ok(()) && all.as_slice() == PLACES.as_slice());
    assert!(rt;
        past == Err(RunFault::InputTooLong) && some.as_slice() == [0, 0, 16, 1, 16, 16].as_slice()
    );
    Ok(())
}

/// Returns the result of a run over `input` in `form`, and the parts that were read of the message and of the group at
/// which the run stopped.
fn stopped(alloc: Global, form: Form, input: &[u8]) -> (Result<(), RunFault>, Begun<Global>) {
    let mut run = Run::new(Places);
    let mut begun = Begun::new(alloc);
    let mut reader = Watched::new(Single { bytes: input });
    let mut writer = Watched::new(Vec::new(alloc));
    let ending = serve_form_with(
        alloc,
        form,
        1_024,
        &mut run,
        &mut begun,
        &mut reader,
        &mut writer,
    );
    let Run { service: _, at: _ } = run;
    (ending, begun)
}

/// Returns the error of a run that stops with `refusal` at a second frame, after a frame of 16 bytes.
fn second(refusal: Refusal) -> Result<(), RunFault> {
    let at = Position {
        index: 1,
        offset: 16,
    };
    Err(RunFault::Refused(at, refusal))
}

/// A frame of 16 bytes, and then the table of a segment of 2^32 - 1 words.
const LONG: [u8; 24] = [
    0, 0, 0, 0, 1, 0, 0, 0, 0, 0, 0, 0, 0, 0, 0, 0, 0, 0, 0, 0, 255, 255, 255, 255,
];

/// The part that was read of a frame is kept, if the frame is cut or has too many words.
#[test]
fn what_came_of_a_frame(rt: HostRuntime) -> Result<(), Fail> {
    let (ending, begun) = stopped(rt.alloc(), Form::Stream, &LONG[..22]);
    assert!(rt; ending == second(Refusal::Frame(FrameFault::Cut)));
    assert!(rt; begun.message() == &LONG[16..22] && begun.group().is_empty());
    let (ending, begun) = stopped(rt.alloc(), Form::Stream, &LONG);
    assert!(rt; ending == second(Refusal::Frame(FrameFault::TooManyWords(u64::from(u32::MAX)))));
    assert!(rt; begun.message() == &LONG[16..]);
    let (ending, begun) = stopped(rt.alloc(), Form::Stream, &LONG[..16]);
    assert!(rt; ending == Ok(()) && begun.message().is_empty());
    Ok(())
}

/// The unpacked bytes of a cut frame are kept, and the packed bytes of a cut group.
#[test]
fn what_came_of_a_group(rt: HostRuntime) -> Result<(), Fail> {
    let (ending, begun) = stopped(rt.alloc(), Form::Packed, &THREE[..6]);
    assert!(rt; ending == second(Refusal::Frame(FrameFault::Cut)));
    assert!(rt; begun.message() == &LONG[..8] && begun.group().is_empty());
    let (ending, begun) = stopped(rt.alloc(), Form::Packed, &THREE[..7]);
    assert!(rt; ending == second(Refusal::Packed(UnpackFault::Cut { at: 6 })));
    assert!(rt; begun.message() == &LONG[..8] && begun.group() == [0].as_slice());
    Ok(())
}
