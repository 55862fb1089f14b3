//! Tests of `pick` over handmade messages.

ghost use Rattle.capn_serve.specs.Pick.{AreAscending};

use capn_canon::{Form, Limits, Refusal};
use capn_serve::{Pick, Position, Range, RunFault, StreamForm, run_only, run_pick};
use capn_stream::FrameFault;
use capn_words::Watched;
use std::alloc::Global;
use std::io::{self, Read};
use std::test::Fail;

/// A reader that gives its bytes in the first call, and fails in the next.
#[derive(Drop)]
pub(crate) struct Once<'a> {
    pub(crate) bytes: &'a [u8],
    pub(crate) is_over: bool,
}

impl Read for Once<'_> {
    fn read(&mut self, buf: &mut [u8]) -> io::Result<usize> {
        if self.is_over {
            return Err(io::ErrorKind::Other.into());
        }
        self.is_over = true;
        let count = self.bytes.len().min(buf.len());
        buf[..count].copy_from_slice(&self.bytes[..count]);
        Ok(count)
    }
}

/// The output of a run, and its result.
#[derive(Drop)]
struct Outcome {
    text: Vec<u8>,
    ending: Result<(), RunFault>,
}

/// Picks the messages `from` to `to` of `bytes`. The reader gives `bytes` in one call, and fails at the next.
fn picked(alloc: Global, form: StreamForm, from: u64, to: u64, bytes: &[u8]) -> Outcome {
    let pick = Pick {
        form,
        limits: Limits::usual(),
        from,
        to,
    };
    let mut reader = Watched::new(Once {
        bytes,
        is_over: false,
    });
    let mut writer = Watched::new(Vec::new(alloc));
    let ending = run_pick(alloc, pick, &mut reader, &mut writer);
    Outcome {
        text: writer.into_inner(),
        ending,
    }
}

/// Three frames, and then the count of a frame with too many segments. The first has 16 bytes and a null root. The
/// second has 16 bytes, two empty segments, and a byte of padding that is not zero. The third has 8 bytes and one empty
/// segment.
const FRAMES: [u8; 48] = [
    0, 0, 0, 0, 1, 0, 0, 0, 0, 0, 0, 0, 0, 0, 0, 0, 1, 0, 0, 0, 0, 0, 0, 0, 0, 0, 0, 0, 9, 0, 0, 0,
    0, 0, 0, 0, 0, 0, 0, 0, 255, 255, 255, 255, 0, 0, 0, 0,
];

/// The packed bytes of the first two frames, and then a cut group.
const PACKED: [u8; 9] = [0x10, 1, 0, 0, 0x01, 1, 0x10, 9, 0];

/// Frames are written unchanged, with their padding, and nothing is read after the last one.
#[test]
fn picks_some_messages(rt: HostRuntime) -> Result<(), Fail> {
    let two = picked(rt.alloc(), StreamForm::Stream, 2, 3, &FRAMES);
    assert!(rt; two.ending == Ok(()) && two.text.as_slice() == &FRAMES[16..40]);
    let first = picked(rt.alloc(), StreamForm::Stream, 1, 1, &FRAMES);
    assert!(rt; first.ending == Ok(()) && first.text.as_slice() == &FRAMES[..16]);
    Ok(())
}

/// From a packed stream the unpacked bytes are written. A cut group after the last message is ignored.
#[test]
fn picks_packed_messages(rt: HostRuntime) -> Result<(), Fail> {
    let second = picked(rt.alloc(), StreamForm::Packed, 2, 2, &PACKED);
    assert!(rt; second.ending == Ok(()) && second.text.as_slice() == &FRAMES[16..32]);
    Ok(())
}

/// If the last message to pick has not been read, the reader is called again. That call fails here.
#[test]
fn reads_on_before_the_last_message(rt: HostRuntime) -> Result<(), Fail> {
    let three = picked(rt.alloc(), StreamForm::Stream, 1, 4, &FRAMES[..40]);
    assert!(rt; three.ending == Err(RunFault::Io) && three.text.as_slice() == &FRAMES[..40]);
    Ok(())
}

/// A refused frame before the last message to pick ends the run with the position of the frame.
#[test]
fn ends_at_a_refused_frame(rt: HostRuntime) -> Result<(), Fail> {
    let refused = picked(rt.alloc(), StreamForm::Stream, 2, 4, &FRAMES);
    let at = Position {
        index: 3,
        offset: 40,
    };
    let fault = Refusal::Frame(FrameFault::TooManySegments(4_294_967_296));
    assert!(rt; refused.ending == Err(RunFault::Refused(at, fault)));
    assert!(rt; refused.text.as_slice() == &FRAMES[16..40]);
    Ok(())
}

/// If the last number is less than the first, nothing is read.
#[test]
fn reads_nothing_of_no_messages(rt: HostRuntime) -> Result<(), Fail> {
    let pick = Pick {
        form: StreamForm::Stream,
        limits: Limits::usual(),
        from: 3,
        to: 2,
    };
    let mut reader = Watched::new(Once {
        bytes: &FRAMES,
        is_over: true,
    });
    let mut writer = Watched::new(Vec::new(rt.alloc()));
    let ending = run_pick(rt.alloc(), pick, &mut reader, &mut writer);
    assert!(rt; ending == Ok(()) && writer.into_inner().is_empty());
    Ok(())
}

/// Returns a frame of `words` zero words.
fn zeros(alloc: Global, words: u32) -> Result<Vec<u8>, Fail> {
    let mut frame = Vec::from_slice(alloc, &[0; 4])?;
    frame.extend_from_slice(&words.to_le_bytes())?;
    for _ in 0..words {
        frame.extend_from_slice(&[0; 8])?;
    }
    Ok(frame)
}

/// A frame of more than 65,536 bytes is written between the short ones before and after it.
#[test]
fn picks_a_long_message(rt: HostRuntime) -> Result<(), Fail> {
    let long = zeros(rt.alloc(), 9_000)?;
    let mut stream = Vec::from_slice(rt.alloc(), &FRAMES[..16])?;
    stream.extend_from_slice(long.as_slice())?;
    stream.extend_from_slice(&FRAMES[..16])?;
    let pick = Pick {
        form: StreamForm::Stream,
        limits: Limits::usual(),
        from: 1,
        to: 3,
    };
    let mut reader = Watched::new(stream.as_slice());
    let mut writer = Watched::new(Vec::new(rt.alloc()));
    let ending = run_pick(rt.alloc(), pick, &mut reader, &mut writer);
    assert!(rt; ending == Ok(()) && writer.into_inner().as_slice() == stream.as_slice());
    Ok(())
}

/// Picks the messages of `bytes` in `ranges`. The reader gives `bytes` in one call, and fails at the next.
fn picked_only(alloc: Global, form: StreamForm, ranges: &[Range], bytes: &[u8]) -> Outcome
    requires { AreAscending ranges.now }
{
    let mut reader = Watched::new(Once {
        bytes,
        is_over: false,
    });
    let mut writer = Watched::new(Vec::new(alloc));
    let limits = Limits::usual();
    let ending = run_only(alloc, form, limits, ranges, &mut reader, &mut writer);
    Outcome {
        text: writer.into_inner(),
        ending,
    }
}

/// The first and the third frame are written, the second is not, and nothing is read after the third.
#[test]
fn picks_ranges(rt: HostRuntime) -> Result<(), Fail> {
    let ranges = [Range { from: 1, to: 1 }, Range { from: 3, to: 3 }];
    let two = picked_only(rt.alloc(), StreamForm::Stream, &ranges, &FRAMES);
    assert!(rt; two.ending == Ok(()) && two.text.len() == 24);
    assert!(rt; &two.text.as_slice()[..16] == &FRAMES[..16]);
    assert!(rt; &two.text.as_slice()[16..] == &FRAMES[32..40]);
    Ok(())
}

/// Two adjacent ranges pick the messages that one range over both would pick.
#[test]
fn picks_adjacent_ranges(rt: HostRuntime) -> Result<(), Fail> {
    let ranges = [Range { from: 1, to: 2 }, Range { from: 3, to: 3 }];
    let all = picked_only(rt.alloc(), StreamForm::Stream, &ranges, &FRAMES);
    assert!(rt; all.ending == Ok(()) && all.text.as_slice() == &FRAMES[..40]);
    Ok(())
}

/// Ranges pick from a packed stream, too. A cut group after the last message is ignored.
#[test]
fn picks_packed_ranges(rt: HostRuntime) -> Result<(), Fail> {
    let second = picked_only(
        rt.alloc(),
        StreamForm::Packed,
        &[Range { from: 2, to: 2 }],
        &PACKED,
    );
    assert!(rt; second.ending == Ok(()) && second.text.as_slice() == &FRAMES[16..32]);
    Ok(())
}

/// A frame that is refused before the last range ends the run, after the messages picked before it have been written.
#[test]
fn ends_between_ranges(rt: HostRuntime) -> Result<(), Fail> {
    let ranges = [Range { from: 2, to: 2 }, Range { from: 9, to: 12 }];
    let refused = picked_only(rt.alloc(), StreamForm::Stream, &ranges, &FRAMES);
    let at = Position {
        index: 3,
        offset: 40,
    };
    let fault = Refusal::Frame(FrameFault::TooManySegments(4_294_967_296));
    assert!(rt; refused.ending == Err(RunFault::Refused(at, fault)));
    assert!(rt; refused.text.as_slice() == &FRAMES[16..32]);
    Ok(())
}

/// If there are fewer messages than the ranges name, those that exist are picked.
#[test]
fn picks_fewer_than_asked_for(rt: HostRuntime) -> Result<(), Fail> {
    let ranges = [
        Range { from: 2, to: 2 },
        Range { from: 3, to: 9 },
        Range {
            from: 20,
            to: u64::MAX,
        },
    ];
    let mut reader = Watched::new(&FRAMES[..40]);
    let mut writer = Watched::new(Vec::new(rt.alloc()));
    let (alloc, limits) = (rt.alloc(), Limits::usual());
    let ending = run_only(
        alloc,
        StreamForm::Stream,
        limits,
        &ranges,
        &mut reader,
        &mut writer,
    );
    assert!(rt; ending == Ok(()) && writer.into_inner().as_slice() == &FRAMES[16..40]);
    Ok(())
}

/// Without a range nothing is read.
#[test]
fn reads_nothing_for_no_range(rt: HostRuntime) -> Result<(), Fail> {
    let mut reader = Watched::new(Once {
        bytes: &FRAMES,
        is_over: true,
    });
    let mut writer = Watched::new(Vec::new(rt.alloc()));
    let (alloc, limits) = (rt.alloc(), Limits::usual());
    let ending = run_only(
        alloc,
        StreamForm::Stream,
        limits,
        &[],
        &mut reader,
        &mut writer,
    );
    assert!(rt; ending == Ok(()) && writer.into_inner().is_empty());
    Ok(())
}

/// A stream that is packed is an input in the packed form, and any other stream is one in the form of a stream.
#[test]
fn forms_of_streams(rt: HostRuntime) {
    assert!(rt; StreamForm::Stream.form() == Form::Stream);
    assert!(rt; StreamForm::Packed.form() == Form::Packed);
}
