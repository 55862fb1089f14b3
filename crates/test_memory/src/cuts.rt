//! Tests of streams cut at every byte, and fed to a framer in chunks of several sizes.

use capn_stream::{FrameFault, Framer, first, frame};
use capn_words::Space;
use std::alloc::Global;
use std::test::Fail;

/// The limit on the words of a message, which is the default.
const MOST: u32 = 8_388_608;

/// Whole messages, messages that are followed by others, and streams that are refused. None is a prefix of another:
/// that prefix would be tested twice, because each stream is cut at every byte.
const STREAMS: [&str; 33] = [
    "00100000",
    "0002000000",
    "0000000000000000",
    "00000000ffffffff00",
    "01000000ffffffff00000000",
    "00000000010000000200000000000000",
    "00000000010000000200000001000000",
    "00000000010000000a00000000000000",
    "01000000ffffffffffffffff00000000",
    "00000000010000000700000000000000ffffffff",
    "000000000200000000000000000001000300000002000000",
    "000000000200000000000000010000000500000000000000ffff",
    "0000000002000000000000000100000005000000000000000000000000000000",
    "0000000003000000000000000000010001000000070000000100000000000000",
    "0000000003000000000000000200000005000000000000000000000000000000",
    "0100000001000000010000000000000002000000010000000000000000000000",
    "0100000001000000010000000000000002000000010000000200000000000000",
    "0100000001000000010000000000000006000000010000000200000000000000",
    "00000000040000000000000000000200040000000100000000000000010000000900000000000000",
    "01000000010000000200000000000000020000000100000000000000000001000200000001000000",
    "01000000010000000200000000000000060000000100000002000000000000000000000000000000",
    "01000000010000000200000000000000060000000100000002000000070000000000000000000000",
    "01000000010000000200000000000000060000000100000002000000070000000300000000000000",
    "01000000010000000200000000000000060000000100000006000000000000000000000000000000",
    "0100000001000000020000000000000006000000010000000a000000000000000000000000000000",
    "01000000010000000200000000000000060000000100000012000000000000000000000000000000",
    "010000000100000002000000aabbccdd020000000100000000000000010000000500000000000000",
    "0100000001000000020000000000000002000000010000000000000001000000050000000000000000",
    "0000000005000000000000000000010001000000170000000c0000000100000007000000000000000000000000000000",
    "020000000100000002000000010000000600000001000000020000000200000000000000010000000500000000000000",
    "0200000001000000020000000100000006000000010000000200000002000000fcffff7f010000000500000000000000",
    "000000000200000000000000010000000500000000000000000000000200000000000000010000000500000000000000ffffffff",
    "0000000002000000000000000100000005000000000000000000000003000000000000000200000005000000000000000000000000000000",
];

/// The frames of the messages that are read from a stream, and the fault that ended the reading, or `Ok`.
#[derive(Drop)]
struct Told {
    frames: Vec<u8>,
    ending: Result<(), FrameFault>,
}

fn rest_of(bytes: &[u8], at: usize) -> &[u8] {
    if at <= bytes.len() { &bytes[at..] } else { &[] }
}

/// Returns the first `len` bytes, or all if there are fewer.
pub(crate) fn start_of(bytes: &[u8], len: usize) -> &[u8] {
    if len <= bytes.len() {
        &bytes[..len]
    } else {
        bytes
    }
}

fn push_frame<S: Space>(
    frames: &mut Vec<u8>,
    alloc: Global,
    message: &S,
) -> Result<(), FrameFault> {
    match frame(alloc, message) {
        Ok(text) => Ok(frames.extend_from_slice(text.as_slice())?),
        Err(_) => Err(FrameFault::Memory),
    }
}

/// Appends the frame of each message that `first` reads from `bytes`. Returns the first fault, or `Ok` at the end.
fn take_each(alloc: Global, bytes: &[u8], frames: &mut Vec<u8>) -> Result<(), FrameFault> {
    let mut at = 0usize;
    for _ in 0..=bytes.len() {
        match first(alloc, rest_of(bytes, at), MOST) {
            Ok((message, taken)) => {
                push_frame(frames, alloc, &message)?;
                at = at.saturating_add(taken);
            }
            Err(FrameFault::Empty) => return Ok(()),
            Err(fault) => return Err(fault),
        }
    }
    Err(FrameFault::Memory)
}

/// Feeds `piece` to `framer`, and appends the frame of each message that becomes whole.
fn feed_piece(
    framer: &mut Framer,
    alloc: Global,
    piece: &[u8],
    frames: &mut Vec<u8>,
) -> Result<(), FrameFault> {
    let mut at = 0usize;
    for _ in 0..piece.len() {
        let taken = framer.feed(rest_of(piece, at))?;
        at = at.saturating_add(taken);
        if let Some(message) = framer.take() {
            push_frame(frames, alloc, &message)?;
        }
        if at >= piece.len() {
            break;
        }
    }
    Ok(())
}

/// Appends the frame of each message that a framer reads from `bytes`, fed `size` at a time. Returns the first fault,
/// or the result of `finish`.
fn feed_each(
    alloc: Global,
    bytes: &[u8],
    size: usize,
    frames: &mut Vec<u8>,
) -> Result<(), FrameFault> {
    let mut framer = Framer::new(alloc, MOST);
    let mut at = 0usize;
    for _ in 0..bytes.len() {
        let piece = start_of(rest_of(bytes, at), size);
        feed_piece(&mut framer, alloc, piece, frames)?;
        at = at.saturating_add(size);
        if at >= bytes.len() {
            break;
        }
    }
    framer.finish()
}

fn told_at_once(alloc: Global, bytes: &[u8]) -> Told {
    let mut frames = Vec::new(alloc);
    let ending = take_each(alloc, bytes, &mut frames);
    Told { frames, ending }
}

/// Returns the frames and the ending that a framer gives for `bytes`, fed `size` at a time.
fn told_in_pieces(alloc: Global, bytes: &[u8], size: usize) -> Told {
    let mut frames = Vec::new(alloc);
    let ending = feed_each(alloc, bytes, size, &mut frames);
    Told { frames, ending }
}

/// Tests whether a framer that is fed `size` bytes of `bytes` at a time returns the messages and the ending of `want`.
fn is_told(alloc: Global, bytes: &[u8], want: &Told, size: usize) -> bool {
    let told = told_in_pieces(alloc, bytes, size);
    told.ending == want.ending && told.frames.as_slice() == want.frames.as_slice()
}

/// Tests whether each prefix of `stream`, fed in chunks of each size, is read as `first` reads it.
fn are_told(alloc: Global, stream: &[u8]) -> bool {
    are_told_from(alloc, stream, 0)
}

/// Tests whether each prefix of `stream` of at least `least` bytes, fed in chunks of each size, is read as `first`
/// reads it.
fn are_told_from(alloc: Global, stream: &[u8], least: usize) -> bool {
    for len in least..=stream.len() {
        let bytes = start_of(stream, len);
        let want = told_at_once(alloc, bytes);
        for size in [1, 3, 7, stream.len()] {
            if !is_told(alloc, bytes, &want, size) {
                return false;
            }
        }
    }
    true
}

/// Returns the bytes of `digits` twice, one after the other.
fn twice(alloc: Global, digits: &str) -> Result<Vec<u8>, Fail> {
    let Ok(mut bytes) = hex::decode(alloc, digits) else {
        return Err(Fail::new("no digits"));
    };
    bytes.extend_from_within(..)?;
    Ok(bytes)
}

/// A framer reads every prefix of two copies of each stream as `first` does. The prefix ends in the first copy, or in
/// the second after a whole one.
#[test]
fn streams_cut_at_every_byte(rt: HostRuntime) -> Result<(), Fail> {
    for digits in &STREAMS {
        let bytes = twice(rt.alloc(), digits)?;
        assert!(rt; are_told(rt.alloc(), bytes.as_slice()), "{digits}");
    }
    Ok(())
}

/// Returns a message of `count + 1` segments. The first segment is a null word, and the others are empty.
pub(crate) fn long_table(alloc: Global, count: u32) -> Result<Vec<u8>, Fail> {
    let mut bytes = Vec::new(alloc);
    bytes.extend_from_slice(&count.to_le_bytes())?;
    bytes.extend_from_slice(&[1, 0, 0, 0])?;
    let words = count.div_ceil(2).saturating_add(1) as usize;
    bytes.resize(words.saturating_mul(8).saturating_add(8), 0)?;
    Ok(bytes)
}

/// Appends the frame of each message that a framer reads from `bytes`, fed the first `len` of them and then the rest.
/// Returns the first fault, or the result of `finish`.
fn feed_two(
    alloc: Global,
    bytes: &[u8],
    len: usize,
    frames: &mut Vec<u8>,
) -> Result<(), FrameFault> {
    let mut framer = Framer::new(alloc, MOST);
    feed_piece(&mut framer, alloc, start_of(bytes, len), frames)?;
    feed_piece(&mut framer, alloc, rest_of(bytes, len), frames)?;
    framer.finish()
}

/// Tests whether a framer that is fed the first `len` bytes of `bytes`, and then the rest, returns the messages and the
/// ending of `want`.
fn is_told_in_two(alloc: Global, bytes: &[u8], want: &Told, len: usize) -> bool {
    let mut frames = Vec::new(alloc);
    let ending = feed_two(alloc, bytes, len, &mut frames);
    ending == want.ending && frames.as_slice() == want.frames.as_slice()
}

/// Tests whether `stream`, cut into two chunks at each byte, and each prefix of it, fed at once, are read as `first`
/// reads them.
fn are_told_in_two(alloc: Global, stream: &[u8]) -> bool {
    let want = told_at_once(alloc, stream);
    for len in 1..=stream.len() {
        let bytes = start_of(stream, len);
        let cut = told_at_once(alloc, bytes);
        if !is_told(alloc, bytes, &cut, len) || !is_told_in_two(alloc, stream, &want, len) {
            return false;
        }
    }
    true
}

/// A table of 161 segments is cut at every byte, and a longer one in two chunks. The longest table allowed is cut in
/// its first words and in its last words. A longer table is refused at its fourth byte.
#[test]
fn long_tables_cut_at_every_byte(rt: HostRuntime) -> Result<(), Fail> {
    let many = long_table(rt.alloc(), 160)?;
    assert!(rt; many.len() == 656 && are_told(rt.alloc(), many.as_slice()));
    let long = long_table(rt.alloc(), 512)?;
    assert!(rt; long.len() == 2_064 && are_told_in_two(rt.alloc(), long.as_slice()));
    assert!(rt; are_told_from(rt.alloc(), long.as_slice(), 2_040));
    let longest = long_table(rt.alloc(), 4_095)?;
    assert!(rt; are_told(rt.alloc(), start_of(longest.as_slice(), 64)));
    assert!(rt; longest.len() == 16_400 && are_told_from(rt.alloc(), longest.as_slice(), 16_370));
    let too_long = long_table(rt.alloc(), 4_096)?;
    assert!(rt; are_told(rt.alloc(), start_of(too_long.as_slice(), 64)));
    Ok(())
}
