//! Calls on streams and packed bytes, to be tested with refused allocations.

use crate::subject::{Answer, MOST, Subject, judged, judged_message, wanting};
use capn_pack::{PackFault, UnpackFault, Unpacker, pack, unpack};
use capn_stream::{FrameFault, Framer, ReadFault, first, frame, read_message};
use capn_words::Watched;
use std::alloc::Global;
use test_allocator::Refusing;

pub(crate) fn first_answer(of: &Subject, short: &Refusing<Global>) -> Answer {
    match first(short, of.stream, MOST) {
        Ok((message, _)) => judged_message(of, &message),
        Err(FrameFault::Memory) => Answer::Memory,
        Err(_) => Answer::Wrong,
    }
}

pub(crate) fn frame_answer(of: &Subject, short: &Refusing<Global>) -> Answer {
    match frame(short, &of.message) {
        Ok(text) => judged(text.as_slice() == of.stream),
        Err(_) => Answer::Memory,
    }
}

/// Returns the outcome of feeding the stream to `framer`. After a refused allocation the framer must have no message,
/// and must fail when it is fed again.
fn fed_answer(of: &Subject, framer: &mut Framer<&Refusing<Global>>) -> Answer {
    match framer.feed(of.stream) {
        Ok(_) => match framer.take() {
            Some(message) => judged_message(of, &message),
            None => Answer::Wrong,
        },
        Err(FrameFault::Memory) => wanting(
            framer.take().is_none() && matches!(framer.feed(of.stream), Err(FrameFault::Failed)),
        ),
        Err(_) => Answer::Wrong,
    }
}

pub(crate) fn feed_answer(of: &Subject, short: &Refusing<Global>) -> Answer {
    let mut framer = Framer::new(short, MOST);
    fed_answer(of, &mut framer)
}

pub(crate) fn read_answer(of: &Subject, short: &Refusing<Global>) -> Answer {
    let mut reader = Watched::new(of.stream);
    match read_message(short, &mut reader, MOST) {
        Ok(Some(message)) => judged_message(of, &message),
        Err(ReadFault::Memory) => Answer::Memory,
        _ => Answer::Wrong,
    }
}

pub(crate) fn pack_answer(of: &Subject, short: &Refusing<Global>) -> Answer {
    match pack(short, of.stream) {
        Ok(text) => judged(text.as_slice() == of.packed.as_slice()),
        Err(PackFault::Memory) => Answer::Memory,
        Err(_) => Answer::Wrong,
    }
}

pub(crate) fn unpack_answer(of: &Subject, short: &Refusing<Global>) -> Answer {
    match unpack(short, of.packed.as_slice(), MOST) {
        Ok(bytes) => judged(bytes.as_slice() == of.stream),
        Err(UnpackFault::Memory) => Answer::Memory,
        Err(_) => Answer::Wrong,
    }
}

/// Returns the outcome of a new unpacker that appends to `bytes`. After a refused allocation `bytes` must be a prefix
/// of the stream, and the unpacker must fail at the next call.
fn unpacked_answer(of: &Subject, bytes: &mut Vec<u8, &Refusing<Global>>) -> Answer {
    let mut unpacker = Unpacker::new();
    match unpacker.feed(of.packed.as_slice(), bytes) {
        Ok(()) => judged(bytes.as_slice() == of.stream),
        Err(UnpackFault::Memory) => wanting(
            of.stream.starts_with(bytes.as_slice())
                && matches!(unpacker.finish(), Err(UnpackFault::Failed)),
        ),
        Err(_) => Answer::Wrong,
    }
}

/// Returns the outcome of an unpacker that appends to an empty vector.
pub(crate) fn feed_packed_answer(of: &Subject, short: &Refusing<Global>) -> Answer {
    let mut bytes = Vec::new(short);
    unpacked_answer(of, &mut bytes)
}
