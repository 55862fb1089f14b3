//! Tests of the sizes of the allocations of calls on big messages. No memory may be allocated before the input is known
//! to need it.

use crate::refused::{CALLS, Call, answer};
use crate::short_values::growths_of_four;
use crate::subject::{Answer, Subject, chain, limits, subject_of};
use crate::words::bytes_of;
use capn_canon::{Form, Refusal, canonicalise, is_canonical};
use capn_pack::{UnpackFault, unpack};
use capn_stream::{FrameFault, first, frame};
use capn_walk::{Fault, walk};
use capn_words::Bare;
use std::alloc::{AllocError, Global};
use std::process::Abort;
use std::test::Fail;
use test_allocator::Refusing;

/// Returns the stream of a message of one segment.
pub(crate) fn stream_of(alloc: Global, segment: &[u8]) -> Result<Vec<u8>, AllocError> {
    let count = (segment.len() / 8) as u64;
    let mut stream = bytes_of(alloc, &[count << 32])?;
    stream.extend_from_slice(segment)?;
    Ok(stream)
}

/// Returns the bytes of the word `root` and of `count` words of all kinds.
fn segment_of(alloc: Global, root: u64, count: u64) -> Result<Vec<u8>, AllocError> {
    let mut words = Vec::new(alloc);
    words.push(root)?;
    for number in 1..=count {
        words.push(number.wrapping_mul(0x9e37_79b9_7f4a_7c15))?;
    }
    bytes_of(alloc, words.as_slice())
}

/// Returns a segment with a list of eight-byte numbers, one mebibyte in all.
pub(crate) fn long_list(alloc: Global) -> Result<Vec<u8>, AllocError> {
    segment_of(alloc, 0x10_0005_0000_0001, 131_072)
}

/// Returns a segment with a list of eight-byte numbers, a quarter of a mebibyte in all.
fn list_of_a_quarter(alloc: Global) -> Result<Vec<u8>, AllocError> {
    segment_of(alloc, 0x4_0005_0000_0001, 32_768)
}

/// Returns a segment with a struct of 65,535 words.
fn wide_struct(alloc: Global) -> Result<Vec<u8>, AllocError> {
    segment_of(alloc, 0xffff_0000_0000, 65_535)
}

/// Checks that the outcome of `call` is right, and that no allocation of it is above `most` bytes.
fn within(rt: &impl Abort, of: &Subject, name: &str, call: Call, most: usize) {
    let heap = Refusing::nth(of.alloc, 0);
    heap.refuse_above(most);
    let told = answer(of, &heap, call);
    let greatest = heap.greatest();
    assert!(rt;
        matches!(told, Answer::Right),
        "{name}, growths of {greatest} bytes"
    );
}

/// Checks the allocations of each call for a message of one segment. Eight of the calls use a small input of their own
/// instead.
fn through_each(rt: &impl Abort, alloc: Global, segment: &[u8]) -> Result<(), Fail> {
    let stream = stream_of(alloc, segment)?;
    stream_through_each(rt, alloc, stream.as_slice())
}

/// Checks each call on the message of `stream`. No allocation may exceed 256 KiB plus eight times the stream's length.
pub(crate) fn stream_through_each(
    rt: &impl Abort,
    alloc: Global,
    stream: &[u8],
) -> Result<(), Fail> {
    let of = subject_of(alloc, stream)?;
    let most = stream.len().saturating_mul(8).saturating_add(1 << 18);
    for (name, call) in CALLS {
        within(rt, &of, name, call, most);
    }
    Ok(())
}

#[test]
fn a_long_list_through_each_call(rt: HostRuntime) -> Result<(), Fail> {
    let list = list_of_a_quarter(rt.alloc())?;
    through_each(&rt, rt.alloc(), list.as_slice())
}

/// Each call is checked with a struct of 16,383 words.
#[test]
fn a_wide_struct_through_each_call(rt: HostRuntime) -> Result<(), Fail> {
    let data = segment_of(rt.alloc(), 0x3fff_0000_0000, 16_383)?;
    through_each(&rt, rt.alloc(), data.as_slice())
}

/// Each call is checked with structs that are nested 256 deep. That is the greatest depth that a limit allows.
#[test]
fn the_greatest_height_through_each_call(rt: HostRuntime) -> Result<(), Fail> {
    let deep = chain(rt.alloc(), 255)?;
    through_each(&rt, rt.alloc(), deep.as_slice())
}

/// Big messages are found canonical without memory. A frame takes one allocation of its length. Items take one
/// allocation if room for all of them is allocated at once.
#[test]
fn exact_growths(rt: HostRuntime) -> Result<(), Fail> {
    let heap = Refusing::nth(rt.alloc(), 0);
    let list = long_list(rt.alloc())?;
    assert!(rt; is_canonical(&heap, list.as_slice(), limits(64)) == Ok(true));
    let data = wide_struct(rt.alloc())?;
    assert!(rt; is_canonical(&heap, data.as_slice(), limits(64)) == Ok(true));
    let stream = stream_of(rt.alloc(), list.as_slice())?;
    let Ok((message, _)) = first(&heap, stream.as_slice(), 268_435_456) else {
        return Err(Fail::new("no message"));
    };
    assert!(rt; heap.count() == 0);
    assert!(rt; frame(&heap, &message).is_ok());
    assert!(rt; heap.count() == 1 && heap.greatest() == stream.len());
    assert!(rt; growths_of_four(rt.alloc())? == 1);
    Ok(())
}

/// Tests whether the walk and `canonicalise` both stop with the fault `want`, and make no allocation of more than a
/// kibibyte.
fn stops_small(alloc: Global, words: &[u64], want: Fault) -> Result<bool, AllocError> {
    let bytes = bytes_of(alloc, words)?;
    let heap = Refusing::nth(alloc, 0);
    let is_stopped = match Bare::new(bytes.as_slice()) {
        Ok(bare) => match walk(&heap, &bare, limits(64)) {
            Ok(_) => false,
            Err(stopped) => stopped.fault == want,
        },
        Err(_) => false,
    };
    let is_refused = match canonicalise(&heap, Form::Bare, bytes.as_slice(), limits(64)) {
        Err(Refusal::Walk(stopped)) => stopped.fault == want,
        _ => false,
    };
    Ok(is_stopped && is_refused && heap.greatest() <= 1_024)
}

/// At most a kibibyte at a time is allocated for lists that exceed the budget or the message: lists without bits, rows
/// without words, and lists of bytes.
#[test]
fn no_memory_before_it_is_paid(rt: HostRuntime) -> Result<(), Fail> {
    let alloc = rt.alloc();
    let voids = [0x1_0000_0000_0000, 0xffff_fff8_0000_0001];
    assert!(rt; stops_small(alloc, &voids, Fault::OverBudget)?);
    assert!(rt; stops_small(alloc, &voids[1..], Fault::OverBudget)?);
    let rows = [0x1_0000_0000_0000, 0x7_0000_0001, 0x7fff_fffc];
    assert!(rt; stops_small(alloc, &rows, Fault::OverBudget)?);
    let bytes = [0x1_0000_0000_0000, 0xffff_fffa_0000_0001];
    assert!(rt; stops_small(alloc, &bytes, Fault::Range)?);
    Ok(())
}

/// Tests whether `first` reports that `stream` is cut, and takes no memory.
fn is_cut(alloc: Global, stream: &[u8]) -> bool {
    let heap = Refusing::nth(alloc, 0);
    matches!(first(&heap, stream, 268_435_456), Err(FrameFault::Cut)) && heap.count() == 0
}

/// Tests whether `unpack` refuses `text` with `want`, or takes it if `want` is `None`. The limit on words is the
/// greatest, and no allocation may be above `most` bytes.
fn unpacks_small(alloc: Global, text: &[u8], want: Option<UnpackFault>, most: usize) -> bool {
    let heap = Refusing::nth(alloc, 0);
    let told = match unpack(&heap, text, u32::MAX) {
        Ok(_) => None,
        Err(fault) => Some(fault),
    };
    told == want && heap.greatest() <= most
}

/// No large allocation is made for the sizes that a table or a group announces before the bytes are there.
#[test]
fn no_memory_for_what_is_announced(rt: HostRuntime) {
    let alloc = rt.alloc();
    assert!(rt; is_cut(alloc, &[0, 0, 0, 0, 0, 0, 0, 0x10]));
    assert!(rt; is_cut(alloc, &[0xff, 0x0f, 0, 0]));
    assert!(rt; is_cut(alloc, &[1, 0, 0, 0, 0, 0, 0, 8, 0, 0, 0, 8, 0, 0, 0, 0]));
    assert!(rt; unpacks_small(alloc, &[0, 0], None, 8_192));
    let raw = [0xff, 1, 2, 3, 4, 5, 6, 7, 8, 255];
    let cut = Some(UnpackFault::Cut { at: 0 });
    assert!(rt; unpacks_small(alloc, &raw, cut, 8_192));
    assert!(rt;
        unpacks_small(
            alloc,
            &[0, 255, 0, 255, 0],
            Some(UnpackFault::Cut { at: 4 }),
            16_384
        )
    );
}
