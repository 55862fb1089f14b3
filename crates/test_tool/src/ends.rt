//! Tests of runs over slow or failing readers and writers: their results, and what they wrote.

use crate::slow::{Ending, Run, ended};
use capn_canon::{Form, Refusal};
use capn_pack::UnpackFault;
use capn_stream::FrameFault;
use capn_tool::*;
use capn_walk::Limits;
use std::alloc::Global;
use std::process::Abort;

/// A bare message: a struct with a trailing zero word, of 24 bytes.
const BARE: [u8; 24] = [
    0, 0, 0, 0, 2, 0, 0, 0, 5, 0, 0, 0, 0, 0, 0, 0, 0, 0, 0, 0, 0, 0, 0, 0,
];

/// The canonical bytes of `BARE`, 16 of them.
const CANONICAL: [u8; 16] = [0, 0, 0, 0, 1, 0, 0, 0, 5, 0, 0, 0, 0, 0, 0, 0];

/// A stream of two messages, of 40 bytes: a struct of one word, then a null root.
const STREAM: [u8; 40] = [
    0, 0, 0, 0, 2, 0, 0, 0, 0, 0, 0, 0, 1, 0, 0, 0, 5, 0, 0, 0, 0, 0, 0, 0, 0, 0, 0, 0, 1, 0, 0, 0,
    0, 0, 0, 0, 0, 0, 0, 0,
];

/// The lines of the prices of `STREAM`, 19 bytes each.
const PRICES: &[u8] = b"ok paid 2 visits 1\nok paid 0 visits 1\n";

/// Returns the run of `canonical` over the bare message.
fn canonical() -> Run<'static> {
    Run {
        command: Command::Canonical(Form::Bare, Limits::usual()),
        input: &BARE,
        text: &CANONICAL,
    }
}

/// Returns the run of `check` over `STREAM`.
fn check() -> Run<'static> {
    Run {
        command: Command::Check(Form::Stream, Limits::usual()),
        input: &STREAM,
        text: PRICES,
    }
}

/// A stream of two equal structs of one word, so that a command writes two equal lines.
const TWICE: [u8; 48] = [
    0, 0, 0, 0, 2, 0, 0, 0, 0, 0, 0, 0, 1, 0, 0, 0, 5, 0, 0, 0, 0, 0, 0, 0, 0, 0, 0, 0, 2, 0, 0, 0,
    0, 0, 0, 0, 1, 0, 0, 0, 5, 0, 0, 0, 0, 0, 0, 0,
];

/// The lines of the digests of `TWICE`, 65 bytes each.
const DIGESTS: &[u8] = b"6a3efd90ef3aebf0decabee51bbe92707bee76bb8f2830efd1bf615b14f61ac2\n\
    6a3efd90ef3aebf0decabee51bbe92707bee76bb8f2830efd1bf615b14f61ac2\n";

/// Returns the run of `hash` over `TWICE`.
fn hash() -> Run<'static> {
    Run {
        command: Command::Hash(Form::Stream, Limits::usual()),
        input: &TWICE,
        text: DIGESTS,
    }
}

/// Returns the length of the text that must be written before the call `call` of the reader. For each message, `whole`
/// has the number of bytes up to its end, and the length of the text up to the end of its line.
fn due(whole: &[(u64, usize)], call: u64) -> usize {
    let mut due = 0;
    for (bytes, text) in whole {
        if *bytes < call {
            due = *text;
        }
    }
    due
}

/// Returns the number of calls of the reader by the time that the byte `byte` of the text is written. It is the number
/// of bytes up to the end of the message whose line has that byte, or `all` for text after the last line.
fn reads_before(whole: &[(u64, usize)], byte: usize, all: u64) -> u64 {
    for (bytes, text) in whole {
        if byte <= *text {
            return *bytes;
        }
    }
    all
}

/// Tests whether a run ended with `outcome` after writing `text`.
fn is_ended(end: &Ending, outcome: Result<(), ToolFault>, text: Option<&[u8]>) -> bool {
    end.outcome == outcome && Some(end.written.as_slice()) == text
}

/// Tests whether a run whose reader fails at `call` ends with `outcome` after writing `text`, and requests chunks of 64
/// KiB.
fn reads_so(
    alloc: Global,
    run_of: &Run,
    call: u64,
    outcome: Result<(), ToolFault>,
    text: Option<&[u8]>,
) -> bool {
    let end = ended(alloc, run_of, call, 0, false);
    end.asked == 65_536 && is_ended(&end, outcome, text)
}

/// Lets each call of the reader fail in turn, including the one that finds the end. The output for the bytes read
/// before must be written.
fn fail_each_read(rt: &impl Abort, alloc: Global, run_of: &Run, whole: &[(u64, usize)]) {
    let calls = run_of.input.len() as u64 + 1;
    for call in 0..=calls + 1 {
        let is_right = if 1 <= call && call <= calls {
            let text = run_of.text.get(..due(whole, call));
            reads_so(alloc, run_of, call, Err(ToolFault::Io), text)
        } else {
            reads_so(alloc, run_of, call, Ok(()), Some(run_of.text))
        };
        assert!(rt; is_right, "read {call}");
    }
}

/// Tests whether a run whose writer fails at `call` ends with `outcome` after writing `text`. Returns the number of
/// calls of its reader.
fn writes_so(
    alloc: Global,
    run_of: &Run,
    call: usize,
    takes_nothing: bool,
    outcome: Result<(), ToolFault>,
    text: Option<&[u8]>,
) -> Option<u64> {
    let end = ended(alloc, run_of, 0, call as u64, takes_nothing);
    if is_ended(&end, outcome, text) {
        Some(end.reads)
    } else {
        None
    }
}

/// Lets each call of the writer fail in turn. The bytes written before must be a prefix of the text, and the reader
/// must not be called again.
fn fail_each_write(
    rt: &impl Abort,
    alloc: Global,
    run_of: &Run,
    whole: &[(u64, usize)],
    takes_nothing: bool,
) {
    let calls = run_of.input.len() as u64 + 1;
    for call in 0..200usize {
        let is_right = if 1 <= call && call <= run_of.text.len() {
            let text = run_of.text.get(..call - 1);
            let reads = writes_so(alloc, run_of, call, takes_nothing, Err(ToolFault::Io), text);
            reads == Some(reads_before(whole, call, calls))
        } else {
            let text = Some(run_of.text);
            writes_so(alloc, run_of, call, takes_nothing, Ok(()), text).is_some()
        };
        assert!(rt; is_right, "write {call}");
    }
}

/// For each message of `STREAM`, the number of bytes up to its end, and the length of the text up to the end of its
/// line.
const CHECKED: [(u64, usize); 2] = [(24, 19), (40, 38)];

/// For each message of `TWICE`, the number of bytes up to its end, and the length of the text up to the end of its
/// line.
const HASHED: [(u64, usize); 2] = [(24, 65), (48, 130)];

#[test]
fn a_reader_fails_at_each_call(rt: HostRuntime) {
    fail_each_read(&rt, rt.alloc(), &canonical(), &[]);
    fail_each_read(&rt, rt.alloc(), &check(), &CHECKED);
    fail_each_read(&rt, rt.alloc(), &hash(), &HASHED);
}

#[test]
fn a_writer_fails_at_each_call(rt: HostRuntime) {
    for takes_nothing in [false, true] {
        fail_each_write(&rt, rt.alloc(), &canonical(), &[], takes_nothing);
        fail_each_write(&rt, rt.alloc(), &check(), &CHECKED, takes_nothing);
        fail_each_write(&rt, rt.alloc(), &hash(), &HASHED, takes_nothing);
    }
}

/// Returns the run of `check` over packed bytes.
fn check_packed<'a>(input: &'a [u8], text: &'a [u8]) -> Run<'a> {
    Run {
        command: Command::Check(Form::Packed, Limits::usual()),
        input,
        text,
    }
}

/// The packed frame of a struct of one word.
const PACKED: [u8; 6] = [0x10, 2, 0x10, 1, 1, 5];

/// `PACKED` twice.
const PACKED_TWICE: [u8; 12] = [0x10, 2, 0x10, 1, 1, 5, 0x10, 2, 0x10, 1, 1, 5];

/// For each message of `PACKED_TWICE`, the number of bytes up to its end, and the length of the text with its line.
const PACKED_WHOLE: [(u64, usize); 2] = [(6, 19), (12, 38)];

/// The line of the price of `PACKED`.
const PRICE: &[u8] = b"ok paid 2 visits 1\n";

/// The lines of the prices of `PACKED_TWICE`.
const PRICE_TWICE: &[u8] = b"ok paid 2 visits 1\nok paid 2 visits 1\n";

#[test]
fn a_packed_stream_is_served(rt: HostRuntime) {
    let both = check_packed(&PACKED_TWICE, PRICE_TWICE);
    fail_each_read(&rt, rt.alloc(), &both, &PACKED_WHOLE);
    fail_each_write(&rt, rt.alloc(), &both, &PACKED_WHOLE, true);
}

/// A packed stream whose table announces 4,097 segments.
const LONG: [u8; 4] = [2, 0x10, 0xff, 0x8a];

/// A packed message, and then one that is cut within a group.
const CUT: [u8; 9] = [0x10, 2, 0x10, 1, 1, 5, 0x10, 2, 0x10];

/// A packed message, and then one that is cut within its frame, after a whole group.
const UNFRAMED: [u8; 8] = [0x10, 2, 0x10, 1, 1, 5, 0x10, 2];

/// Tests whether `check` of the packed `input` ends with `outcome` after writing `text`.
fn ends_so(alloc: Global, input: &[u8], text: &[u8], outcome: Result<(), ToolFault>) -> bool {
    let end = ended(alloc, &check_packed(input, text), 0, 0, false);
    is_ended(&end, outcome, Some(text))
}

#[test]
fn packed_streams_end_as_is_due(rt: HostRuntime) {
    let table = Refusal::Frame(FrameFault::TooManySegments(4_097));
    assert!(rt; ends_so(rt.alloc(), &LONG, b"", Err(ToolFault::Refused(table))));
    let group = Refusal::Packed(UnpackFault::Cut { at: 8 });
    assert!(rt; ends_so(rt.alloc(), &CUT, PRICE, Err(ToolFault::Refused(group))));
    let frame = Refusal::Frame(FrameFault::Cut);
    assert!(rt; ends_so(rt.alloc(), &UNFRAMED, PRICE, Err(ToolFault::Refused(frame))));
    assert!(rt; ends_so(rt.alloc(), &PACKED, PRICE, Ok(())));
}
