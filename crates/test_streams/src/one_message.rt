//! Tests of runs over exactly one message, and of runs that show messages or parts of them.

use crate::picks::Once;
use crate::places::{Places, Single};
use capn_canon::{Form, Limits, Refusal};
use capn_commands::{PartTexts, ToolFault, run_show, serve_one};
use capn_pack::UnpackFault;
use capn_serve::{Position, RunFault, StreamForm};
use capn_show::Style;
use capn_stream::FrameFault;
use capn_walk::{Fault, Stopped};
use capn_words::{Place, Watched};
use std::alloc::{Allocator, Global};
use std::io::Read;
use std::process::Abort;
use test_allocator::Refusing;

/// The frame of a struct of one word and one slot, which is null.
const FRAME: [u8; 32] = [
    0, 0, 0, 0, 3, 0, 0, 0, 0, 0, 0, 0, 1, 0, 1, 0, 5, 0, 0, 0, 0, 0, 0, 0, 0, 0, 0, 0, 0, 0, 0, 0,
];

/// The packed bytes of `FRAME`.
const PACKED: [u8; 9] = [0x10, 3, 0x50, 1, 1, 0x01, 5, 0x00, 0];

/// Serves the one message of `input`, which may have `most` words. Returns the result and the output.
fn served<R: Read + Drop, A: Allocator + Copy>(
    alloc: Global,
    heap: A,
    form: StreamForm,
    most: u8,
    input: R,
) -> (Result<(), ToolFault>, Vec<u8>) {
    let mut reader = Watched::new(input);
    let mut writer = Watched::new(Vec::new(alloc));
    let ending = serve_one(heap, Places, form, most as u32, &mut reader, &mut writer);
    (ending, writer.into_inner())
}

/// The service gets the frame of the message, unpacked if it was packed.
#[test]
fn one_message_is_served(rt: HostRuntime) {
    let alloc = rt.alloc();
    let (ending, text) = served(alloc, alloc, StreamForm::Stream, 3, FRAME.as_slice());
    assert!(rt; ending == Ok(()) && text.as_slice() == [0, 0, 32].as_slice());
    let one_by_one = Single { bytes: &FRAME };
    let (ending, text) = served(alloc, alloc, StreamForm::Stream, 3, one_by_one);
    assert!(rt; ending == Ok(()) && text.as_slice() == [0, 0, 32].as_slice());
    let (ending, text) = served(alloc, alloc, StreamForm::Packed, 3, PACKED.as_slice());
    assert!(rt; ending == Ok(()) && text.as_slice() == [0, 0, 32].as_slice());
}

/// Tests whether one message of `input` is refused, with nothing written.
fn is_refused(alloc: Global, form: StreamForm, most: u8, input: &[u8], refusal: Refusal) -> bool {
    let (ending, text) = served(alloc, alloc, form, most, input);
    ending == Err(ToolFault::Refused(refusal)) && text.is_empty()
}

/// An input without a message is refused, and so are a longer message, a cut one, and bytes after the message.
#[test]
fn an_input_that_is_not_one_message(rt: HostRuntime) {
    let alloc = rt.alloc();
    let empty = Refusal::Frame(FrameFault::Empty);
    assert!(rt; is_refused(alloc, StreamForm::Stream, 3, &[], empty));
    let words = Refusal::Frame(FrameFault::TooManyWords(3));
    assert!(rt; is_refused(alloc, StreamForm::Stream, 2, &FRAME, words));
    let cut = Refusal::Frame(FrameFault::Cut);
    assert!(rt; is_refused(alloc, StreamForm::Stream, 3, &FRAME[..31], cut));
    let longer = [0; 9];
    assert!(rt; is_refused(alloc, StreamForm::Stream, 3, &longer, Refusal::Trailing(8)));
    let group = Refusal::Packed(UnpackFault::Cut { at: 7 });
    assert!(rt; is_refused(alloc, StreamForm::Packed, 3, &PACKED[..8], group));
}

/// Without memory, or after a failed read, nothing is written.
#[test]
fn one_message_that_is_not_read(rt: HostRuntime) {
    let alloc = rt.alloc();
    let broken = Once {
        bytes: &FRAME,
        is_over: false,
    };
    let (ending, text) = served(alloc, alloc, StreamForm::Stream, 3, broken);
    assert!(rt; ending == Err(ToolFault::Io) && text.is_empty());
    let heap = Refusing::nth(alloc, 0);
    heap.refuse_each();
    let (ending, text) = served(alloc, &heap, StreamForm::Stream, 3, FRAME.as_slice());
    assert!(rt; ending == Err(ToolFault::Memory) && text.is_empty());
}

/// The lines of messages, from the root, within a budget.
fn texts_of(form: Form, budget: u32, style: Style, path: &[u64]) -> PartTexts<'_> {
    PartTexts {
        path,
        form,
        limits: Limits::new(8, budget, 64).unwrap_or(Limits::usual()),
        style,
        offsets: false,
        ways: false,
    }
}

/// Shows the messages of `input`. Returns the result and the output.
fn shown<R: Read + Drop>(
    alloc: Global,
    texts: &PartTexts<'_>,
    input: R,
) -> (Result<(), RunFault>, Vec<u8>) {
    let mut reader = Watched::new(input);
    let mut writer = Watched::new(Vec::new(alloc));
    let ending = run_show(alloc, texts, &mut reader, &mut writer);
    (ending, writer.into_inner())
}

/// The lines of the message of `FRAME`.
const LINES: &[u8] = b"struct 1 1\n  word 0000000000000005\n  null\nend\n";

#[test]
fn messages_in_each_form(rt: HostRuntime) {
    let alloc = rt.alloc();
    let stream = texts_of(Form::Stream, 8, Style::Lines, &[]);
    let (ending, text) = shown(alloc, &stream, FRAME.as_slice());
    assert!(rt; ending == Ok(()) && text.as_slice() == LINES);
    let packed = texts_of(Form::Packed, 8, Style::Lines, &[]);
    let (ending, text) = shown(alloc, &packed, PACKED.as_slice());
    assert!(rt; ending == Ok(()) && text.as_slice() == LINES);
    let bare = texts_of(Form::Bare, 8, Style::Lines, &[]);
    let (ending, text) = shown(alloc, &bare, &FRAME[8..]);
    assert!(rt; ending == Ok(()) && text.as_slice() == LINES);
    let (ending, text) = shown(alloc, &stream, b"".as_slice());
    assert!(rt; ending == Ok(()) && text.is_empty());
}

/// At a path there may be a value or nothing. In JSON no line `end` follows, and nothing is an empty line.
#[test]
fn parts_of_messages(rt: HostRuntime) {
    let alloc = rt.alloc();
    let slot = texts_of(Form::Stream, 8, Style::Lines, &[0]);
    assert!(rt; shown(alloc, &slot, FRAME.as_slice()).1.as_slice() == b"null\nend\n".as_slice());
    let nothing = texts_of(Form::Stream, 8, Style::Lines, &[1]);
    let (_, text) = shown(alloc, &nothing, FRAME.as_slice());
    assert!(rt; text.as_slice() == b"none\nend\n".as_slice());
    let json = texts_of(Form::Stream, 8, Style::Json, &[]);
    let line = b"{\"words\":[\"0000000000000005\"],\"slots\":[null]}\n";
    assert!(rt; shown(alloc, &json, FRAME.as_slice()).1.as_slice() == line.as_slice());
    let empty = texts_of(Form::Stream, 8, Style::Json, &[1]);
    assert!(rt; shown(alloc, &empty, FRAME.as_slice()).1.as_slice() == b"\n".as_slice());
}

/// The messages before a refused one are shown. A message over the budget is refused, whatever the path.
#[test]
fn a_refused_message(rt: HostRuntime) {
    let alloc = rt.alloc();
    let start = Position {
        index: 0,
        offset: 0,
    };
    let next = Position {
        index: 1,
        offset: 32,
    };
    let stopped = Stopped {
        fault: Fault::OverBudget,
        place: Place::ROOT,
        paid: 0,
        visits: 1,
    };
    let poor = texts_of(Form::Stream, 1, Style::Lines, &[9]);
    let (ending, text) = shown(alloc, &poor, FRAME.as_slice());
    let refused = RunFault::Refused(start, Refusal::Walk(stopped));
    assert!(rt; ending == Err(refused) && text.is_empty());
    let rich = texts_of(Form::Stream, 8, Style::Lines, &[]);
    let mut longer = [0; 39];
    longer[..32].copy_from_slice(&FRAME);
    let (ending, text) = shown(alloc, &rich, longer.as_slice());
    let cut = RunFault::Refused(next, Refusal::Frame(FrameFault::Cut));
    assert!(rt; ending == Err(cut) && text.as_slice() == LINES);
    let broken = Once {
        bytes: &FRAME,
        is_over: false,
    };
    let (ending, text) = shown(alloc, &rich, broken);
    assert!(rt; ending == Err(RunFault::Io) && text.as_slice() == LINES);
}
