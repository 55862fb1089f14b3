//! Tests of calls with each allocation refused in turn.

use crate::short_runs::*;
use crate::short_shows::*;
use crate::short_streams::*;
use crate::short_texts::*;
use crate::short_values::*;
use crate::subject::{Answer, Subject, judged, limits, packed_of, subject_of, wanting};
use crate::words::bytes_of;
use capn_canon::Form;
use capn_commands::{Command, ToolFault};
use capn_value::{copy, trim};
use std::alloc::Global;
use std::process::Abort;
use std::test::Fail;
use test_allocator::Refusing;

/// The words of a message in segments of 15, 2 and 1 words. Its root is a struct of a data word and four slots: a text,
/// a list of two rows, a list of two pointers, and a double-far pointer to a struct.
const CONTENTS: [u64; 18] = [
    0x4_0001_0000_0000,
    5,
    0x1a_0000_000d,
    0x27_0000_000d,
    0x16_0000_001d,
    0x1_0000_0006,
    0x63_6261,
    0x1_0001_0000_0008,
    7,
    0,
    0,
    0x51_0000_0009,
    0,
    0xffff_fffc,
    0x3ff,
    0x2_0000_0002,
    0x1_0000_0000,
    9,
];

/// Returns a stream of a message in 65 segments. The first three have words, and the others are empty. The table is so
/// long that it takes memory.
pub(crate) fn stream_of_65(alloc: Global) -> Result<Vec<u8>, Fail> {
    let mut stream = bytes_of(alloc, &[0xf_0000_0040, 0x1_0000_0002])?;
    stream.extend_from_slice(&[0; 248])?;
    stream.extend_from_slice(bytes_of(alloc, &CONTENTS)?.as_slice())?;
    Ok(stream)
}

/// A command to run. Its limits cannot be in a constant, so it is named without them.
#[derive(Clone, Copy)]
pub(crate) enum Order {
    Show,
    Check,
    Canonical,
    Hash,
    Pack,
    Unpack,
}

/// A call to test.
#[derive(Clone, Copy)]
pub(crate) enum Call {
    First,
    Frame,
    Feed,
    Read,
    Pack,
    Unpack,
    FeedPacked,
    Walk,
    Survey,
    Index,
    DeepIndex,
    Show,
    ReadText,
    Texts,
    Trim,
    Copy,
    Items,
    Layout,
    Patch,
    Canonical,
    Canonicalise,
    Check,
    Account(Form),
    Text,
    Marked,
    MakeTexts,
    Run(Order),
}

/// The calls to test, by name. A constant list costs its users nothing to prove.
pub(crate) const CALLS: [(&str, Call); 34] = [
    ("first", Call::First),
    ("frame", Call::Frame),
    ("feed", Call::Feed),
    ("read_message", Call::Read),
    ("pack", Call::Pack),
    ("unpack", Call::Unpack),
    ("feed of packed bytes", Call::FeedPacked),
    ("walk", Call::Walk),
    ("survey", Call::Survey),
    ("index", Call::Index),
    ("index of a chain", Call::DeepIndex),
    ("show", Call::Show),
    ("read of a text", Call::ReadText),
    ("texts", Call::Texts),
    ("trim", Call::Trim),
    ("copy", Call::Copy),
    ("items", Call::Items),
    ("layout", Call::Layout),
    ("patch", Call::Patch),
    ("canonical_of", Call::Canonical),
    ("canonicalise", Call::Canonicalise),
    ("is_canonical", Call::Check),
    ("account of a stream", Call::Account(Form::Stream)),
    ("account of packed bytes", Call::Account(Form::Packed)),
    ("account of bare bytes", Call::Account(Form::Bare)),
    ("fault_text", Call::Text),
    ("show_marked", Call::Marked),
    ("make_texts", Call::MakeTexts),
    ("run of show", Call::Run(Order::Show)),
    ("run of check", Call::Run(Order::Check)),
    ("run of canonical", Call::Run(Order::Canonical)),
    ("run of hash", Call::Run(Order::Hash)),
    ("run of pack", Call::Run(Order::Pack)),
    ("run of unpack", Call::Run(Order::Unpack)),
];

/// Returns the command for `order`, with limits that allow a depth of 256 objects.
fn command_of(order: Order) -> Command {
    match order {
        Order::Show => Command::Show(Form::Stream, limits(256)),
        Order::Check => Command::Check(Form::Packed, limits(256)),
        Order::Canonical => Command::Canonical(Form::Stream, limits(256)),
        Order::Hash => Command::Hash(Form::Stream, limits(256)),
        Order::Pack => Command::Pack,
        Order::Unpack => Command::Unpack(268_437_505),
    }
}

/// Returns the outcome of `call` with the allocator `short`.
pub(crate) fn answer(of: &Subject, short: &Refusing<Global>, call: Call) -> Answer {
    match call {
        Call::First => first_answer(of, short),
        Call::Frame => frame_answer(of, short),
        Call::Feed => feed_answer(of, short),
        Call::Read => read_answer(of, short),
        Call::Pack => pack_answer(of, short),
        Call::Unpack => unpack_answer(of, short),
        Call::FeedPacked => feed_packed_answer(of, short),
        Call::Walk => walk_answer(of, short),
        Call::Survey => survey_answer(of, short),
        Call::Index => index_answer(of, short, &of.message),
        Call::DeepIndex => deep_index_answer(of, short),
        Call::Show => show_answer(of, short),
        Call::ReadText => read_text_answer(of, short),
        Call::Texts => texts_answer(of, short),
        Call::Trim => judged_tree(of, trim(short, &of.walked.tree)),
        Call::Copy => judged_tree(of, copy(short, &of.walked.tree)),
        Call::Items => items_answer(short),
        Call::Layout => layout_answer(of, short),
        Call::Patch => patch_answer(short),
        Call::Canonical => canonical_answer(of, short),
        Call::Canonicalise => canonicalise_answer(of, short),
        Call::Check => check_answer(of, short),
        Call::Account(form) => account_answer(of, short, form),
        Call::Text => text_answer(short),
        Call::Marked => marked_answer(of, short),
        Call::MakeTexts => made_answer(of, short),
        Call::Run(order) => run_answer(of, short, command_of(order)),
    }
}

/// Calls `call` while allocation `number` is refused, and then once more. Returns whether there was no allocation with
/// that number, and both outcomes. If an allocation was refused, the second call has enough memory.
fn answers(of: &Subject, call: Call, number: u64) -> (bool, Answer, Answer) {
    let short = Refusing::nth(of.alloc, number);
    let first = answer(of, &short, call);
    let is_spared = short.has_spared();
    let again = answer(of, &short, call);
    (is_spared, first, again)
}

/// Tests whether `call` takes memory. A survey, a check, and a survey of bare words take none, whatever the depth.
fn takes_memory(call: Call) -> bool {
    !matches!(call, Call::Survey | Call::Check | Call::Account(Form::Bare))
}

/// Refuses each allocation of `call` in turn, until none is left to refuse. With a refused allocation the call has to
/// return `Memory`, and with enough memory the right result. A call that takes no memory has no allocation to refuse.
fn refuse_each(rt: &impl Abort, of: &Subject, name: &str, call: Call) {
    for number in 1..1_000u64 {
        match answers(of, call, number) {
            (true, Answer::Right, _) if takes_memory(call) == (1 < number) => return,
            (false, Answer::Memory, Answer::Right) => {}
            _ => assert!(rt; false, "{name}, growth {number}"),
        }
    }
    assert!(rt; false, "{name} grows a thousand times");
}

#[test]
fn each_call(rt: HostRuntime) -> Result<(), Fail> {
    let stream = stream_of_65(rt.alloc())?;
    let of = subject_of(rt.alloc(), stream.as_slice())?;
    for (name, call) in CALLS {
        refuse_each(&rt, &of, name, call);
    }
    Ok(())
}

/// Shows two messages, each with the text `text`, while allocation `number` is refused. Returns whether there was no
/// allocation with that number, and the outcome. The outcome is `Right` if both texts are written. It is `Memory` if an
/// allocation is refused after the first text and perhaps a prefix of the second.
fn shows_twice(alloc: Global, twice: &[u8], text: &[u8], number: u64) -> (bool, Answer) {
    let short = Refusing::nth(alloc, number);
    let (outcome, shown) = output(alloc, &short, command_of(Order::Show), twice);
    let (first, second) = shown.split_at(text.len().min(shown.len()));
    let answer = match outcome {
        Ok(()) => judged(second == text),
        Err(ToolFault::Memory) => wanting(text.starts_with(second)),
        Err(_) => Answer::Wrong,
    };
    (
        short.has_spared(),
        if first == text { answer } else { Answer::Wrong },
    )
}

/// If an allocation for the second of two messages is refused, the text of the first is still written.
#[test]
fn the_first_message_is_written(rt: HostRuntime) -> Result<(), Fail> {
    let once = stream_of_65(rt.alloc())?;
    let mut twice = stream_of_65(rt.alloc())?;
    twice.extend_from_slice(once.as_slice())?;
    let heap = Refusing::nth(rt.alloc(), 0);
    let (outcome, text) = output(rt.alloc(), &heap, command_of(Order::Show), once.as_slice());
    assert!(rt; outcome.is_ok() && !text.is_empty());
    let mut was_refused = false;
    for number in heap.count().saturating_add(1)..1_000 {
        match shows_twice(rt.alloc(), twice.as_slice(), text.as_slice(), number) {
            (true, Answer::Right) if was_refused => return Ok(()),
            (false, Answer::Memory) => was_refused = true,
            _ => assert!(rt; false, "growth {number}"),
        }
    }
    Err(Fail::new("a thousand growths"))
}

/// Returns a stream of two messages: a null root in one segment, and a struct of one word in the first two of 65
/// segments.
fn two_messages(alloc: Global) -> Result<Vec<u8>, Fail> {
    let mut stream = bytes_of(alloc, &[0x1_0000_0000, 0, 0x1_0000_0040, 0x2])?;
    stream.extend_from_slice(&[0; 248])?;
    let contents = bytes_of(alloc, &[0x1_0000_0002, 0x1_0000_0000, 5])?;
    stream.extend_from_slice(contents.as_slice())?;
    Ok(stream)
}

/// Runs `command` while allocation `number` is refused. Returns whether there was no allocation with that number, and
/// whether the run ended as it must. It must end with `Memory` if an allocation was refused, and otherwise with `Ok`.
fn ends_by(alloc: Global, command: &Command, input: &[u8], number: u64) -> (bool, bool) {
    let short = Refusing::nth(alloc, number);
    let (outcome, _) = output(alloc, &short, *command, input);
    let is_spared = short.has_spared();
    let want = if is_spared {
        Ok(())
    } else {
        Err(ToolFault::Memory)
    };
    (is_spared, outcome == want)
}

/// Counts the allocations of a run. Returns `None` if `ends_by` finds a wrong ending, or after 999 refused allocations.
fn growths_of(alloc: Global, command: &Command, input: &[u8]) -> Option<u64> {
    for number in 1..1_000u64 {
        match ends_by(alloc, command, input, number) {
            (true, true) => return Some(number - 1),
            (false, true) => {}
            _ => return None,
        }
    }
    None
}

/// A run ends with `Memory` whichever allocation is refused. That is so even for a message that is whole in one chunk
/// with the message before it.
#[test]
fn a_refused_growth_ends_a_run(rt: HostRuntime) -> Result<(), Fail> {
    let stream = two_messages(rt.alloc())?;
    let packed = packed_of(rt.alloc(), stream.as_slice())?;
    let usual = limits(64);
    for (command, input) in [
        (Command::Show(Form::Stream, usual), stream.as_slice()),
        (Command::Check(Form::Stream, usual), stream.as_slice()),
        (Command::Hash(Form::Stream, usual), stream.as_slice()),
        (Command::Check(Form::Packed, usual), packed.as_slice()),
    ] {
        let growths = growths_of(rt.alloc(), &command, input);
        assert!(rt; matches!(growths, Some(count) if 3 <= count), "{command:?}");
    }
    Ok(())
}
