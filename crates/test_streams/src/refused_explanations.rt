//! Tests of runs that explain every refused message of a handmade stream.

use crate::explanations::{FIRST, FOURTH, FRAMES, Once, SECOND};
use capn_canon::{BareFault, Form, FrameFault, Limits, Refusal};
use capn_explain::{ExplainRefused, run_explain_refused};
use capn_serve::{Position, RunFault, SkipFault, Skipped};
use capn_words::Watched;
use std::alloc::{Allocator, Global};
use std::io::Read;
use std::test::Fail;
use test_allocator::Refusing;

/// The output of a run, and its result.
#[derive(Drop)]
struct Outcome {
    text: Vec<u8>,
    ending: Result<(), SkipFault>,
}

/// Explains every refused message of `input`, with the allocator `heap`.
fn explained_by<A: Allocator + Copy, R: Read + Drop>(
    alloc: Global,
    heap: A,
    form: Form,
    input: R,
) -> Outcome {
    let order = ExplainRefused {
        form,
        limits: Limits::usual(),
    };
    let mut reader = Watched::new(input);
    let mut writer = Watched::new(Vec::new(alloc));
    let ending = run_explain_refused(heap, order, &mut reader, &mut writer);
    Outcome {
        text: writer.into_inner(),
        ending,
    }
}

fn explained(alloc: Global, form: Form, bytes: &[u8]) -> Outcome {
    explained_by(alloc, alloc, form, bytes)
}

/// The count of the refused messages of `FRAMES`: the second and the fourth.
const TWO_OF_FOUR: Skipped = Skipped {
    refused: 2,
    messages: 4,
    first: Position {
        index: 1,
        offset: 16,
    },
};

/// Returns the lines of the second and the fourth message, each followed by an empty line.
fn lines_of_two(alloc: Global) -> Result<String, Fail> {
    Ok(format!(in alloc; "{SECOND}\n{FOURTH}\n")?)
}

/// Every refused message is explained, with an empty line after each, and the run reports how many there are.
#[test]
fn explains_every_refused_message(rt: HostRuntime) -> Result<(), Fail> {
    let two = explained(rt.alloc(), Form::Stream, &FRAMES);
    let lines = lines_of_two(rt.alloc())?;
    assert!(rt; two.ending == Err(SkipFault::Skipped(TWO_OF_FOUR)));
    assert!(rt; two.text.as_slice() == lines.as_bytes());
    let packed = [
        0x10, 1, 0, 0, 0x10, 1, 0x10, 1, 0x10, 1, 0, 0, 0x10, 1, 0x10, 1,
    ];
    let unpacked = explained(rt.alloc(), Form::Packed, &packed);
    assert!(rt; unpacked.ending == Err(SkipFault::Skipped(TWO_OF_FOUR)));
    assert!(rt; unpacked.text.as_slice() == lines.as_bytes());
    Ok(())
}

/// If no message is refused, a single message is explained. If there is no message, or more than one, the messages are
/// counted. No empty line follows.
#[test]
fn explains_as_without_it_if_none_is_refused(rt: HostRuntime) -> Result<(), Fail> {
    let one = explained(rt.alloc(), Form::Stream, &FRAMES[..16]);
    assert!(rt; one.ending == Ok(()) && one.text.as_slice() == FIRST.as_bytes());
    let mut frames = Vec::from_slice(rt.alloc(), &FRAMES[..16])?;
    frames.extend_from_slice(&FRAMES[..16])?;
    let two = explained(rt.alloc(), Form::Stream, &frames);
    assert!(rt;
        two.ending == Ok(()) && two.text.as_slice() == b"2 messages, none refused\n".as_slice()
    );
    let none = explained(rt.alloc(), Form::Packed, &[]);
    assert!(rt;
        none.ending == Ok(()) && none.text.as_slice() == b"0 messages, none refused\n".as_slice()
    );
    Ok(())
}

/// Two frames of two words: the first has a word that nothing points to, so that its message is not canonical, and the
/// second is refused.
const NOT_CANONICAL_THEN_REFUSED: [u8; 48] = [
    0, 0, 0, 0, 2, 0, 0, 0, 0, 0, 0, 0, 0, 0, 0, 0, 7, 0, 0, 0, 0, 0, 0, 0, 0, 0, 0, 0, 2, 0, 0, 0,
    16, 0, 0, 0, 1, 0, 0, 0, 5, 0, 0, 0, 0, 0, 0, 0,
];

/// The lines about the first message are dropped when the second one is served. So an allocation that is refused for
/// these lines does not end the run.
#[test]
fn explains_behind_a_message_that_is_not_canonical(rt: HostRuntime) -> Result<(), Fail> {
    let lines = "message: 2 at 24
segments: 1 of 2 words
refused: Range at 0:0, paid 0, visits 1
way: root
slot: byte 32, segment 0 word 0: 1000000001000000: struct of 1 words and 0 slots, offset 4
content: words 5 to 6 of segment 0, which has 2

";
    let skipped = Skipped {
        refused: 1,
        messages: 2,
        first: Position {
            index: 1,
            offset: 24,
        },
    };
    let ample = explained(rt.alloc(), Form::Stream, &NOT_CANONICAL_THEN_REFUSED);
    assert!(rt; ample.ending == Err(SkipFault::Skipped(skipped)));
    assert!(rt; ample.text.as_slice() == lines.as_bytes());
    let heap = Refusing::nth(rt.alloc(), 1);
    let input = NOT_CANONICAL_THEN_REFUSED.as_slice();
    let refused = explained_by(rt.alloc(), &heap, Form::Stream, input);
    assert!(rt; refused.ending == Err(SkipFault::Skipped(skipped)));
    assert!(rt; refused.text.as_slice() == lines.as_bytes());
    Ok(())
}

/// A cut frame is explained last, whether messages were refused before it or not.
#[test]
fn explains_a_cut_frame_last(rt: HostRuntime) -> Result<(), Fail> {
    let at = Position {
        index: 2,
        offset: 32,
    };
    let cut = Refusal::Frame(FrameFault::Cut);
    let skipped = Skipped {
        refused: 1,
        messages: 2,
        ..TWO_OF_FOUR
    };
    let lines = "message: 3 at 32\nrefused: frame: Cut\nthere: 4 bytes of at least 8\n\n";
    let after = explained(rt.alloc(), Form::Stream, &FRAMES[..36]);
    let both = format!(in rt.alloc(); "{SECOND}\n{lines}")?;
    assert!(rt; after.ending == Err(SkipFault::RefusedAfterSkipped(skipped, at, cut)));
    assert!(rt; after.text.as_slice() == both.as_bytes());
    let first = explained(rt.alloc(), Form::Stream, &FRAMES[..4]);
    let alone = "message: 1 at 0\nrefused: frame: Cut\nthere: 4 bytes of at least 8\n\n";
    let start = Position {
        index: 0,
        offset: 0,
    };
    assert!(rt; first.ending == Err(SkipFault::Ended(RunFault::Refused(start, cut))));
    assert!(rt; first.text.as_slice() == alone.as_bytes());
    Ok(())
}

/// A cut group of a packed stream is explained last.
#[test]
fn explains_a_cut_group_last(rt: HostRuntime) -> Result<(), Fail> {
    let packed = [0x10, 1, 0x10, 1, 0x10, 1, 0x10];
    let cut = explained(rt.alloc(), Form::Packed, &packed);
    let lines = "message: 1 at 0
segments: 1 of 1 words
refused: Range at 0:0, paid 0, visits 1
way: root
slot: byte 8, segment 0 word 0: 0000000001000000: struct of 1 words and 0 slots, offset 0
content: words 1 to 2 of segment 0, which has 1

message: 2 at 16
segments: 1 of 1 words
refused: packed: Cut at 6
group: byte 6 of the packed input, tag 10: needs 2 bytes, 1 came

";
    assert!(rt; cut.text.as_slice() == lines.as_bytes());
    assert!(rt; matches!(&cut.ending, Err(SkipFault::RefusedAfterSkipped(_, _, _))));
    Ok(())
}

/// A bare input is one message. If the walk refuses the message, it is counted like any other. A wrong length ends the
/// run.
#[test]
fn explains_a_bare_message(rt: HostRuntime) -> Result<(), Fail> {
    let start = Position {
        index: 0,
        offset: 0,
    };
    let one_of_one = Skipped {
        refused: 1,
        messages: 1,
        first: start,
    };
    let refused = explained(rt.alloc(), Form::Bare, &[]);
    let empty =
        "message: 1 at 0\nsegments: 1 of 0 words\nrefused: NoRoot at 0:0, paid 0, visits 0\n\n";
    assert!(rt; refused.ending == Err(SkipFault::Skipped(one_of_one)));
    assert!(rt; refused.text.as_slice() == empty.as_bytes());
    let nine = explained(rt.alloc(), Form::Bare, &FRAMES[..9]);
    let lines = "message: 1 at 0\nrefused: bare: NotWhole(9)\nthere: 9 bytes\n\n";
    let fault = RunFault::Refused(start, Refusal::Bare(BareFault::NotWhole(9)));
    assert!(rt; nine.ending == Err(SkipFault::Ended(fault)));
    assert!(rt; nine.text.as_slice() == lines.as_bytes());
    Ok(())
}

/// The lines of a chunk are written before more is read, even if that read fails.
#[test]
fn writes_before_it_reads_again(rt: HostRuntime) -> Result<(), Fail> {
    let input = Once {
        bytes: &FRAMES,
        is_over: false,
    };
    let cut = explained_by(rt.alloc(), rt.alloc(), Form::Stream, input);
    let lines = lines_of_two(rt.alloc())?;
    assert!(rt; cut.ending == Err(SkipFault::Ended(RunFault::Io)));
    assert!(rt; cut.text.as_slice() == lines.as_bytes());
    Ok(())
}

/// If any allocation is refused, the run ends with `Memory`, and its output is a prefix of the full text.
#[test]
fn tells_that_memory_ran_out(rt: HostRuntime) -> Result<(), Fail> {
    let lines = lines_of_two(rt.alloc())?;
    for refused in 1_u64..1000 {
        let heap = Refusing::nth(rt.alloc(), refused);
        let run = explained_by(rt.alloc(), &heap, Form::Stream, FRAMES.as_slice());
        if heap.has_spared() {
            assert!(rt; run.ending == Err(SkipFault::Skipped(TWO_OF_FOUR)) && refused > 1);
            return Ok(());
        }
        assert!(rt;
            run.ending == Err(SkipFault::Ended(RunFault::Memory))
                && lines.as_bytes().starts_with(run.text.as_slice()),
            "{refused}"
        );
    }
    assert!(rt; false);
    Ok(())
}
