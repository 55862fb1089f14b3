//! Tests of runs that explain handmade messages.

use capn_canon::{BareFault, Form, FrameFault, Limits, Refusal};
use capn_explain::{Explain, run_explain};
use capn_serve::{Position, RunFault};
use capn_walk::{Fault, Stopped};
use capn_words::{Place, Watched};
use std::alloc::Global;
use std::io::{self, Read};
use std::test::Fail;
use test_allocator::Refusing;

/// A reader that gives its bytes in the first call, and fails in the next.
#[derive(Drop)]
pub(crate) struct Once<'a> {
    pub bytes: &'a [u8],
    pub is_over: bool,
}

impl Read for Once<'_> {
    fn read(&mut self, buf: &mut [u8]) -> io::Result<usize> {
        if self.is_over {
            return Err(io::ErrorKind::Other.into());
        }
        self.is_over = true;
        let count = self.bytes.len().min(buf.len());
        buf[..count].copy_from_slice(&self.bytes[..count]);
        Ok(count)
    }
}

/// The output of a run, and its result.
#[derive(Drop)]
struct Outcome {
    text: Vec<u8>,
    ending: Result<(), RunFault>,
}

fn explained_of<R: Read + Drop>(
    alloc: Global,
    form: Form,
    number: Option<u64>,
    input: R,
) -> Outcome {
    let order = Explain {
        form,
        limits: Limits::usual(),
        number,
    };
    let mut reader = Watched::new(input);
    let mut writer = Watched::new(Vec::new(alloc));
    let ending = run_explain(alloc, order, &mut reader, &mut writer);
    Outcome {
        text: writer.into_inner(),
        ending,
    }
}

fn explained(alloc: Global, form: Form, number: Option<u64>, bytes: &[u8]) -> Outcome {
    explained_of(alloc, form, number, bytes)
}

/// Returns the fault of the message at `index` and `offset`, whose root is a struct beyond its segment.
fn out_of_range(index: u64, offset: u64) -> RunFault {
    let stopped = Stopped {
        fault: Fault::Range,
        place: Place::ROOT,
        paid: 0,
        visits: 1,
    };
    RunFault::Refused(Position { index, offset }, Refusal::Walk(stopped))
}

/// Four frames of 16 bytes. The roots of the first and the third are null. The roots of the second and the fourth are
/// structs of one word past the end of their segments.
pub(crate) const FRAMES: [u8; 64] = [
    0, 0, 0, 0, 1, 0, 0, 0, 0, 0, 0, 0, 0, 0, 0, 0, 0, 0, 0, 0, 1, 0, 0, 0, 0, 0, 0, 0, 1, 0, 0, 0,
    0, 0, 0, 0, 1, 0, 0, 0, 0, 0, 0, 0, 0, 0, 0, 0, 0, 0, 0, 0, 1, 0, 0, 0, 0, 0, 0, 0, 1, 0, 0, 0,
];

/// The frame of a message of two segments, of one word and of none, with a null root.
const TWO_SEGMENTS: [u8; 24] = [
    1, 0, 0, 0, 1, 0, 0, 0, 0, 0, 0, 0, 0, 0, 0, 0, 0, 0, 0, 0, 0, 0, 0, 0,
];

/// The lines of the second frame.
pub(crate) const SECOND: &str = "message: 2 at 16
segments: 1 of 1 words
refused: Range at 0:0, paid 0, visits 1
way: root
slot: byte 24, segment 0 word 0: 0000000001000000: struct of 1 words and 0 slots, offset 0
content: words 1 to 2 of segment 0, which has 1
";

/// The lines of the fourth frame.
pub(crate) const FOURTH: &str = "message: 4 at 48
segments: 1 of 1 words
refused: Range at 0:0, paid 0, visits 1
way: root
slot: byte 56, segment 0 word 0: 0000000001000000: struct of 1 words and 0 slots, offset 0
content: words 1 to 2 of segment 0, which has 1
";

/// The lines of the first frame.
pub(crate) const FIRST: &str = "message: 1 at 0
segments: 1 of 1 words
accepted: paid 0 visits 1 depth 0
canonical: yes
";

/// The first refused message is explained, and nothing is read after the chunk that has it.
#[test]
fn explains_the_first_refused_message(rt: HostRuntime) -> Result<(), Fail> {
    let input = Once {
        bytes: &FRAMES,
        is_over: false,
    };
    let second = explained_of(rt.alloc(), Form::Stream, None, input);
    assert!(rt; second.ending == Err(out_of_range(1, 16)));
    assert!(rt; second.text.as_slice() == SECOND.as_bytes());
    Ok(())
}

/// The message with the given number is explained, refused or accepted. If there is none, the messages are counted.
#[test]
fn explains_the_message_of_a_number(rt: HostRuntime) -> Result<(), Fail> {
    let fourth = explained(rt.alloc(), Form::Stream, Some(4), &FRAMES);
    assert!(rt; fourth.ending == Err(out_of_range(3, 48)));
    assert!(rt; fourth.text.as_slice() == FOURTH.as_bytes());
    let first = explained(rt.alloc(), Form::Stream, Some(1), &FRAMES);
    assert!(rt; first.ending == Ok(()) && first.text.as_slice() == FIRST.as_bytes());
    let none = explained(rt.alloc(), Form::Stream, Some(5), &FRAMES);
    assert!(rt; none.ending == Ok(()) && none.text.as_slice() == b"4 messages\n".as_slice());
    Ok(())
}

/// If no message is refused, a single message is explained. If there is no message, or more than one, the messages are
/// counted.
#[test]
fn explains_the_only_message(rt: HostRuntime) -> Result<(), Fail> {
    let one = explained(rt.alloc(), Form::Stream, None, &FRAMES[..16]);
    assert!(rt; one.ending == Ok(()) && one.text.as_slice() == FIRST.as_bytes());
    let mut frames = Vec::from_slice(rt.alloc(), &FRAMES[..16])?;
    frames.extend_from_slice(&FRAMES[..16])?;
    let two = explained(rt.alloc(), Form::Stream, None, &frames);
    assert!(rt;
        two.ending == Ok(()) && two.text.as_slice() == b"2 messages, none refused\n".as_slice()
    );
    let none = explained(rt.alloc(), Form::Stream, None, &[]);
    assert!(rt;
        none.ending == Ok(()) && none.text.as_slice() == b"0 messages, none refused\n".as_slice()
    );
    Ok(())
}

/// A message of two segments is explained as not canonical.
#[test]
fn explains_a_message_of_two_segments(rt: HostRuntime) -> Result<(), Fail> {
    let lines = "message: 1 at 0
segments: 2 of 1 words: 1, 0
accepted: paid 0 visits 1 depth 0
canonical: no: 2 segments
";
    let two = explained(rt.alloc(), Form::Stream, None, &TWO_SEGMENTS);
    assert!(rt; two.ending == Ok(()) && two.text.as_slice() == lines.as_bytes());
    Ok(())
}

/// Positions in a packed stream are counted in the unpacked bytes. A cut group is explained.
#[test]
fn explains_packed_messages(rt: HostRuntime) -> Result<(), Fail> {
    let packed = [0x10, 1, 0, 0, 0x10, 1, 0x10, 1];
    let second = explained(rt.alloc(), Form::Packed, None, &packed);
    assert!(rt; second.ending == Err(out_of_range(1, 16)));
    assert!(rt; second.text.as_slice() == SECOND.as_bytes());
    let cut = explained(rt.alloc(), Form::Packed, None, &packed[..5]);
    let lines = "message: 2 at 16
refused: packed: Cut at 4
group: byte 4 of the packed input, tag 10: needs 2 bytes, 1 came
";
    assert!(rt; cut.ending.is_err() && cut.text.as_slice() == lines.as_bytes());
    Ok(())
}

/// A bare input is one message, and its bytes are counted from its first word.
#[test]
fn explains_a_bare_message(rt: HostRuntime) -> Result<(), Fail> {
    let refused = "message: 1 at 0
segments: 1 of 1 words
refused: Range at 0:0, paid 0, visits 1
way: root
slot: byte 0, segment 0 word 0: 0000000001000000: struct of 1 words and 0 slots, offset 0
content: words 1 to 2 of segment 0, which has 1
";
    let bare = explained(rt.alloc(), Form::Bare, None, &FRAMES[24..32]);
    assert!(rt; bare.ending == Err(out_of_range(0, 0)));
    assert!(rt; bare.text.as_slice() == refused.as_bytes());
    let empty =
        "message: 1 at 0\nsegments: 1 of 0 words\nrefused: NoRoot at 0:0, paid 0, visits 0\n";
    let none = explained(rt.alloc(), Form::Bare, None, &[]);
    assert!(rt; none.ending.is_err() && none.text.as_slice() == empty.as_bytes());
    let null = explained(rt.alloc(), Form::Bare, None, &FRAMES[8..16]);
    assert!(rt; null.ending == Ok(()) && null.text.as_slice() == FIRST.as_bytes());
    let second = explained(rt.alloc(), Form::Bare, Some(2), &FRAMES[8..16]);
    assert!(rt; second.ending == Ok(()) && second.text.as_slice() == b"1 messages\n".as_slice());
    Ok(())
}

/// A bare input whose length is not a whole number of words is explained.
#[test]
fn explains_a_length(rt: HostRuntime) -> Result<(), Fail> {
    let nine = explained(rt.alloc(), Form::Bare, None, &FRAMES[..9]);
    let at = Position {
        index: 0,
        offset: 0,
    };
    let fault = RunFault::Refused(at, Refusal::Bare(BareFault::NotWhole(9)));
    let lines = "message: 1 at 0\nrefused: bare: NotWhole(9)\nthere: 9 bytes\n";
    assert!(rt; nine.ending == Err(fault) && nine.text.as_slice() == lines.as_bytes());
    Ok(())
}

/// A frame that is cut, or whose table announces too much, is explained even if the given number is that of a later
/// message.
#[test]
fn explains_a_frame(rt: HostRuntime) -> Result<(), Fail> {
    let cut = explained(rt.alloc(), Form::Stream, Some(7), &FRAMES[..20]);
    let at = Position {
        index: 1,
        offset: 16,
    };
    let fault = RunFault::Refused(at, Refusal::Frame(FrameFault::Cut));
    let lines = "message: 2 at 16\nrefused: frame: Cut\nthere: 4 bytes of at least 8\n";
    assert!(rt; cut.ending == Err(fault) && cut.text.as_slice() == lines.as_bytes());
    let many = explained(rt.alloc(), Form::Stream, None, &[255; 8]);
    let announced = "message: 1 at 0
refused: frame: TooManySegments(4294967296)
announced: 4294967296, at most 4096
";
    assert!(rt; many.ending.is_err() && many.text.as_slice() == announced.as_bytes());
    let words = explained(rt.alloc(), Form::Stream, None, &[0, 0, 0, 0, 1, 0, 128, 0]);
    let most = "message: 1 at 0
segments: 1 of 8388609 words
refused: frame: TooManyWords(8388609)
announced: 8388609, at most 8388608
";
    assert!(rt; words.ending.is_err() && words.text.as_slice() == most.as_bytes());
    Ok(())
}

/// If the reader fails after an accepted message, the lines that explain the message are not written.
#[test]
fn writes_nothing_where_the_reader_fails(rt: HostRuntime) -> Result<(), Fail> {
    let input = Once {
        bytes: &FRAMES[..16],
        is_over: false,
    };
    let one = explained_of(rt.alloc(), Form::Stream, None, input);
    assert!(rt; one.ending == Err(RunFault::Io) && one.text.is_empty());
    Ok(())
}

/// Messages of one segment that are not canonical, each with the lines that explain it. The first two lines are left
/// out.
const MISMATCHED: [([u8; 24], &str); 5] = [
    (
        [
            0, 0, 0, 0, 2, 0, 0, 0, 0, 0, 0, 0, 1, 0, 0, 0, 0, 0, 0, 0, 0, 0, 0, 0,
        ],
        "accepted: paid 2 visits 1 depth 1
canonical: no: at byte 8: 0000000001000000 (struct of 1 words and 0 slots, offset 0), canonical \
fcffffff00000000 (struct of 0 words and 0 slots, offset -1), the pointer at root
lengths: 16 bytes, canonical 8
",
    ),
    (
        [
            0, 0, 0, 0, 2, 0, 0, 0, 1, 0, 0, 0, 7, 0, 0, 0, 0, 0, 0, 0, 1, 0, 0, 0,
        ],
        "accepted: paid 2 visits 1 depth 1
canonical: no: at byte 16: 0000000001000000, canonical 0000000000000000, the tag of root
",
    ),
    (
        [
            0, 0, 0, 0, 2, 0, 0, 0, 1, 0, 0, 0, 26, 0, 0, 0, 1, 2, 3, 255, 0, 0, 0, 0,
        ],
        "accepted: paid 2 visits 1 depth 1
canonical: no: at byte 16: 010203ff00000000, canonical 0102030000000000, the last word of root
",
    ),
    (
        [
            0, 0, 0, 0, 2, 0, 0, 0, 0, 0, 0, 0, 0, 0, 0, 0, 7, 0, 0, 0, 0, 0, 0, 0,
        ],
        "accepted: paid 0 visits 1 depth 0
canonical: no: at byte 16: 0700000000000000, canonical nothing, after the value
lengths: 16 bytes, canonical 8
",
    ),
    (
        [
            0, 0, 0, 0, 2, 0, 0, 0, 0, 0, 0, 0, 0, 0, 1, 0, 3, 0, 0, 0, 5, 0, 0, 0,
        ],
        "accepted: paid 2 visits 2 depth 1
canonical: no: capability 5 at 0
",
    ),
];

/// A run explains why a message of one segment is not canonical, with a number and without one. The cause is a pointer,
/// a tag word, the padding of a last word, a word after the value, or a capability.
#[test]
fn explains_why_a_message_is_not_canonical(rt: HostRuntime) -> Result<(), Fail> {
    for (bytes, told) in MISMATCHED {
        let lines = format!(in rt.alloc(); "message: 1 at 0\nsegments: 1 of 2 words\n{told}")?;
        for number in [None, Some(1)] {
            let one = explained(rt.alloc(), Form::Stream, number, &bytes);
            assert!(rt;
                one.ending == Ok(()) && one.text.as_slice() == lines.as_bytes(),
                "{told}"
            );
        }
    }
    Ok(())
}

/// Runs `explain` over `bytes` while allocation number `refused` is refused. Returns the outcome, and whether no
/// allocation was refused.
fn explained_under(alloc: Global, refused: u64, bytes: &[u8]) -> (Outcome, bool) {
    let heap = Refusing::nth(alloc, refused);
    let order = Explain {
        form: Form::Stream,
        limits: Limits::usual(),
        number: None,
    };
    let mut reader = Watched::new(bytes);
    let mut writer = Watched::new(Vec::new(alloc));
    let ending = run_explain(&heap, order, &mut reader, &mut writer);
    let outcome = Outcome {
        text: writer.into_inner(),
        ending,
    };
    (outcome, heap.has_spared())
}

/// If any allocation is refused for the only message, the run ends with `Memory`, and nothing is written.
#[test]
fn tells_that_memory_ran_out_for_the_only_message(rt: HostRuntime) -> Result<(), Fail> {
    let bytes = &MISMATCHED[0].0;
    for refused in 1_u64..1000 {
        let (one, is_spared) = explained_under(rt.alloc(), refused, bytes);
        if is_spared {
            assert!(rt; one.ending == Ok(()) && !one.text.is_empty() && refused > 1);
            return Ok(());
        }
        assert!(rt;
            one.ending == Err(RunFault::Memory) && one.text.is_empty(),
            "{refused}"
        );
    }
    assert!(rt; false);
    Ok(())
}

/// If there is a second message, an allocation refused for the lines of the first is not reported. Any other refused
/// allocation ends the run with `Memory`.
#[test]
fn forgets_that_memory_ran_out_where_another_message_comes(rt: HostRuntime) -> Result<(), Fail> {
    let mut frames = Vec::from_slice(rt.alloc(), &MISMATCHED[0].0)?;
    frames.extend_from_slice(&FRAMES[..16])?;
    let mut is_forgotten = false;
    for refused in 1_u64..1000 {
        let (two, is_spared) = explained_under(rt.alloc(), refused, &frames);
        match two.ending {
            Ok(()) => {
                let line = b"2 messages, none refused
";
                assert!(rt; two.text.as_slice() == line.as_slice(), "{refused}");
            }
            Err(fault) => {
                assert!(rt;
                    fault == RunFault::Memory && two.text.is_empty(),
                    "{refused}"
                );
            }
        }
        if is_spared {
            break;
        }
        if two.ending.is_ok() {
            is_forgotten = true;
        }
    }
    assert!(rt; is_forgotten);
    Ok(())
}
