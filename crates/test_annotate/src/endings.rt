//! The ends of runs of `annotate`, with the text that is written until then.

use crate::run::annotated;
use capn_canon::{Form, Refusal};
use capn_pack::pack;
use capn_serve::{Position, RunFault};
use capn_walk::{Fault, Stopped};
use capn_words::Place;
use std::alloc::{AllocError, Global};
use std::test::Fail;
use test_allocator::Refusing;

/// The frame of a message of a number and a text, without the text's padding in the last line.
const WHOLE: [u8; 40] = [
    0x0, 0x0, 0x0, 0x0, 0x4, 0x0, 0x0, 0x0, 0x0, 0x0, 0x0, 0x0, 0x1, 0x0, 0x1, 0x0, 0x5, 0x0, 0x0,
    0x0, 0x0, 0x0, 0x0, 0x0, 0x1, 0x0, 0x0, 0x0, 0x1a, 0x0, 0x0, 0x0, 0x61, 0x62, 0x0, 0x0, 0x0,
    0x0, 0x0, 0x0,
];

/// The lines of `WHOLE`.
const WHOLE_LINES: &[u8] = b"\
0\t-\t0000000004000000\t1\ttable\t\t1 of 4 words\n\
8\t0:0\t0000000001000100\t1\tpointer\troot\tstruct of 1 words and 1 slots, offset 0, to 0:1\n\
16\t0:1\t0500000000000000\t1\tdata\troot\t1 words\n\
24\t0:2\t010000001a000000\t1\tpointer\t0\tlist of 3 bytes, offset 0, to 0:3\n\
32\t0:3\t6162000000000000\t1\tlist\t0\t3 bytes \"ab\\0\", padding 5 bytes\n\
40\tend\t1 at 0 words 4 pointer 2 null 0 pad 0 tag 0 data 1 list 1 slack 0 unreached 0 shared 0 overlap 0 \
hidden 0 cut 0 canonical 4\n";

/// The summaries of two such messages.
const SUMMARIES: &[u8] = b"\
1 at 0 words 4 pointer 2 null 0 pad 0 tag 0 data 1 list 1 slack 0 unreached 0 shared 0 overlap 0 hidden 0 cut 0 \
canonical 4\n\
2 at 40 words 4 pointer 2 null 0 pad 0 tag 0 data 1 list 1 slack 0 unreached 0 shared 0 overlap 0 hidden 0 cut 0 \
canonical 4\n";

/// The frame of a message whose root's struct leaves its segment.
const REFUSED: [u8; 16] = [
    0x0, 0x0, 0x0, 0x0, 0x1, 0x0, 0x0, 0x0, 0x0, 0x0, 0x0, 0x0, 0x1, 0x0, 0x0, 0x0,
];

fn joined(alloc: Global, first: &[u8], second: &[u8]) -> Result<Vec<u8>, AllocError> {
    let mut stream = Vec::new(alloc);
    stream.extend_from_slice(first)?;
    stream.extend_from_slice(second)?;
    Ok(stream)
}

/// The result of a run whose second message is `REFUSED`.
fn second_refused() -> Result<(), RunFault> {
    Err(RunFault::Refused(
        Position {
            index: 1,
            offset: 40,
        },
        Refusal::Walk(Stopped {
            fault: Fault::Range,
            place: Place::ROOT,
            paid: 0,
            visits: 1,
        }),
    ))
}

#[test]
fn nothing_is_written_of_a_refused_message(rt: HostRuntime) -> Result<(), Fail> {
    let stream = joined(rt.alloc(), &WHOLE, &REFUSED)?;
    let (ending, text) = annotated(
        rt.alloc(),
        rt.alloc(),
        Form::Stream,
        false,
        stream.as_slice(),
    );
    assert!(rt; ending == second_refused(), "{ending:?}");
    assert!(rt; text.as_slice() == WHOLE_LINES);
    Ok(())
}

#[test]
fn no_input_has_no_lines(rt: HostRuntime) -> Result<(), Fail> {
    let (ending, text) = annotated(rt.alloc(), rt.alloc(), Form::Stream, false, &[]);
    assert!(rt; ending == Ok(()) && text.is_empty());
    let (ending, text) = annotated(rt.alloc(), rt.alloc(), Form::Packed, true, &[]);
    assert!(rt; ending == Ok(()) && text.is_empty());
    Ok(())
}

#[test]
fn summaries_stand_alone(rt: HostRuntime) -> Result<(), Fail> {
    let stream = joined(rt.alloc(), &WHOLE, &WHOLE)?;
    let (ending, text) = annotated(
        rt.alloc(),
        rt.alloc(),
        Form::Stream,
        true,
        stream.as_slice(),
    );
    assert!(rt; ending == Ok(()) && text.as_slice() == SUMMARIES);
    Ok(())
}

#[test]
fn packed_writes_what_the_stream_writes(rt: HostRuntime) -> Result<(), Fail> {
    let stream = joined(rt.alloc(), &WHOLE, &WHOLE)?;
    let Ok(packed) = pack(rt.alloc(), stream.as_slice()) else {
        return Err(Fail::new("not packed"));
    };
    let (ending, text) = annotated(
        rt.alloc(),
        rt.alloc(),
        Form::Stream,
        false,
        stream.as_slice(),
    );
    let (other, lines) = annotated(
        rt.alloc(),
        rt.alloc(),
        Form::Packed,
        false,
        packed.as_slice(),
    );
    assert!(rt; ending == Ok(()) && other == Ok(()));
    assert!(rt; text.as_slice() == lines.as_slice());
    Ok(())
}

/// Each allocation is refused in turn. The run ends with `Memory`, and has written nothing or the beginning of the
/// lines.
#[test]
fn memory_may_be_refused_anywhere(rt: HostRuntime) -> Result<(), Fail> {
    for nth in 1..1000u64 {
        let heap = Refusing::nth(rt.alloc(), nth);
        let (ending, text) = annotated(rt.alloc(), &heap, Form::Stream, false, &WHOLE);
        assert!(rt; WHOLE_LINES.starts_with(text.as_slice()));
        if ending == Ok(()) {
            assert!(rt; 10 < nth && text.len() == WHOLE_LINES.len());
            return Ok(());
        }
        assert!(rt; ending == Err(RunFault::Memory), "{nth}: {ending:?}");
    }
    assert!(rt; false);
    Ok(())
}
