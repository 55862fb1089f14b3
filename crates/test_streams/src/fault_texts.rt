//! Tests of the texts of refusals, positions and counts of skipped messages, and of the calls that make them.

use capn_canon::Refusal;
use capn_pack::UnpackFault;
use capn_serve::{
    Line, Position, RunFault, ServeFault, SkipFault, Skipped, SkippedSoFar, fault_of_stop,
    number_of, one_more, say_place, say_refusal, say_skipped, skip_fault_after, skip_outcome,
    skipped_of,
};
use capn_stream::FrameFault;
use capn_walk::{Fault, Stopped};
use capn_words::{BareFault, Place, Watched};
use std::alloc::Global;
use std::process::Abort;

/// The first position of a stream, and the last that a run can have.
const FIRST: Position = Position {
    index: 0,
    offset: 0,
};

const LAST: Position = Position {
    index: u64::MAX,
    offset: u64::MAX,
};

/// The stop of a walk for which no memory was left, at word 7 of segment 3.
const NO_MEMORY: Stopped = Stopped {
    fault: Fault::Memory,
    place: Place {
        segment: 3,
        word: 7,
    },
    paid: 5,
    visits: 2,
};

/// Returns the stop at the same place with `fault`.
fn stop(fault: Fault) -> Stopped {
    Stopped { fault, ..NO_MEMORY }
}

/// The number of a message counts from 1, and so does not fit into 64 bits after 2^64 - 1 messages.
#[test]
fn numbers_of_messages(rt: HostRuntime) {
    assert!(rt; number_of(0) == 1);
    assert!(rt; number_of(41) == 42);
    assert!(rt; number_of(u64::MAX) == 18_446_744_073_709_551_616);
}

/// Only a refused allocation is a lack of memory. Every other stop refuses the message, with the stop unchanged.
#[test]
fn faults_of_stops(rt: HostRuntime) {
    assert!(rt; fault_of_stop(NO_MEMORY) == ServeFault::Memory);
    for (fault, _text) in FAULTS {
        let stopped = stop(fault);
        assert!(rt; fault_of_stop(stopped) == ServeFault::Refused(Refusal::Walk(stopped)));
    }
}

/// Returns the text that `say_place` writes for `at`, after the text `at `.
fn placed(alloc: Global, at: Position) -> Vec<u8> {
    let mut line = Line::new();
    let mut errors = Watched::new(Vec::new(alloc));
    line.put(b"at ", &mut errors);
    say_place(&at, &mut line, &mut errors);
    line.send(&mut errors);
    errors.into_inner()
}

#[test]
fn texts_of_positions(rt: HostRuntime) {
    assert!(rt; placed(rt.alloc(), FIRST).as_slice() == b"at 1 at 0".as_slice());
    let later = Position {
        index: 9,
        offset: 80,
    };
    assert!(rt; placed(rt.alloc(), later).as_slice() == b"at 10 at 80".as_slice());
    let last = b"at 18446744073709551616 at 18446744073709551615";
    assert!(rt; placed(rt.alloc(), LAST).as_slice() == last.as_slice());
}

/// Returns the text that `say_refusal` writes for `refusal`.
fn refused(alloc: Global, refusal: Refusal) -> Vec<u8> {
    let mut line = Line::new();
    let mut errors = Watched::new(Vec::new(alloc));
    say_refusal(&refusal, &mut line, &mut errors);
    line.send(&mut errors);
    errors.into_inner()
}

/// The faults of a walk other than `Memory`, and the text of a stop with each.
const FAULTS: [(Fault, &str); 11] = [
    (Fault::NoRoot, "NoRoot at 3:7, paid 5, visits 2"),
    (Fault::RootKind, "RootKind at 3:7, paid 5, visits 2"),
    (Fault::Reserved, "Reserved at 3:7, paid 5, visits 2"),
    (Fault::NoSegment, "NoSegment at 3:7, paid 5, visits 2"),
    (Fault::PadRange, "PadRange at 3:7, paid 5, visits 2"),
    (Fault::BadPad, "BadPad at 3:7, paid 5, visits 2"),
    (Fault::Range, "Range at 3:7, paid 5, visits 2"),
    (Fault::BadTag, "BadTag at 3:7, paid 5, visits 2"),
    (Fault::TagOverrun, "TagOverrun at 3:7, paid 5, visits 2"),
    (Fault::TooDeep, "TooDeep at 3:7, paid 5, visits 2"),
    (Fault::OverBudget, "OverBudget at 3:7, paid 5, visits 2"),
];

/// The refusals that do not come from a walk, and the text of each.
const REFUSALS: [(Refusal, &str); 16] = [
    (Refusal::Bare(BareFault::NotWhole(3)), "bare: NotWhole(3)"),
    (Refusal::Bare(BareFault::TooLong(9)), "bare: TooLong(9)"),
    (
        Refusal::Packed(UnpackFault::Memory),
        "packed: out of memory",
    ),
    (
        Refusal::Packed(UnpackFault::Cut { at: 6 }),
        "packed: Cut at 6",
    ),
    (
        Refusal::Packed(UnpackFault::TooLong { at: 8 }),
        "packed: TooLong at 8",
    ),
    (Refusal::Packed(UnpackFault::Failed), "packed: Failed"),
    (Refusal::Frame(FrameFault::Memory), "frame: out of memory"),
    (Refusal::Frame(FrameFault::Empty), "frame: Empty"),
    (
        Refusal::Frame(FrameFault::TooManySegments(513)),
        "frame: TooManySegments(513)",
    ),
    (
        Refusal::Frame(FrameFault::TooManyWords(0)),
        "frame: TooManyWords(0)",
    ),
    (Refusal::Frame(FrameFault::Cut), "frame: Cut"),
    (Refusal::Frame(FrameFault::Failed), "frame: Failed"),
    (
        Refusal::Trailing(u64::MAX),
        "trailing bytes at 18446744073709551615",
    ),
    (Refusal::Capability(u32::MAX), "capability 4294967295"),
    (Refusal::Walk(NO_MEMORY), "Memory at 3:7, paid 5, visits 2"),
    (Refusal::Memory, "out of memory"),
];

#[test]
fn texts_of_refusals(rt: HostRuntime) {
    for (fault, text) in FAULTS {
        let told = refused(rt.alloc(), Refusal::Walk(stop(fault)));
        assert!(rt; told.as_slice() == text.as_bytes());
    }
    for (refusal, text) in REFUSALS {
        let told = refused(rt.alloc(), refusal);
        assert!(rt; told.as_slice() == text.as_bytes());
    }
}

/// The first skipped message keeps its position, and the count stops at 2^64 - 1.
#[test]
fn counts_of_skipped_messages(rt: HostRuntime) {
    let one = SkippedSoFar {
        count: 1,
        first: FIRST,
    };
    assert!(rt; one_more(None, FIRST) == one);
    assert!(rt; one_more(Some(one), LAST) == SkippedSoFar { count: 2, ..one });
    let most = SkippedSoFar {
        count: u64::MAX,
        ..one
    };
    assert!(rt; one_more(Some(most), LAST) == most);
    let told = Skipped {
        refused: u64::MAX,
        messages: 7,
        first: FIRST,
    };
    assert!(rt; skipped_of(most, 7) == told);
    assert!(rt;
        skipped_of(one, 0)
            == Skipped {
                refused: 1,
                messages: 0,
                first: FIRST
            }
    );
}

/// The count of the skipped messages comes with a refused frame, and with the end of the input. A message that ends the
/// run is reported alone.
#[test]
fn faults_of_runs_that_skip(rt: HostRuntime) {
    let one = SkippedSoFar {
        count: 1,
        first: FIRST,
    };
    let told = skipped_of(one, 7);
    assert!(rt; skip_outcome(None, 7) == Ok(()));
    assert!(rt; skip_outcome(Some(one), 7) == Err(SkipFault::Skipped(told)));
    let cut = Refusal::Frame(FrameFault::Cut);
    let fault = RunFault::Refused(LAST, cut);
    assert!(rt; skip_fault_after(None, 7, fault) == SkipFault::Ended(fault));
    let after = SkipFault::RefusedAfterSkipped(told, LAST, cut);
    assert!(rt; skip_fault_after(Some(one), 7, fault) == after);
    for alone in [
        RunFault::Memory,
        RunFault::Io,
        RunFault::InputTooLong,
        RunFault::Refused(LAST, Refusal::Capability(2)),
    ] {
        assert!(rt; skip_fault_after(Some(one), 7, alone) == SkipFault::Ended(alone));
    }
}

/// Returns the text that `say_skipped` writes for `skipped`.
fn skipped_text(alloc: Global, skipped: Skipped) -> Vec<u8> {
    let mut line = Line::new();
    let mut errors = Watched::new(Vec::new(alloc));
    say_skipped(&skipped, &mut line, &mut errors);
    line.send(&mut errors);
    errors.into_inner()
}

#[test]
fn texts_of_skipped_messages(rt: HostRuntime) {
    let some = Skipped {
        refused: 2,
        messages: 5,
        first: Position {
            index: 1,
            offset: 16,
        },
    };
    let text = b"2 of 5 messages refused, the first is 2 at 16";
    assert!(rt; skipped_text(rt.alloc(), some).as_slice() == text.as_slice());
}
