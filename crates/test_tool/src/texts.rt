//! Tests of the texts and statuses of faults that no short message causes, and of the names of errors.

use capn_canon::Refusal;
use capn_pack::UnpackFault;
use capn_stream::FrameFault;
use capn_tool::*;
use capn_walk::{Fault, Stopped};
use capn_words::{BareFault, Place};
use std::alloc::Global;
use std::error::Error;
use std::process::Abort;
use test_allocator::Refusing;

/// Checks the text and the status of `fault`, and that its line is written even if every allocation is refused.
fn expect_text(rt: &impl Abort, alloc: Global, fault: ToolFault, text: &str, code: u8) {
    match fault_text(alloc, &fault) {
        Ok(got) => assert!(rt; got.as_bytes() == text.as_bytes() && status(&Err(fault)) == code),
        Err(_) => assert!(rt; false, "no memory"),
    }
    let short = Refusing::nth(alloc, 0);
    short.refuse_each();
    let mut errors = Watched::new(Vec::new(alloc));
    assert!(rt; end(&short, &Err(fault), &mut errors) == code && short.count() == 0);
    match format!(in alloc; "capn: {text}\n") {
        Ok(line) => assert!(rt; errors.into_inner().as_slice() == line.as_bytes(), "{text}"),
        Err(_) => assert!(rt; false, "no memory"),
    }
}

/// Checks that `error` is displayed as `name`.
fn expect_name<E: Error>(rt: &impl Abort, alloc: Global, error: &E, name: &str) {
    match format!(in alloc; "{error}") {
        Ok(shown) => assert!(rt; shown.as_bytes() == name.as_bytes()),
        Err(_) => assert!(rt; false, "no memory"),
    }
}

#[test]
fn faults_show_their_names(rt: HostRuntime) {
    let refusal = Refusal::Bare(BareFault::NotWhole(9));
    for (fault, name) in [
        (ToolFault::Memory, "Memory"),
        (ToolFault::Io, "Io"),
        (ToolFault::InputTooLong, "InputTooLong"),
        (ToolFault::NotWhole(9), "NotWhole"),
        (ToolFault::Refused(refusal), "Refused"),
    ] {
        expect_name(&rt, rt.alloc(), &fault, name);
    }
}

#[test]
fn refusals_of_a_run(rt: HostRuntime) {
    let stopped = Stopped {
        fault: Fault::TagOverrun,
        place: Place {
            segment: 1,
            word: u32::MAX,
        },
        paid: 2,
        visits: 3,
    };
    for (refusal, text) in [
        (
            Refusal::Bare(BareFault::TooLong(268_435_458)),
            "bare: TooLong(268435458)",
        ),
        (
            Refusal::Packed(UnpackFault::TooLong { at: 4 }),
            "packed: TooLong at 4",
        ),
        (Refusal::Frame(FrameFault::Empty), "frame: Empty"),
        (
            Refusal::Frame(FrameFault::TooManyWords(u64::MAX)),
            "frame: TooManyWords(18446744073709551615)",
        ),
        (Refusal::Trailing(16), "trailing bytes at 16"),
        (
            Refusal::Walk(stopped),
            "TagOverrun at 1:4294967295, paid 2, visits 3",
        ),
        (Refusal::Capability(5), "capability 5"),
    ] {
        expect_text(&rt, rt.alloc(), ToolFault::Refused(refusal), text, 1);
    }
}

#[test]
fn faults_of_a_run(rt: HostRuntime) {
    for (fault, text, code) in [
        (ToolFault::Memory, "out of memory", 3),
        (ToolFault::Io, "input or output failed", 3),
        (ToolFault::InputTooLong, "input too long", 3),
        (ToolFault::NotWhole(9), "NotWhole(9)", 1),
    ] {
        expect_text(&rt, rt.alloc(), fault, text, code);
    }
}
