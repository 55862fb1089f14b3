//! Calls to be tested with refused allocations: for canonical bytes, for surveys, for a fault's text, and for runs.

use crate::subject::{Answer, Subject, judged, limits, wanting};
use capn_canon::{
    Canonical, Form, Refusal, canonical_of, canonicalise, is_canonical, layout, survey_bytes,
};
use capn_commands::{Command, ToolFault, fault_text, run};
use capn_walk::Limits;
use capn_words::Watched;
use std::alloc::{Allocator, Global};
use test_allocator::Refusing;

pub(crate) fn canonical_answer(of: &Subject, short: &Refusing<Global>) -> Answer {
    judged_canonical(of, canonical_of(short, &of.message, limits(256)))
}

pub(crate) fn canonicalise_answer(of: &Subject, short: &Refusing<Global>) -> Answer {
    let packed = of.packed.as_slice();
    judged_canonical(of, canonicalise(short, Form::Packed, packed, limits(256)))
}

/// Judges `canonical`: it is right if it has the canonical bytes of the value.
pub(crate) fn judged_canonical(
    of: &Subject,
    canonical: Result<Canonical<&Refusing<Global>>, Refusal>,
) -> Answer {
    match (canonical, layout(of.alloc, &of.walked.tree)) {
        (Ok(canonical), Ok(want)) => judged(canonical.bytes.as_slice() == want.as_slice()),
        (Err(refusal), _) => wanting(matches!(refusal, Refusal::Memory)),
        _ => Answer::Wrong,
    }
}

/// Returns the outcome of `is_canonical` for the chain whose last pointer has another offset. That chain is not
/// canonical, so the call has to survey it, too.
pub(crate) fn check_answer(of: &Subject, short: &Refusing<Global>) -> Answer {
    match is_canonical(short, of.respelt.as_slice(), limits(256)) {
        Ok(is_canonical) => judged(!is_canonical),
        Err(refusal) => wanting(matches!(refusal, Refusal::Memory)),
    }
}

/// Returns the price, the visits and the first capability that a survey of `bytes` finds.
pub(crate) fn accounted<A: Allocator + Copy>(
    alloc: A,
    form: Form,
    bytes: &[u8],
    limits: Limits,
) -> Result<(u32, u32, Option<u32>), Refusal> {
    let told = survey_bytes(alloc, form, bytes, limits)?;
    Ok((told.paid, told.visits, told.capability))
}

/// Returns the outcome of a survey of the stream, of its packed bytes, or of the chain, which is read as a bare
/// message.
pub(crate) fn account_answer(of: &Subject, short: &Refusing<Global>, form: Form) -> Answer {
    let bytes = match form {
        Form::Stream => of.stream,
        Form::Packed => of.packed.as_slice(),
        Form::Bare => of.chain.as_slice(),
    };
    let told = accounted(short, form, bytes, limits(256));
    match (told, accounted(of.alloc, form, bytes, limits(256))) {
        (Ok(told), Ok(want)) => judged(told == want),
        (Err(refusal), Ok(_)) => wanting(matches!(refusal, Refusal::Memory)),
        _ => Answer::Wrong,
    }
}

pub(crate) fn text_answer(short: &Refusing<Global>) -> Answer {
    match fault_text(short, &ToolFault::NotWhole(9)) {
        Ok(text) => judged(text.as_bytes() == b"NotWhole(9)".as_slice()),
        Err(_) => Answer::Memory,
    }
}

/// Runs `command` over `input`, and returns its result and its output. The output is kept in memory that is never
/// refused.
pub(crate) fn output<A: Allocator + Copy>(
    ample: Global,
    alloc: A,
    command: Command,
    input: &[u8],
) -> (Result<(), ToolFault>, Vec<u8>) {
    let mut reader = Watched::new(input);
    let mut writer = Watched::new(Vec::new(ample));
    let outcome = run(alloc, command, &mut reader, &mut writer);
    (outcome, writer.into_inner())
}

/// Runs `command` over the stream, or over its packed bytes if the command takes these.
fn written<A: Allocator + Copy>(
    of: &Subject,
    alloc: A,
    command: Command,
) -> (Result<(), ToolFault>, Vec<u8>) {
    let input = match command {
        Command::Unpack(_) | Command::Check(Form::Packed, _) => of.packed.as_slice(),
        _ => of.stream,
    };
    output(of.alloc, alloc, command, input)
}

/// Returns the outcome of a run. After a refused allocation its output must be a prefix of the right one.
pub(crate) fn run_answer(of: &Subject, short: &Refusing<Global>, command: Command) -> Answer {
    let (_, want) = written(of, of.alloc, command);
    let (outcome, text) = written(of, short, command);
    match outcome {
        Ok(()) => judged(!text.is_empty() && text.as_slice() == want.as_slice()),
        Err(ToolFault::Memory) => wanting(want.as_slice().starts_with(text.as_slice())),
        Err(_) => Answer::Wrong,
    }
}
