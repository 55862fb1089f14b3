//! Calls that show messages with marks or make messages from texts, to be tested with refused allocations.

use crate::subject::{Answer, Subject, judged, limits, wanting};
use capn_canon::Form;
use capn_make::{MakeFault, make_texts};
use capn_marks::{Marks, show_marked};
use capn_show::ShowFault;
use capn_walk::Fault;
use capn_words::Watched;
use std::alloc::{Allocator, Global};
use test_allocator::Refusing;

/// Every kind of mark, for a message after a table of two words.
const MARKS: Marks = Marks {
    offsets: true,
    ways: true,
    quoted: true,
    offset: 0,
    table: 2,
};

/// Returns the result of showing the message with marks, and the part of the text that has not been written yet.
fn marked<A: Allocator + Copy>(of: &Subject, alloc: A) -> (Result<(), ShowFault>, Vec<u8, A>) {
    let mut text = Vec::new(alloc);
    let mut writer = Watched::new(Vec::new(of.alloc));
    let message = &of.message;
    let outcome = show_marked(
        alloc,
        &mut text,
        &mut writer,
        message,
        limits(256),
        MARKS,
        &[],
    );
    (outcome, text)
}

/// Tests whether `fault` is a refused allocation.
fn is_memory(fault: ShowFault) -> bool {
    match fault {
        ShowFault::Memory => true,
        ShowFault::Io => false,
        ShowFault::Stopped(stopped) => stopped.fault == Fault::Memory,
    }
}

/// Returns the outcome of showing the message with marks. After a refused allocation the text must be a prefix of the
/// right one.
pub(crate) fn marked_answer(of: &Subject, short: &Refusing<Global>) -> Answer {
    let (_, want) = marked(of, of.alloc);
    let (outcome, text) = marked(of, short);
    match outcome {
        Ok(()) => judged(!text.is_empty() && text.as_slice() == want.as_slice()),
        Err(fault) => wanting(is_memory(fault) && want.as_slice().starts_with(text.as_slice())),
    }
}

/// Two texts, each with a list of bytes between quotes.
const TEXTS: &[u8] = b"struct 0 1\n  bytes 3 \"ab\\0\"\nend\nstruct 0 1\n  bytes \"c\"\nend\n";

/// Makes messages from the texts. The output is kept in memory that is never refused.
fn made<A: Allocator + Copy>(ample: Global, alloc: A) -> (Result<(), MakeFault>, Vec<u8>) {
    let mut reader = Watched::new(TEXTS);
    let mut writer = Watched::new(Vec::new(ample));
    let outcome = make_texts(alloc, Form::Stream, &mut reader, &mut writer);
    (outcome, writer.into_inner())
}

/// Returns the outcome of making messages from the texts. After a refused allocation the output must be a prefix of the
/// right one.
pub(crate) fn made_answer(of: &Subject, short: &Refusing<Global>) -> Answer {
    let (_, want) = made(of.alloc, of.alloc);
    let (outcome, made) = made(of.alloc, short);
    match outcome {
        Ok(()) => judged(made.len() == 64 && made.as_slice() == want.as_slice()),
        Err(fault) => {
            wanting(fault == MakeFault::Memory && want.as_slice().starts_with(made.as_slice()))
        }
    }
}
