//! Calls that read texts, to be tested with refused allocations.

use crate::short_values::judged_tree;
use crate::subject::{Answer, Subject, wanting};
use capn_text::{TextFault, Texts, read};
use capn_value::{Tree, same, show};
use std::alloc::{AllocError, Global};
use test_allocator::Refusing;

/// Judges `read`: it is right if it is the value of the message.
fn judged_read(of: &Subject, read: Result<Tree<&Refusing<Global>>, TextFault>) -> Answer {
    match read {
        Ok(tree) => judged_tree(of, Ok(tree)),
        Err(fault) => wanting(fault == TextFault::Memory),
    }
}

/// Returns the outcome of `read` for the text of the value.
pub(crate) fn read_text_answer(of: &Subject, short: &Refusing<Global>) -> Answer {
    match show(of.alloc, &of.walked.tree) {
        Ok(text) => judged_read(of, read(short, text.as_bytes())),
        Err(_) => Answer::Wrong,
    }
}

/// Returns the text of the value, and the line `end`.
fn ended_text(of: &Subject) -> Result<Vec<u8>, AllocError> {
    let mut bytes = Vec::new(of.alloc);
    if let Ok(text) = show(of.alloc, &of.walked.tree) {
        bytes.extend_from_slice(text.as_bytes())?;
    }
    bytes.extend_from_slice(b"end\n")?;
    Ok(bytes)
}

/// Tests whether the next of `texts` is read as the value of the message.
fn is_next(of: &Subject, texts: &mut Texts) -> bool {
    match texts.read_next(of.alloc) {
        Ok(Some(tree)) => {
            let is_same = same(tree.value(), of.walked.tree.value());
            drop(tree);
            is_same
        }
        _ => false,
    }
}

/// Returns the outcome of reading the next of `texts`. After a refused allocation the reading position must be
/// unchanged.
fn next_answer(of: &Subject, short: &Refusing<Global>, texts: &mut Texts) -> Answer {
    match texts.read_next(short) {
        Ok(Some(tree)) => judged_tree(of, Ok(tree)),
        Err(TextFault::Memory) => wanting(texts.line() == 1 && is_next(of, texts)),
        _ => Answer::Wrong,
    }
}

/// Returns the outcome of reading a stream of one text.
pub(crate) fn texts_answer(of: &Subject, short: &Refusing<Global>) -> Answer {
    match ended_text(of) {
        Ok(text) => next_answer(of, short, &mut Texts::new(text.as_slice())),
        Err(_) => Answer::Wrong,
    }
}
