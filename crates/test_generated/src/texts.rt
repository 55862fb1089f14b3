//! Tests of the texts of values, read back one by one and as a stream.

use crate::writing::message;
use capn_stream::first;
use capn_text::{Texts, read};
use capn_value::{Tree, same, show};
use capn_walk::{Limits, walk};
use capn_words::MOST_MESSAGE_WORDS;
use std::alloc::{AllocError, Global};
use std::test::Fail;

/// Returns the value of the message of `seed`.
pub(crate) fn value_of(alloc: Global, seed: u64) -> Result<Tree, Fail> {
    let stream = message(alloc, seed, 1)?;
    let Ok((space, _)) = first(alloc, stream.as_slice(), MOST_MESSAGE_WORDS) else {
        return Err(Fail::new("first"));
    };
    match walk(alloc, &space, Limits::usual()) {
        Ok(walked) => Ok(walked.tree),
        Err(_) => Err(Fail::new("walk")),
    }
}

// Tests whether `read` is the same value as `tree`, and has the text `text`. The text is compared too, because values
// with and without trailing zeros are the same, but differ in their texts.
fn is_read(alloc: Global, tree: &Tree, read: Option<Tree>, text: &[u8]) -> bool {
    match read {
        Some(read) => {
            let is_same = same(tree.value(), read.value());
            let again = show(alloc, &read);
            // One call of `drop` is cheaper for the prover than fields that are dropped one by one.
            drop(read);
            is_same && matches!(again, Ok(again) if again.as_bytes() == text)
        }
        None => false,
    }
}

// Tests whether the text of `tree` is read back as `tree`. Appends the text and a line `end` to `stream`.
fn joins(alloc: Global, tree: &Tree, stream: &mut Vec<u8>) -> Result<bool, AllocError> {
    let Ok(text) = show(alloc, tree) else {
        return Ok(false);
    };
    stream.extend_from_slice(text.as_bytes())?;
    stream.extend_from_slice(b"end\n")?;
    let alone = read(alloc, text.as_bytes()).ok();
    Ok(is_read(alloc, tree, alone, text.as_bytes()))
}

// Tests whether the next of `texts` is read as `tree`.
fn is_next(alloc: Global, tree: &Tree, texts: &mut Texts) -> bool {
    match (texts.read_next(alloc), show(alloc, tree)) {
        (Ok(next), Ok(text)) => is_read(alloc, tree, next, text.as_bytes()),
        _ => false,
    }
}

const SEEDS: u64 = 500;

#[test]
fn texts_of_five_hundred_values(rt: HostRuntime) -> Result<(), Fail> {
    let mut stream = Vec::new(rt.alloc());
    for seed in 0..SEEDS {
        let tree = value_of(rt.alloc(), seed)?;
        let is_right = joins(rt.alloc(), &tree, &mut stream);
        drop(tree);
        assert!(rt; is_right == Ok(true), "at seed {seed}");
    }
    let mut texts = Texts::new(stream.as_slice());
    for seed in 0..SEEDS {
        let tree = value_of(rt.alloc(), seed)?;
        let is_right = is_next(rt.alloc(), &tree, &mut texts);
        drop(tree);
        assert!(rt; is_right, "at seed {seed} of the stream");
    }
    assert!(rt; matches!(texts.read_next(rt.alloc()), Ok(None)));
    Ok(())
}
