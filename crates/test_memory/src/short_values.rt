//! Calls on messages and their values, to be tested with refused allocations.

use crate::subject::{Answer, Subject, judged, limits, wanting};
use capn_canon::{LayoutFault, Patch, layout};
use capn_value::{Items, Memory, Tree, same, show};
use capn_walk::{Fault, index, survey, walk};
use capn_words::{Bare, Space};
use std::alloc::{AllocError, Global};
use test_allocator::Refusing;

pub(crate) fn walk_answer(of: &Subject, short: &Refusing<Global>) -> Answer {
    match walk(short, &of.message, limits(256)) {
        Ok(walked) => {
            let is_same = same(walked.tree.value(), of.walked.tree.value());
            // One call of `drop` is cheaper for the prover than fields that are dropped one by one.
            drop(walked);
            judged(is_same)
        }
        Err(stopped) => wanting(matches!(stopped.fault, Fault::Memory)),
    }
}

pub(crate) fn survey_answer(of: &Subject, short: &Refusing<Global>) -> Answer {
    let Ok(bare) = Bare::new(of.chain.as_slice()) else {
        return Answer::Wrong;
    };
    match survey(short, &bare, limits(256)) {
        Ok(told) => judged(told.visits == 141),
        Err(stopped) => wanting(matches!(stopped.fault, Fault::Memory)),
    }
}

/// Returns the outcome of `index` for the message `space`.
pub(crate) fn index_answer<S: Space>(of: &Subject, short: &Refusing<Global>, space: &S) -> Answer {
    match (
        index(short, space, limits(256)),
        index(of.alloc, space, limits(256)),
    ) {
        (Ok(index), Ok(want)) => judged(
            index.paid == want.paid && index.entries.as_slice() == want.entries.as_slice(),
        ),
        (Err(stopped), Ok(_)) => wanting(matches!(stopped.fault, Fault::Memory)),
        _ => Answer::Wrong,
    }
}

/// Returns the outcome of `index` for the chain, whose survey takes no memory.
pub(crate) fn deep_index_answer(of: &Subject, short: &Refusing<Global>) -> Answer {
    match Bare::new(of.chain.as_slice()) {
        Ok(bare) => index_answer(of, short, &bare),
        Err(_) => Answer::Wrong,
    }
}

pub(crate) fn show_answer(of: &Subject, short: &Refusing<Global>) -> Answer {
    match (
        show(short, &of.walked.tree),
        show(of.alloc, &of.walked.tree),
    ) {
        (Ok(text), Ok(want)) => judged(text.as_str() == want.as_str()),
        (_, want) => wanting(want.is_ok()),
    }
}

/// Judges `tree`: it is right if it is the value of the message.
pub(crate) fn judged_tree(of: &Subject, tree: Result<Tree<&Refusing<Global>>, Memory>) -> Answer {
    match tree {
        Ok(tree) => {
            let is_same = same(tree.value(), of.walked.tree.value());
            drop(tree);
            judged(is_same)
        }
        Err(_) => Answer::Memory,
    }
}

pub(crate) fn items(short: &Refusing<Global>) -> Result<Items<u16, &Refusing<Global>>, AllocError> {
    let mut items = Items::from_slice(short, &[7u16])?;
    items.push(8)?;
    Ok(items)
}

/// Returns the number of allocations that a list of four items takes, if room for all of them is allocated at once.
pub(crate) fn growths_of_four(alloc: Global) -> Result<u64, AllocError> {
    let heap = Refusing::nth(alloc, 0);
    let mut items = Items::with_capacity(&heap, 4)?;
    for item in 0..4u16 {
        items.push(item)?;
    }
    Ok(heap.count())
}

/// Returns the outcome of `items`, which is right if the list has the items 7 and 8.
pub(crate) fn items_answer(short: &Refusing<Global>) -> Answer {
    match items(short) {
        Ok(items) => judged(items.as_slice() == [7, 8].as_slice()),
        Err(_) => Answer::Memory,
    }
}

pub(crate) fn layout_answer(of: &Subject, short: &Refusing<Global>) -> Answer {
    match (
        layout(short, &of.walked.tree),
        layout(of.alloc, &of.walked.tree),
    ) {
        (Ok(bytes), Ok(want)) => judged(bytes.as_slice() == want.as_slice()),
        (Err(fault), _) => wanting(matches!(fault, LayoutFault::Memory)),
        _ => Answer::Wrong,
    }
}

/// Returns the bytes of a patch buffer: the word 1, a word that is left out and then filled with 2, and an empty gap.
pub(crate) fn patched(short: &Refusing<Global>) -> Result<Vec<u8, &Refusing<Global>>, Memory> {
    let mut patch = Patch::new(short);
    patch.push(1)?;
    let at = patch.leave(1)?;
    patch.leave(0)?;
    patch.fill(at, 2);
    match patch.finish() {
        Ok(bytes) => Ok(bytes),
        Err((_, fault)) => Err(fault),
    }
}

/// Returns the outcome of `patched`, which is right if the bytes are those of the words 1 and 2.
pub(crate) fn patch_answer(short: &Refusing<Global>) -> Answer {
    match patched(short) {
        Ok(bytes) => judged(bytes.as_slice() == b"\x01\0\0\0\0\0\0\0\x02\0\0\0\0\0\0\0".as_slice()),
        Err(_) => Answer::Memory,
    }
}
