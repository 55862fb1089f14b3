//! Tests of the steps to a target, and of the reads of a message, that are counted.

ghost use Rattle.std.specs.Prelude.{◌≡◌, ◌<◌};

use crate::words::bytes_of;
use capn_target::counted::{
    CountedSpace, OnlySegment, PaidBytes, Reads, count_reads, many_at, near, node_at, size_of,
};
use capn_target::{Fault, Shape, Target};
use capn_words::{Bare, Place, Pointer, Space, Width};
use std::alloc::Global;
use std::marker::Brand;
use std::sync::ledger::{Blank, Ledger};
use std::test::Fail;

/// A message of a struct with two words.
const WORDS: [u64; 3] = [0x2_0000_0000, 0x0807_0605_0403_0201, 9];

/// Returns the content of `shape` that starts at word 1 of segment 0.
fn content(shape: Shape) -> Result<Target, Fault> {
    Ok(Target::Content {
        segment: 0,
        start: 1,
        shape,
        pads: 0,
    })
}

/// Tests the steps to the content behind the root pointer of `WORDS`.
fn finds_content<S: Space, L: Ledger>(
    space: &CountedSpace<'_, S, L>,
    reads: &mut Reads<L>,
) -> bool {
    let Some(size) = space.words(0, reads) else {
        return false;
    };
    let node = content(Shape::Node { words: 2, slots: 0 });
    let list = content(Shape::Many {
        width: Width::W64,
        count: 2,
    });
    let pointer = Pointer::Node {
        offset: 0,
        words: 2,
        slots: 0,
    };
    size_of(space, 0, 0, size, reads) == 3
        && size_of(space, 1, 0, size, reads) == 0
        && node_at(space, 0, size, 1, 0, 2, 0) == node
        && node_at(space, 0, size, 1, 0, 2, 1) == Err(Fault::Range)
        && many_at(space, 0, size, 1, 0, Width::W64, 2, reads) == list
        && many_at(space, 0, size, 1, 0, Width::W64, 3, reads) == Err(Fault::Range)
        && near(space, 0, size, 0, 0, pointer, reads) == node
}

/// Tests whether `bytes` are those of the last two words of `WORDS`.
fn are_last(alloc: Global, bytes: &mut PaidBytes) -> bool {
    if bytes.len() != 16 {
        return false;
    }
    let (one, two, four) = (bytes.next_byte(), bytes.next_pair(), bytes.next_quad());
    let is_read = one == 1 && two == 0x302 && four == 0x0706_0504;
    is_read && bytes.next_byte() == 8 && bytes.next_word() == 9 && bytes.len() == 0
}

/// Tests the reads of a message of one segment, with the words `WORDS`.
fn reads_words<S: Space, L: Ledger>(
    alloc: Global,
    space: &CountedSpace<'_, S, L>,
    reads: &mut Reads<L>,
) -> bool {
    if space.segments(reads) != 1 || space.words(0, reads) != Some(3) {
        return false;
    }
    reads.tick();
    let at = Place {
        segment: 0,
        word: 1,
    };
    let is_word = space.again().word(at, reads) == WORDS[1];
    let mut bytes = space.bytes(at, 16, reads);
    let mut copy = [0u8; 8];
    space.bytes(at, 8, reads).copy_to(&mut copy);
    let is_copied = match space.bytes(at, 8, reads).into_items(alloc) {
        Ok(items) => items.as_slice() == copy.as_slice(),
        Err(_) => false,
    };
    is_word && is_copied && copy == [1, 2, 3, 4, 5, 6, 7, 8] && are_last(alloc, &mut bytes)
}

/// Tests whether the message has one segment, whose words are read as those of the message.
fn is_only<S: Space, L: Ledger>(
    alloc: Global,
    space: &CountedSpace<'_, S, L>,
    reads: &mut Reads<L>,
) -> bool {
    match space.only_segment(reads) {
        Some(only) => is_read_alone(alloc, &only, reads),
        None => false,
    }
}

fn is_read_alone<L: Ledger>(
    alloc: Global,
    only: &OnlySegment<'_, L>,
    reads: &mut Reads<L>,
) -> bool {
    reads_words(alloc, &only.space(), reads)
}

/// Makes the three tests with the new ledger `blank`.
fn is_found<L: Ledger>(alloc: Global, message: &[u8], blank: Blank) -> bool
    requires name { blank.name ≡ L.name }
    requires parts { blank.parts ≡ L.parts }
    requires one { 0 < blank.parts }
{
    let Ok(space) = Bare::new(message) else {
        return false;
    };
    let (space, mut reads) = count_reads::<Bare, L>(&space, blank);
    finds_content(&space, &mut reads)
        && reads_words(alloc, &space, &mut reads)
        && is_only(alloc, &space, &mut reads)
}

#[test]
fn steps_and_reads_that_are_counted(rt: HostRuntime) -> Result<(), Fail> {
    let message = bytes_of(rt.alloc(), &WORDS)?;
    assert!(rt; is_found::<Brand>(rt.alloc(), message.as_slice(), Blank::new(1)));
    Ok(())
}
