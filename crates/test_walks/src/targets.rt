//! Tests of the targets of pointers, and of the steps to them.

use crate::words::bytes_of;
use capn_layout::target_at;
use capn_target::counted::{self, Asked, CountedSpace, CountedTask, Reads};
use capn_target::{
    Fault, Shape, Target, content_words, place, pointer_at, resolve, segment_length, start_of,
};
use capn_words::{Bare, Pointer, Space, Width};
use std::alloc::Global;
use std::sync::ledger::Ledger;

/// A pointer to a struct of one word, which follows.
const STRUCT: [u64; 2] = [0x1_0000_0000, 9];

/// A far pointer to a struct of one word, by a landing pad of one word.
const BY_PAD: [u64; 3] = [0xa, 0x1_0000_0000, 9];

/// A pointer to a landing pad that is a far pointer.
const BY_TWO_PADS: [u64; 2] = [0xa, 0x1a];

/// A pointer to a struct of two words, only one of which exists.
const TOO_SHORT: [u64; 2] = [0x2_0000_0000, 9];

/// A pointer to eight bytes, which follow.
const BYTES: [u64; 2] = [0x42_0000_0001, 9];

/// A pointer to nine bytes, only eight of which exist.
const TOO_MANY: [u64; 2] = [0x4a_0000_0001, 9];

/// Returns the target of the first word of a segment.
fn root_of(alloc: Global, words: &[u64]) -> Option<Result<Target, Fault>> {
    let bytes = bytes_of(alloc, words).ok()?;
    let bare = Bare::new(bytes.as_slice()).ok()?;
    if segment_length(&bare, 0) == 0 {
        return None;
    }
    Some(resolve(&bare, place(0, 0)))
}

/// Returns the first word of a segment, as a pointer.
fn first_pointer_of(alloc: Global, words: &[u64]) -> Option<Pointer> {
    let bytes = bytes_of(alloc, words).ok()?;
    let bare = Bare::new(bytes.as_slice()).ok()?;
    if segment_length(&bare, 0) == 0 {
        return None;
    }
    Some(pointer_at(&bare, 0, 0))
}

/// Returns the lengths of segment 0 and of segment 1, which does not exist.
fn sizes_of(alloc: Global, words: &[u64]) -> Option<[u32; 2]> {
    let bytes = bytes_of(alloc, words).ok()?;
    let bare = Bare::new(bytes.as_slice()).ok()?;
    Some([segment_length(&bare, 0), segment_length(&bare, 1)])
}

/// Returns the content of `shape` that starts at word `start` of segment 0, reached by a landing pad of `pads` words.
fn content(start: u32, shape: Shape, pads: u8) -> Result<Target, Fault> {
    Ok(known(start, shape, pads))
}

/// Returns the target of that content.
fn known(start: u32, shape: Shape, pads: u8) -> Target {
    Target::Content {
        segment: 0,
        start,
        shape,
        pads,
    }
}

#[test]
fn what_a_pointer_names(rt: HostRuntime) {
    let shape = Shape::Node { words: 1, slots: 0 };
    assert!(rt; root_of(rt.alloc(), &STRUCT) == Some(content(1, shape, 0)));
    assert!(rt; root_of(rt.alloc(), &BY_PAD) == Some(content(2, shape, 1)));
    assert!(rt; root_of(rt.alloc(), &TOO_SHORT) == Some(Err(Fault::Range)));
    assert!(rt; root_of(rt.alloc(), &BY_TWO_PADS) == Some(Err(Fault::BadPad)));
}

#[test]
fn content_from_a_word_on(rt: HostRuntime) {
    let shape = Shape::Node { words: 1, slots: 0 };
    let list = Shape::Many {
        width: Width::W8,
        count: 8,
    };
    assert!(rt; root_of(rt.alloc(), &STRUCT) == Some(content(1, shape, 0)));
    assert!(rt; root_of(rt.alloc(), &BYTES) == Some(content(1, list, 0)));
    assert!(rt; root_of(rt.alloc(), &TOO_SHORT) == Some(Err(Fault::Range)));
    assert!(rt; root_of(rt.alloc(), &TOO_MANY) == Some(Err(Fault::Range)));
}

#[test]
fn steps_to_content(rt: HostRuntime) {
    assert!(rt; start_of(3, -4) == Ok(0) && start_of(3, 1) == Ok(5));
    assert!(rt; start_of(3, -5) == Err(Fault::Range));
    assert!(rt; content_words(Width::W1, 65) == 2 && content_words(Width::Rows, 3) == 4);
    assert!(rt; sizes_of(rt.alloc(), &STRUCT) == Some([2, 0]));
    let far = Pointer::Far {
        double: false,
        word: 1,
        segment: 0,
    };
    assert!(rt; first_pointer_of(rt.alloc(), &BY_PAD) == Some(far));
}

/// The task that finds the target of the first word by `resolve`, and then once more by `target_at`, which tests
/// nothing. Its `most` is the bound of the two and of the length of the segment.
#[derive(Drop)]
struct TwiceTask;

impl CountedTask for TwiceTask {
    type Told = Option<(Target, Target)>;

    ghost use Rattle.std.specs.Prelude.{⊤};

    ghost tells = { λ t m r. ⊤ };

    ghost most = { λ t. 14 };

    fn run<S: Space, L: Ledger>(
        self,
        space: &CountedSpace<'_, S, L>,
        reads: &mut Reads<L>,
    ) -> Option<(Target, Target)> {
        space.bounds();
        if counted::segment_length(space, 0, reads) == 0 {
            return None;
        }
        let at = place(0, 0);
        match counted::resolve(space, at, reads) {
            Ok(target) => Some((target, target_at(space, at, reads))),
            Err(_) => None,
        }
    }
}

/// Tests whether `resolve` and `target_at` find the target `want` for the first word of a segment.
fn is_twice(alloc: Global, words: &[u64], want: Target) -> bool {
    let Ok(bytes) = bytes_of(alloc, words) else {
        return false;
    };
    match Bare::new(bytes.as_slice()) {
        Ok(bare) => (&bare).ask(TwiceTask) == Some((want, want)),
        Err(_) => false,
    }
}

/// A far pointer to a landing pad of two words, which leads to two rows of a word.
const ROWS_BY_TWO_PADS: [u64; 6] = [0xe, 0x1a, 0x17_0000_0001, 0x1_0000_0008, 7, 9];

/// A target that was tested is found again without a test, whatever the pointer: null, near, far or a capability.
#[test]
fn a_target_that_is_known(rt: HostRuntime) {
    let node = Shape::Node { words: 1, slots: 0 };
    let list = Shape::Many {
        width: Width::W8,
        count: 8,
    };
    let rows = Shape::Rows {
        count: 2,
        words: 1,
        slots: 0,
        span: 2,
    };
    assert!(rt; is_twice(rt.alloc(), &[0], Target::Nil));
    assert!(rt; is_twice(rt.alloc(), &[0x7_0000_0003], Target::Cap(7)));
    assert!(rt; is_twice(rt.alloc(), &STRUCT, known(1, node, 0)));
    assert!(rt; is_twice(rt.alloc(), &BYTES, known(1, list, 0)));
    assert!(rt; is_twice(rt.alloc(), &BY_PAD, known(2, node, 1)));
    assert!(rt; is_twice(rt.alloc(), &ROWS_BY_TWO_PADS, known(3, rows, 2)));
    assert!(rt; is_twice(rt.alloc(), &ROWS_BY_TWO_PADS[2..], known(1, rows, 0)));
}
