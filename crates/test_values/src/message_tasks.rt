//! Tests of a task on the message that bytes encode in any of the three forms. These tests define the task.

use capn_canon::{Form, MessageTask, Refusal, run_task};
use capn_pack::UnpackFault;
use capn_stream::FrameFault;
use capn_walk::Limits;
use capn_words::{BareFault, Space};
use std::alloc::{Allocator, Global};
use std::process::Abort;
use test_allocator::Refusing;

/// The task that returns the number of segments of a message and the number of words of the first, and counts its runs.
/// It refuses a message of more than two segments.
#[derive(Drop)]
struct Sizes {
    runs: u32,
}

impl<A: Allocator + Copy> MessageTask<A> for Sizes {
    type Answer = (u32, u32);

    ghost use Rattle.std.specs.Prelude.{⊤};

    ghost answers = { λ before m limits r after. ⊤ };

    fn run<S: Space>(
        &mut self,
        _alloc: A,
        message: &S,
        _limits: Limits,
    ) -> Result<(u32, u32), Refusal> {
        self.runs = self.runs.saturating_add(1);
        if message.segments() > 2 {
            return Err(Refusal::Capability(7));
        }
        Ok((message.segments(), message.words(0).unwrap_or(0)))
    }
}

/// Returns the result of the task on the message that `bytes` encode in `form` within eight words, and how often the
/// task was run.
fn told<A: Allocator + Copy>(
    heap: A,
    form: Form,
    bytes: &[u8],
) -> (Result<(u32, u32), Refusal>, u32) {
    let limits = Limits::new(8, 8, 8).unwrap_or(Limits::usual());
    let mut task = Sizes { runs: 0 };
    let answer = run_task(heap, &mut task, form, bytes, limits);
    let Sizes { runs } = task;
    (answer, runs)
}

/// The frame of one segment of a word, and the frame of two segments, of one word and of none.
const ONE: [u8; 16] = [0, 0, 0, 0, 1, 0, 0, 0, 0, 0, 0, 0, 0, 0, 0, 0];

const TWO: [u8; 24] = [
    1, 0, 0, 0, 1, 0, 0, 0, 0, 0, 0, 0, 0, 0, 0, 0, 0, 0, 0, 0, 0, 0, 0, 0,
];

/// The table of three segments without words.
const THREE: [u8; 16] = [2, 0, 0, 0, 0, 0, 0, 0, 0, 0, 0, 0, 0, 0, 0, 0];

/// The packed bytes of `ONE`, of `TWO` and of `THREE`.
const ONE_PACKED: [u8; 4] = [0x10, 1, 0, 0];

const TWO_PACKED: [u8; 5] = [0x11, 1, 1, 0, 1];

const THREE_PACKED: [u8; 4] = [0x01, 2, 0, 0];

#[test]
fn a_task_in_each_form(rt: HostRuntime) {
    let alloc = rt.alloc();
    assert!(rt; told(alloc, Form::Stream, &ONE) == (Ok((1, 1)), 1));
    assert!(rt; told(alloc, Form::Stream, &TWO) == (Ok((2, 1)), 1));
    assert!(rt; told(alloc, Form::Packed, &ONE_PACKED) == (Ok((1, 1)), 1));
    assert!(rt; told(alloc, Form::Packed, &TWO_PACKED) == (Ok((2, 1)), 1));
    assert!(rt; told(alloc, Form::Bare, &TWO) == (Ok((1, 3)), 1));
    assert!(rt; told(alloc, Form::Bare, &[]) == (Ok((1, 0)), 1));
}

/// The refusal of a task is returned as it is.
#[test]
fn a_task_that_refuses(rt: HostRuntime) {
    let refused = Err(Refusal::Capability(7));
    assert!(rt; told(rt.alloc(), Form::Stream, &THREE) == (refused, 1));
    assert!(rt; told(rt.alloc(), Form::Packed, &THREE_PACKED) == (refused, 1));
}

/// Tests whether `bytes` are refused before the task is run.
fn is_unread(alloc: Global, form: Form, bytes: &[u8], refusal: Refusal) -> bool {
    told(alloc, form, bytes) == (Err(refusal), 0)
}

/// Bytes that are no message are refused, and so are bytes after a message, and messages of too many words.
#[test]
fn a_task_that_is_not_run(rt: HostRuntime) {
    let alloc = rt.alloc();
    let cut = Refusal::Frame(FrameFault::Cut);
    assert!(rt; is_unread(alloc, Form::Stream, &ONE[..15], cut));
    assert!(rt; is_unread(alloc, Form::Stream, &TWO[..23], cut));
    assert!(rt; is_unread(alloc, Form::Stream, &[0; 9], Refusal::Trailing(8)));
    let long = [0, 0, 0, 0, 9, 0, 0, 0];
    let words = Refusal::Frame(FrameFault::TooManyWords(9));
    assert!(rt; is_unread(alloc, Form::Stream, &long, words));
    let rest = Refusal::Bare(BareFault::NotWhole(15));
    assert!(rt; is_unread(alloc, Form::Bare, &ONE[..15], rest));
    let group = Refusal::Packed(UnpackFault::Cut { at: 2 });
    assert!(rt; is_unread(alloc, Form::Packed, &ONE_PACKED[..3], group));
    assert!(rt; is_unread(alloc, Form::Packed, &ONE_PACKED[..2], cut));
}

/// Only the unpacked words of such small messages take memory.
#[test]
fn a_task_without_memory(rt: HostRuntime) {
    let heap = Refusing::nth(rt.alloc(), 0);
    heap.refuse_each();
    assert!(rt; told(&heap, Form::Stream, &TWO) == (Ok((2, 1)), 1));
    assert!(rt; told(&heap, Form::Bare, &TWO) == (Ok((1, 3)), 1));
    assert!(rt; told(&heap, Form::Packed, &ONE_PACKED) == (Err(Refusal::Memory), 0));
}
