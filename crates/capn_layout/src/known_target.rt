//! The target of a pointer that was already tested.

ghost use Rattle.std.specs.Prelude.{◌≡◌, ℕ, ◌+◌, ◌^◌, ◌<◌, ◌≤◌, Ok, length};
ghost use Rattle.capn_words.specs.Message.{segment_at, IsMessage, IsPlace};
ghost use Rattle.capn_words.specs.declared.pointer.Width.TheVariants.{Rows};
ghost use Rattle.capn_target.specs.Target as spec;
ghost use Rattle.capn_target.specs.declared.target.Target.{Target as Targets};

use capn_target::counted::{CountedSpace, Reads, pointer_at};
use capn_walk::{Shape, Target};
use capn_words::{Place, Pointer, Space, Width, split};
use std::sync::ledger::Ledger;

/// Returns the word at which content starts, for a pointer at `word` with the offset `offset`.
#[inline(always)]
fn start_of(word: u32, offset: i32) -> u32
    requires { (start : ℕ) × (spec.content_start word offset ≡ Ok start) × (start < 2 ^ 32) }
    ensures { spec.content_start word offset ≡ Ok result }
{
    let start = word as i64 + 1 + offset as i64;
    if start < 0 { 0 } else { start as u32 }
}

/// Returns the target of the pointer at `at`. The pointer is known to have a target, so nothing is tested again.
#[inline(always)]
pub fn target_at<S: Space, L: Ledger>(
    space: &CountedSpace<'_, S, L>,
    at: Place,
    reads: &mut Reads<L>,
) -> Target
    requires message { IsMessage space.now }
    requires place { IsPlace space.now at }
    requires found { (t : Targets) × (spec.target space.now at ≡ Ok t) }
    ensures found { spec.target space.now at ≡ Ok result }
    ensures reads { reads.new ≤ reads.old + 5 }
{
    match split(space.word(at, reads)) {
        Pointer::Nil => Target::Nil,
        Pointer::Node {
            offset,
            words,
            slots,
        } => Target::Content {
            segment: at.segment,
            start: start_of(at.word, offset),
            shape: Shape::Node { words, slots },
            pads: 0,
        },
        Pointer::Many {
            offset,
            width,
            count,
        } => match width {
            Width::Rows => rows_of(
                space,
                at.segment,
                start_of(at.word, offset),
                0,
                count,
                reads,
            ),
            _ => Target::Content {
                segment: at.segment,
                start: start_of(at.word, offset),
                shape: Shape::Many { width, count },
                pads: 0,
            },
        },
        Pointer::Far {
            double: false,
            word,
            segment,
        } => behind_one(space, segment, word, reads),
        Pointer::Far {
            double: true,
            word,
            segment,
        } => behind_two(space, segment, word, reads),
        Pointer::Cap(index) => Target::Cap(index),
        Pointer::Reserved(_) => unreachable!(),
    }
}

/// Returns the struct or list that `pointer` names. `pointer` is read from `word` of `segment`, which is a slot or a
/// landing pad of one word. The pointer is known to name content, so nothing is tested again.
#[inline(always)]
fn content_of<S: Space, L: Ledger>(
    space: &CountedSpace<'_, S, L>,
    segment: u32,
    word: u32,
    pads: u8,
    pointer: Pointer,
    reads: &mut Reads<L>,
) -> Target
    requires message { IsMessage space.now }
    requires place { word < length (segment_at space.now segment) }
    requires found { (t : Targets) × (spec.target_from space.now segment word pads pointer ≡ Ok t) }
    ensures found { spec.target_from space.now segment word pads pointer ≡ Ok result }
    ensures reads { reads.new ≤ reads.old + 1 }
{
    match pointer {
        Pointer::Node {
            offset,
            words,
            slots,
        } => Target::Content {
            segment,
            start: start_of(word, offset),
            shape: Shape::Node { words, slots },
            pads,
        },
        Pointer::Many {
            offset,
            width,
            count,
        } => match width {
            Width::Rows => rows_of(space, segment, start_of(word, offset), pads, count, reads),
            _ => Target::Content {
                segment,
                start: start_of(word, offset),
                shape: Shape::Many { width, count },
                pads,
            },
        },
        _ => unreachable!(),
    }
}

/// Returns the composite list of `span` words after the tag at word `start` of `segment`. The tag was already tested,
/// so nothing is tested again.
#[tactic(auto, using(std::proofs::lemmas::Grind::common_steps))]
#[inline(always)]
fn rows_of<S: Space, L: Ledger>(
    space: &CountedSpace<'_, S, L>,
    segment: u32,
    start: u32,
    pads: u8,
    span: u32,
    reads: &mut Reads<L>,
) -> Target
    requires found { (t : Targets) × (spec.list space.now segment start pads Rows span ≡ Ok t) }
    ensures found { spec.list space.now segment start pads Rows span ≡ Ok result }
    ensures reads { reads.new ≡ reads.old + 1 }
{
    let at = Place {
        segment,
        word: start,
    };
    let tag = space.word(at, reads);
    let shape = Shape::Rows {
        count: (tag >> 2 & 0x3fff_ffff) as u32,
        words: (tag >> 32 & 0xffff) as u16,
        slots: (tag >> 48 & 0xffff) as u16,
        span,
    };
    Target::Content {
        segment,
        start,
        shape,
        pads,
    }
}

/// Returns the target of a far pointer to the landing pad of one word at `word` of `segment`. The pointer is known to
/// have a target.
#[inline(always)]
fn behind_one<S: Space, L: Ledger>(
    space: &CountedSpace<'_, S, L>,
    segment: u32,
    word: u32,
    reads: &mut Reads<L>,
) -> Target
    requires message { IsMessage space.now }
    requires found { (t : Targets) × (spec.landing space.now segment word 1
        (spec.target_from space.now segment word 1 (spec.pointer_in space.now segment word)) ≡ Ok t) }
    ensures found { spec.landing space.now segment word 1
        (spec.target_from space.now segment word 1 (spec.pointer_in space.now segment word)) ≡ Ok result }
    ensures reads { reads.new ≤ reads.old + 2 }
{
    let pointer = pointer_at(space, segment, word, reads);
    content_of(space, segment, word, 1, pointer, reads)
}

/// Returns the target of a far pointer to the landing pad of two words at `word` of `segment`, found by [`resolved`].
/// The result has a variable of its own, so that the result takes space on the stack only in this function.
#[inline(always)]
fn behind_two<S: Space, L: Ledger>(
    space: &CountedSpace<'_, S, L>,
    segment: u32,
    word: u32,
    reads: &mut Reads<L>,
) -> Target
    requires found { (t : Targets) × (spec.landing space.now segment word 2
        (spec.two_pads space.now (spec.pointer_in space.now segment word)
        (spec.pointer_in space.now segment (word + 1))) ≡ Ok t) }
    ensures found { spec.landing space.now segment word 2
        (spec.two_pads space.now (spec.pointer_in space.now segment word)
        (spec.pointer_in space.now segment (word + 1))) ≡ Ok result }
    ensures reads { reads.new ≤ reads.old + 3 }
{
    let target = resolved(space.again(), segment, word, reads);
    target
}

/// Returns the target of a far pointer to the landing pad of two words at `word` of `segment`. The pointer is known to
/// have a target. The function is not inlined, because few pointers have such a pad.
#[inline(never)]
fn resolved<S: Space, L: Ledger>(
    space: CountedSpace<'_, S, L>,
    segment: u32,
    word: u32,
    reads: &mut Reads<L>,
) -> Target
    requires found { (t : Targets) × (spec.landing space segment word 2
        (spec.two_pads space (spec.pointer_in space segment word) (spec.pointer_in space segment (word + 1)))
        ≡ Ok t) }
    ensures found { spec.landing space.entry segment word 2
        (spec.two_pads space.entry (spec.pointer_in space.entry segment word)
        (spec.pointer_in space.entry segment (word + 1))) ≡ Ok result }
    ensures reads { reads.new ≤ reads.old + 3 }
{
    let first = pointer_at(&space, segment, word, reads);
    let second = pointer_at(&space, segment, word + 1, reads);
    named_by_two(&space, first, second, reads)
}

/// Returns the content that the two words of a landing pad name. `first` is a far pointer to the start of the content,
/// and `second` describes the content.
#[inline(always)]
fn named_by_two<S: Space, L: Ledger>(
    space: &CountedSpace<'_, S, L>,
    first: Pointer,
    second: Pointer,
    reads: &mut Reads<L>,
) -> Target
    requires found { (t : Targets) × (spec.two_pads space.now first second ≡ Ok t) }
    ensures found { spec.two_pads space.now first second ≡ Ok result }
    ensures reads { reads.new ≤ reads.old + 1 }
{
    let Pointer::Far {
        double: _,
        word: start,
        segment,
    } = first
    else {
        unreachable!()
    };
    let shape = match second {
        Pointer::Node {
            offset: _,
            words,
            slots,
        } => Shape::Node { words, slots },
        Pointer::Many {
            offset: _,
            width,
            count,
        } => match width {
            Width::Rows => return rows_of(space, segment, start, 2, count, reads),
            _ => Shape::Many { width, count },
        },
        _ => Shape::Node { words: 0, slots: 0 },
    };
    Target::Content {
        segment,
        start,
        shape,
        pads: 2,
    }
}
