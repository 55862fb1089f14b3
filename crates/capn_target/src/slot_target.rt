//! The call `resolve`, which follows a slot and its landing pads to the target, or to the first fault.

ghost use Rattle.std.specs.Prelude.{◌≡◌, ℕ, ◌<◌, ◌≤◌, ◌+◌, ◌^◌, length, Ok, Err, IfOk, OnOk, nat_lt, if◌then◌else◌};
ghost use Rattle.capn_words.specs.Message.{segment_at, IsPlace};
ghost use Rattle.capn_target.specs.Target as spec;
ghost use Rattle.capn_target.specs.Shapes.{IsInMessage};
ghost use Rattle.capn_target.specs.declared.target.Fault.TheVariants.{NoSegment, PadRange};

use crate::content::{many_at, node_at, segment_length, start_of};
use crate::reader::{CountedSpace, Reads};
use crate::target::{Fault, Target};
use capn_words::{Place, Pointer, Space, split};
use std::sync::ledger::Ledger;

/// Finds the target of the pointer at `at`, or the first fault of that pointer.
///
/// The place has to be in range. The errors are `Reserved` to `TagOverrun`. The tests are made in this order: the word
/// itself, the landing pad, the range of the content, the tag word of a composite list. Counts at most eight reads in
/// `reads`. Takes no memory. (Page: structs, lists, inter-segment pointers, capabilities; the order is our own.)
#[tactic(auto, unfolding(crate::specs::Target::target))]
#[inline(always)]
pub fn resolve<S: Space, L: Ledger>(
    space: &CountedSpace<'_, S, L>,
    at: Place,
    reads: &mut Reads<L>,
) -> Result<Target, Fault>
    requires { IsPlace space.now at }
    ensures exact { result ≡ spec.target space.now at }
    // If `result` is content, the content lies within its segment, which exists. The rows of a composite list are
    // within the words that the list's pointer gives.
    ensures inside { IfOk result (λ t. IsInMessage space.now t) }
    ensures reads { reads.new ≤ reads.old + 8 }
{
    let pointer = pointer_at(space, at.segment, at.word, reads);
    named(space, at.segment, at.word, pointer, reads)
}

/// Finds the target of `pointer`, which is at `word` of `segment`.
#[inline(always)]
fn named<S: Space, L: Ledger>(
    space: &CountedSpace<'_, S, L>,
    segment: u32,
    word: u32,
    pointer: Pointer,
    reads: &mut Reads<L>,
) -> Result<Target, Fault>
    ensures named { result ≡ spec.target_of_pointer space.now segment word pointer }
    ensures reads { reads.new ≤ reads.old + 7 }
{
    match pointer {
        Pointer::Nil => Ok(Target::Nil),
        Pointer::Cap(index) => Ok(Target::Cap(index)),
        Pointer::Reserved(_) => Err(Fault::Reserved),
        Pointer::Far {
            double,
            word,
            segment,
        } => {
            if double {
                behind_two(space, segment, word, reads)
            } else {
                behind_one(space, segment, word, reads)
            }
        }
        pointer => {
            let size = segment_length(space, segment, reads);
            near(space, segment, size, word, 0, pointer, reads)
        }
    }
}

/// Reads the pointer at `word` of `segment`. Counts in `reads` as one read.
#[inline(always)]
pub fn pointer_at<S: Space, L: Ledger>(
    space: &CountedSpace<'_, S, L>,
    segment: u32,
    word: u32,
    reads: &mut Reads<L>,
) -> Pointer
    requires { word < length (segment_at space.now segment) }
    ensures pointer { result ≡ spec.pointer_in space.now segment word }
    ensures reads { reads.new ≡ reads.old + 1 }
{
    split(space.word(Place { segment, word }, reads))
}

/// Returns the content that the struct or list pointer `pointer` leads to, or the fault of that content. The pointer is
/// at `word` of `segment`, which has `size` words. The pointer is the slot's own pointer if `pads` is 0, and a landing
/// pad of one word if `pads` is 1. Returns `BadPad` if `pointer` is neither a struct pointer nor a list pointer.
#[inline(always)]
pub fn near<S: Space, L: Ledger>(
    space: &CountedSpace<'_, S, L>,
    segment: u32,
    size: u32,
    word: u32,
    pads: u8,
    pointer: Pointer,
    reads: &mut Reads<L>,
) -> Result<Target, Fault>
    requires { size ≡ length (segment_at space.now segment) }
    ensures near { result ≡ spec.target_from space.now segment word pads pointer }
    ensures reads { reads.new ≤ reads.old + 1 }
{
    match pointer {
        Pointer::Node {
            offset,
            words,
            slots,
        } => {
            let start = start_of(word, offset)?;
            node_at(space, segment, size, start, pads, words, slots)
        }
        Pointer::Many {
            offset,
            width,
            count,
        } => {
            let start = start_of(word, offset)?;
            many_at(space, segment, size, start, pads, width, count, reads)
        }
        _ => Err(Fault::BadPad),
    }
}

/// Finds the target of a far pointer whose landing pad is one word, at `word` of `segment`.
#[inline(never)]
fn behind_one<S: Space, L: Ledger>(
    space: &CountedSpace<'_, S, L>,
    segment: u32,
    word: u32,
    reads: &mut Reads<L>,
) -> Result<Target, Fault>
    ensures landed { result ≡ spec.landing space.now segment word 1
        (spec.target_from space.now segment word 1
        (spec.pointer_in space.now segment word)) }
    ensures reads { reads.new ≤ reads.old + 5 }
{
    landing(space, segment, word, 1, reads)?;
    let size = segment_length(space, segment, reads);
    let pointer = pointer_at(space, segment, word, reads);
    near(space, segment, size, word, 1, pointer, reads)
}

/// Finds the target of a far pointer whose landing pad is two words, from `word` of `segment` on.
#[inline(never)]
fn behind_two<S: Space, L: Ledger>(
    space: &CountedSpace<'_, S, L>,
    segment: u32,
    word: u32,
    reads: &mut Reads<L>,
) -> Result<Target, Fault>
    ensures landed { result ≡ spec.landing space.now segment word 2
        (spec.two_pads space.now
        (spec.pointer_in space.now segment word)
        (spec.pointer_in space.now segment (word + 1))) }
    ensures reads { reads.new ≤ reads.old + 7 }
{
    landing(space, segment, word, 2, reads)?;
    let first = pointer_at(space, segment, word, reads);
    let second = pointer_at(space, segment, word + 1, reads);
    named_by_two(space, first, second, reads)
}

/// Finds the target that a landing pad of the words `first` and `second` leads to. `first` has to be a far pointer to
/// the content, and `second` has to give the form of the content. Otherwise returns `BadPad`.
fn named_by_two<S: Space, L: Ledger>(
    space: &CountedSpace<'_, S, L>,
    first: Pointer,
    second: Pointer,
    reads: &mut Reads<L>,
) -> Result<Target, Fault>
    ensures named { result ≡ spec.two_pads space.now first second }
    ensures reads { reads.new ≤ reads.old + 3 }
{
    let Pointer::Far {
        double: false,
        word,
        segment,
    } = first
    else {
        return Err(Fault::BadPad);
    };
    match second {
        Pointer::Nil => {
            exists(space, segment, reads)?;
            let size = segment_length(space, segment, reads);
            node_at(space, segment, size, word as u64, 2, 0, 0)
        }
        Pointer::Node {
            offset: _,
            words,
            slots,
        } => {
            exists(space, segment, reads)?;
            let size = segment_length(space, segment, reads);
            node_at(space, segment, size, word as u64, 2, words, slots)
        }
        Pointer::Many {
            offset: _,
            width,
            count,
        } => {
            exists(space, segment, reads)?;
            let size = segment_length(space, segment, reads);
            many_at(space, segment, size, word as u64, 2, width, count, reads)
        }
        _ => Err(Fault::BadPad),
    }
}

/// Returns an error if the landing pad of `pads` words at `word` of `segment` is not within an existing segment.
fn landing<S: Space, L: Ledger>(
    space: &CountedSpace<'_, S, L>,
    segment: u32,
    word: u32,
    pads: u32,
    reads: &mut Reads<L>,
) -> Result<(), Fault>
    requires { pads ≤ 2 }
    ensures exact { result ≡ (if nat_lt segment (length space.now)
        then if nat_lt (length (segment_at space.now segment)) (word + pads) then Err PadRange else Ok tt
        else Err NoSegment) }
    ensures small { OnOk result (word + pads < 2 ^ 32) }
    ensures reads { reads.new ≤ reads.old + 2 }
{
    exists(space, segment, reads)?;
    if word as u64 + pads as u64 > segment_length(space, segment, reads) as u64 {
        return Err(Fault::PadRange);
    }
    Ok(())
}

/// Returns `NoSegment` if `segment` does not exist.
fn exists<S: Space, L: Ledger>(
    space: &CountedSpace<'_, S, L>,
    segment: u32,
    reads: &mut Reads<L>,
) -> Result<(), Fault>
    ensures exact { result ≡ (if nat_lt segment (length space.now) then Ok tt else Err NoSegment) }
    ensures reads { reads.new ≡ reads.old + 1 }
{
    if segment < space.segments(reads) {
        Ok(())
    } else {
        Err(Fault::NoSegment)
    }
}
