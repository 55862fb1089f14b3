//! `agreed`: tests that all calls say the same about one message.

use capn_canon::{
    Canonical, Form, LayoutFault, Refusal, canonical_of, canonicalise, is_canonical, layout,
};
use capn_stream::first;
use capn_value::first_cap;
use capn_walk::{Limits, Stopped, Surveyed, Walked, survey, walk};
use capn_words::{Place, Space};
use std::alloc::Global;

/// The canonical bytes, or the reason why there are none.
pub(crate) type Answer = Result<Canonical, Refusal>;

/// Returns the result that all calls give for the message of `stream`. If the message is not read, or a call disagrees
/// with the others, the error is the name of that call.
pub(crate) fn agreed(alloc: Global, stream: &[u8], limits: Limits) -> Result<Answer, &'static str> {
    let Ok((space, _)) = first(alloc, stream, 268_435_456) else {
        return Err("first");
    };
    let walked = walk(alloc, &space, limits);
    if !is_surveyed(&survey(alloc, &space, limits), &walked) {
        return Err("survey");
    }
    let answer = answer_of(alloc, walked);
    if !is_same(&canonical_of(alloc, &space, limits), &answer) {
        return Err("canonical_of");
    }
    if !is_same(&canonicalise(alloc, Form::Stream, stream, limits), &answer) {
        return Err("canonicalise");
    }
    if !is_own(alloc, &answer, limits) {
        return Err("canonicalise of canonical bytes");
    }
    if !is_told(alloc, segment_of(&space), limits) {
        return Err("is_canonical");
    }
    Ok(answer)
}

// Tests whether `surveyed` and `walked` have the same price, visits and first capability, or stopped at the same place
// for the same reason.
fn is_surveyed(surveyed: &Result<Surveyed, Stopped>, walked: &Result<Walked, Stopped>) -> bool {
    match (surveyed, walked) {
        (Ok(told), Ok(walked)) => {
            told.paid == walked.paid
                && told.visits == walked.visits
                && told.capability == first_cap(walked.tree.value())
        }
        (Err(told), Err(stopped)) => told == stopped,
        _ => false,
    }
}

// Returns the answer that follows from `walked`: the layout of its value, or the reason why there is none.
fn answer_of(alloc: Global, walked: Result<Walked, Stopped>) -> Answer {
    match walked {
        Err(stopped) => Err(Refusal::Walk(stopped)),
        Ok(walked) => match layout(alloc, &walked.tree) {
            Ok(bytes) => Ok(Canonical {
                bytes,
                paid: walked.paid,
            }),
            Err(LayoutFault::Capability(index)) => Err(Refusal::Capability(index)),
            Err(LayoutFault::Memory) => Err(Refusal::Memory),
        },
    }
}

fn is_same(one: &Answer, other: &Answer) -> bool {
    match (one, other) {
        (Ok(one), Ok(other)) => {
            one.paid == other.paid && one.bytes.as_slice() == other.bytes.as_slice()
        }
        (Err(one), Err(other)) => one == other,
        _ => false,
    }
}

// Tests whether the canonical bytes in `answer`, read as a bare message under `limits`, are canonical and are their own
// canonical bytes. Returns `true` if `answer` is a refusal.
fn is_own(alloc: Global, answer: &Answer, limits: Limits) -> bool {
    let Ok(canonical) = answer else {
        return true;
    };
    let bytes = canonical.bytes.as_slice();
    is_canonical(alloc, bytes, limits) == Ok(true) && is_told(alloc, bytes, limits)
}

fn segment_of<S: Space>(space: &S) -> &[u8] {
    let start = Place {
        segment: 0,
        word: 0,
    };
    match space.words(0) {
        Some(words) => space.bytes(start, 8 * words as usize),
        None => &[],
    }
}

/// Tests whether `is_canonical` returns `true` if and only if `canonicalise` returns `bytes` unchanged. A refusal must
/// be the same for both calls.
pub(crate) fn is_told(alloc: Global, bytes: &[u8], limits: Limits) -> bool {
    let told = is_canonical(alloc, bytes, limits);
    match canonicalise(alloc, Form::Bare, bytes, limits) {
        Ok(canonical) => told == Ok(canonical.bytes.as_slice() == bytes),
        Err(refusal) => told == Err(refusal),
    }
}
