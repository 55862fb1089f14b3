//! The offsets of a message's words in a stream, in bytes, and the number of words before each segment.

ghost use Rattle.std.specs.Prelude.{◌≡◌, ◌≤◌, ◌<◌, ◌^◌, length, IfOk};
ghost use Rattle.capn_words.specs.Message.{IsMessage, segment_at};
ghost use Rattle.capn_marks.specs.Marked as spec;
ghost use Rattle.capn_marks.specs.MarkedPlaces.{CountsBefore};

use crate::marks::Marks;
use capn_words::{Place, Space};
use std::alloc::{AllocError, Allocator};

/// Returns a vector in which element `s` is the number of words before segment `s` of the message `space`. The message
/// has several segments.
#[tactic(auto, using(crate::proofs::Before::one_more, crate::proofs::Before::next, crate::proofs::Before::within))]
pub fn words_before<S: Space, A: Allocator>(alloc: A, space: &S) -> Result<Vec<u32, A>, AllocError>
    requires message { IsMessage (S.message space.now) }
    requires several { 1 < length (S.message space.now) }
    ensures { IfOk result (λ before. CountsBefore (S.message space.now) before.items) }
{
    let count = space.segments();
    let mut before = Vec::new(alloc);
    let mut next = 0;
    for segment in 0..count {
        before.push(next)?;
        if let Some(words) = space.words(segment) {
            next += words;
        }
    }
    Ok(before)
}

/// Returns the offset in bytes, in the stream, of the first word after the table that `marks` describes.
#[inline(always)]
fn first_byte(marks: &Marks) -> u128
    ensures is { result ≡ spec.first_byte marks.now }
    ensures small { result < 2 ^ 65 }
{
    marks.offset as u128 + 8 * marks.table as u128
}

/// Returns the offset in bytes, in the stream, of the word at `at`. The place `at` may also be the end of a segment.
/// Element `s` of `before` is the number of words before segment `s`.
#[tactic(auto, using(crate::proofs::Before::within))]
#[inline(always)]
pub fn byte_of<S: Space>(space: &S, marks: &Marks, before: &[u32], at: Place) -> u128
    requires message { IsMessage (S.message space.now) }
    requires counts { CountsBefore (S.message space.now) before.now }
    requires exists { at.segment < length (S.message space.now) }
    requires within { at.word ≤ length (segment_at (S.message space.now) at.segment) }
    ensures is { result ≡ spec.byte_at (S.message space.now) marks.now at }
    ensures small { result < 2 ^ 66 }
{
    first_byte(marks) + 8 * (before[at.segment as usize] + at.word) as u128
}
