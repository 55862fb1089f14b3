//! The numbers of a message's words: the words of all segments are counted from 0, segment by segment.

ghost use Rattle.std.specs.Prelude.{◌≡◌, ◌≤◌, ◌<◌, ◌+◌, length, IfOk, IfSome};
ghost use Rattle.capn_words.specs.Message.{IsMessage, IsPlace, segment_at};
ghost use Rattle.capn_cover.specs.Numbers.{number, place_from, CountsBefore};
ghost use Rattle.capn_cover.specs.inner.Laid.{IsLastBefore};

use capn_target::segment_length;
use capn_words::{Place, Space};
use std::alloc::{AllocError, Allocator};

/// Returns a vector in which element `s` is the number of words before segment `s` of the message `space`.
///
/// Memory: 4 bytes for each segment. An error means that an allocation on `alloc` was refused.
#[tactic(auto, using(crate::proofs::Before::one_more, crate::proofs::Before::next, crate::proofs::Before::within))]
pub fn words_before<S: Space, A: Allocator>(alloc: A, space: &S) -> Result<Vec<u32, A>, AllocError>
    requires { IsMessage (S.message space.now) }
    ensures { IfOk result (λ before. CountsBefore (S.message space.now) before.items) }
{
    let count = space.segments();
    let mut before = Vec::new(alloc);
    let mut next = 0;
    for segment in 0..count {
        before.push(next)?;
        if let Some(words) = space.words(segment) {
            next += words;
        }
    }
    Ok(before)
}

/// Returns the number of the word `word` of `segment`, which may also be the end of the segment. Element `s` of
/// `before` is the number of words before segment `s` of the message `space`.
#[tactic(auto, using(crate::proofs::Before::within))]
#[inline(always)]
pub fn number_of<S: Space>(_space: &S, before: &[u32], segment: u32, word: u32) -> u32
    requires message { IsMessage (S.message _space.now) }
    requires counts { CountsBefore (S.message _space.now) before.now }
    requires exists { segment < length (S.message _space.now) }
    requires within { word ≤ length (segment_at (S.message _space.now) segment) }
    ensures { result ≡ number (S.message _space.now) (record { segment = segment; word = word }) }
{
    before[segment as usize] + word
}

/// Returns the place of the word with the number `number`, or `None` if the message has no such word. Element `s` of
/// `before` is the number of words before segment `s` of the message `space`.
pub fn place_of<S: Space>(space: &S, before: &[u32], number: u32) -> Option<Place>
    requires message { IsMessage (S.message space.now) }
    requires counts { CountsBefore (S.message space.now) before.now }
    ensures place { result ≡ place_from 0 (S.message space.now) number }
    ensures within { IfSome result (λ at. IsPlace (S.message space.now) at) }
{
    let segment = segment_of(space, before, number);
    let word = number - before[segment as usize];
    if word < segment_length(space, segment) {
        Some(Place { segment, word })
    } else {
        None
    }
}

/// Returns the last segment before which there are at most `number` words. Element `s` of `before` is the number of
/// words before segment `s` of the message `space`.
fn segment_of<S: Space>(_space: &S, before: &[u32], number: u32) -> u32
    requires message { IsMessage (S.message _space.now) }
    requires counts { CountsBefore (S.message _space.now) before.now }
    ensures { IsLastBefore before.now number result }
{
    let mut low = 0;
    let mut high = before.len();
    'search: while high - low > 1 {
        let middle = low + (high - low) / 2;
        if before[middle] <= number {
            low = middle;
        } else {
            high = middle;
        }
    }
    low as u32
}
