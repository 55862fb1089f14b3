//! The offset of a word of a message in its stream, in bytes.

ghost use Rattle.std.specs.Prelude.{◌<◌, ◌≤◌, ◌≡◌, ◌^◌, length};
ghost use Rattle.capn_words.specs.Message.{IsPlace};
ghost use Rattle.capn_diagnostics.specs.PlaceByte as spec;

use capn_words::{Place, Space};

/// Returns the offset in bytes, in a stream, of the word at `at` of the message `space`.
///
/// `offset` is the byte at which the message begins. `table` is the number of words of its table, and 0 for a bare
/// segment. The call asks `space` for the length of each segment that precedes the word's segment.
#[tactic(auto, using(std::proofs::lemmas::List::Sums::sum_by_more_le, std::proofs::lemmas::List::Sums::fold_more))]
pub fn place_byte<S: Space>(space: &S, offset: u64, table: u32, at: Place) -> u64
    requires segment { at.segment ≤ length (S.message space.now) }
    requires fits { spec.place_byte offset table (S.message space.now) at < 2 ^ 64 }
    ensures { result ≡ spec.place_byte offset table (S.message space.now) at }
{
    let _bounds = space.segments();
    let mut before = 0;
    for segment in 0..at.segment {
        if let Some(words) = space.words(segment) {
            before += words;
        }
    }
    offset + 8 * (table as u64 + before as u64 + at.word as u64)
}

/// Returns the offset in bytes of the word at `at`, like `place_byte`. The place has to be in range, and the offset may
/// need more than 64 bits.
#[tactic(auto, using(crate::proofs::PlaceWithin::before_end, crate::proofs::PlaceWithin::has_segment))]
pub(crate) fn long_place_byte<S: Space>(space: &S, offset: u64, table: u32, at: Place) -> u128
    requires { IsPlace (S.message space.now) at }
    ensures { result ≡ spec.place_byte offset table (S.message space.now) at }
{
    let _bounds = space.segments();
    let within = place_byte(space, 0, table, at);
    u128::from(offset) + u128::from(within)
}
