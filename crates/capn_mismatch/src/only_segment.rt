//! A message of one segment, read as a bare segment.

ghost use Rattle.std.specs.Prelude.{◌≡◌, [], ◌∷◌, length};

use capn_target::segment_length;
use capn_words::{Bare, Place, Space};

/// Returns the only segment of the message `space` as bare words, which are faster to read.
pub fn only_segment<S: Space>(space: &S) -> Bare<'_>
    requires one { length (S.message space.now) ≡ 1 }
    ensures { S.message space.now ≡ result ∷ [] }
{
    let _segments = space.segments();
    let words = segment_length(space, 0);
    match Bare::new(space.bytes(Place::ROOT, 8 * words as usize)) {
        Ok(bare) => bare,
        Err(_) => unreachable!(),
    }
}
