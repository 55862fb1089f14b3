//! The lengths to which canonical bytes shorten structs, read from the words of a message.

ghost use Rattle.std.specs.Prelude.{◌≡◌, ◌+◌, ◌*◌, ◌≤◌, max, take};
ghost use Rattle.capn_words.specs.Message.{IsMessage};
ghost use Rattle.capn_value.specs.Trim.{kept_words};
ghost use Rattle.capn_target.specs.Shapes.{IsContent};
ghost use Rattle.capn_walk.specs.ValueAt.{words_from};
ghost use Rattle.capn_layout.specs.RowWords.{kept_each};

use capn_words::{Place, Space};

/// Returns the number of words that are kept of the `count` words from `at` on. Zeros at the end are cut off, but at
/// least `least` words are kept.
fn kept_above<S: Space>(space: &S, at: Place, count: u32, least: u32) -> u32
    requires message { IsMessage (S.message space.now) }
    requires content { IsContent (S.message space.now) at count }
    requires least { least ≤ count }
    ensures { result ≡ max least (kept_words (take count (words_from (S.message space.now) at.segment at.word))) }
{
    let mut kept = count;
    while kept > least {
        let last = Place {
            segment: at.segment,
            word: at.word + (kept - 1),
        };
        if space.word(last) != 0 {
            return kept;
        }
        kept -= 1;
    }
    kept
}

/// Returns the greatest number of words that a row keeps of the `size` words from its word `inset` on. There are
/// `count` rows, one every `step` words from `start` on.
pub fn kept_each<S: Space>(
    space: &S,
    start: Place,
    count: u32,
    step: u32,
    inset: u32,
    size: u32,
) -> u32
    requires message { IsMessage (S.message space.now) }
    requires content { IsContent (S.message space.now) start (count * step) }
    requires part { inset + size ≤ step }
    ensures { result ≡ kept_each (S.message space.now) start.segment (start.word + inset) size step count }
{
    let mut kept = 0;
    let mut next = start.word;
    for row in 0..count {
        if kept == size {
            return kept;
        }
        let at = Place {
            segment: start.segment,
            word: next + inset,
        };
        kept = kept_above(space, at, size, kept);
        next += step;
    }
    kept
}
