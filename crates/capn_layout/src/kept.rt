//! The lengths to which structs and rows are shortened, read from the words of a message. Any change here that alters
//! canonical bytes makes a new version of the canonical form.

ghost use Rattle.std.specs.Prelude.{◌≡◌, ◌+◌, ◌*◌, ◌<◌, ◌≤◌, max, take};
ghost use Rattle.capn_layout.specs.RowWords.{kept_each};
ghost use Rattle.capn_words.specs.Message.{IsMessage};
ghost use Rattle.capn_value.specs.Trim.{kept_words};
ghost use Rattle.capn_walk.specs.ValueAt.{words_from};
ghost use Rattle.capn_target.specs.Shapes.{IsContent};

use capn_target::counted::{CountedSpace, Reads};
use capn_words::{Place, Space};
use std::sync::ledger::Ledger;

/// Returns the number of words that are kept of the `count` words from `at` on. Zeros at the end are cut off, but at
/// least `least` words are kept.
#[inline(always)]
pub fn kept_above<S: Space, L: Ledger>(
    space: &CountedSpace<'_, S, L>,
    at: Place,
    count: u32,
    least: u32,
    reads: &mut Reads<L>,
) -> u32
    requires message { IsMessage space.now }
    requires content { IsContent space.now at count }
    requires least { least ≤ count }
    ensures kept { result ≡ max least (kept_words (take count (words_from space.now at.segment at.word))) }
    ensures reads { reads.new + 2 * least ≤ reads.old + 2 * count }
{
    if count == least {
        return count;
    }
    reads.tick();
    let last = Place {
        segment: at.segment,
        word: at.word + (count - 1),
    };
    if space.word(last, reads) != 0 {
        return count;
    }
    kept_below(space.again(), at, count - 1, least, reads)
}

/// Returns the result of [`kept_above`], found by a loop. The loop has a function of its own, so that its variables
/// don't lie on the stack at each level of depth.
#[inline(never)]
fn kept_below<S: Space, L: Ledger>(
    space: CountedSpace<'_, S, L>,
    at: Place,
    count: u32,
    least: u32,
    reads: &mut Reads<L>,
) -> u32
    requires message { IsMessage space }
    requires content { IsContent space at count }
    requires least { least ≤ count }
    ensures kept { result ≡ max least (kept_words (take count (words_from space.entry at.segment at.word))) }
    ensures reads { reads.new + 2 * least ≤ reads.old + 2 * count }
{
    let mut kept = count;
    while kept > least {
        reads.tick();
        let last = Place {
            segment: at.segment,
            word: at.word + (kept - 1),
        };
        if space.word(last, reads) != 0 {
            return kept;
        }
        kept -= 1;
    }
    kept
}

/// Returns the greatest number of words that a row keeps of the `size` words from its word `inset` on. There are
/// `count` rows, one every `step` words from `start` on. `reads` counts each read and each loop turn.
pub fn kept_each_counted<S: Space, L: Ledger>(
    space: CountedSpace<'_, S, L>,
    start: Place,
    count: u32,
    step: u32,
    inset: u32,
    size: u32,
    reads: &mut Reads<L>,
) -> u32
    requires message { IsMessage space }
    requires content { IsContent space start (count * step) }
    requires part { inset + size ≤ step }
    ensures kept { result ≡ kept_each space.entry start.segment (start.word + inset) size step count }
    ensures reads { reads.new ≤ reads.old + count + 2 * (count * size) }
{
    let mut kept = 0;
    let mut next = start.word;
    for row in 0..count {
        reads.tick();
        if kept == size {
            return kept;
        }
        let at = Place {
            segment: start.segment,
            word: next + inset,
        };
        kept = kept_above(&space, at, size, kept, reads);
        next += step;
    }
    kept
}
