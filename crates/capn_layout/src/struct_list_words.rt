//! The kept words and slots of rows, copied from the message. Any change here that alters canonical bytes makes a new
//! version of the canonical form.

ghost use Rattle.std.specs.Prelude.{◌≡◌, ◌+◌, ◌*◌, ◌^◌, ◌<◌, ◌≤◌, ◌++◌, take, length};
ghost use Rattle.capn_words.specs.Message.{IsMessage};
ghost use Rattle.capn_target.specs.Shapes.{IsContent};
ghost use Rattle.capn_walk.specs.ValueAt.{words_from};
ghost use Rattle.capn_layout.specs.RowWords.{row_cells};
ghost use Rattle.capn_layout.specs.inner.Draft.{Appends};

use crate::draft::extend;
use capn_target::counted::{CountedSpace, Reads};
use capn_words::{Place, Space};
use std::sync::ledger::Ledger;

/// Appends the first `words` words and the first `slots` slots of the row at `start` after the first `len` words of
/// `out`. The row has `size` words before its slots. If `words` equals `size`, words and slots are copied at once.
#[inline(always)]
fn push_parts<S: Space, L: Ledger>(
    space: &CountedSpace<'_, S, L>,
    start: Place,
    size: u32,
    words: u32,
    slots: u32,
    out: &mut [u8],
    len: usize,
    reads: &mut Reads<L>,
) -> usize
    requires message { IsMessage space.now }
    requires content { IsContent space.now start (size + slots) }
    requires part { words ≤ size }
    requires room { 8 * (len + (words + slots)) ≤ length out.old }
    ensures appends { Appends len result (take words (words_from space.now start.segment start.word)
        ++ take slots (words_from space.now start.segment (start.word + size))) out.old out.new }
    ensures reads { reads.new ≤ reads.old + words + slots }
{
    if words == size {
        let all = words + slots;
        return extend(out, len, space.bytes(start, 8 * all as usize, reads));
    }
    let below = Place {
        segment: start.segment,
        word: start.word + size,
    };
    let end = extend(out, len, space.bytes(start, 8 * words as usize, reads));
    extend(out, end, space.bytes(below, 8 * slots as usize, reads))
}

/// Appends `count` rows of the message, from `start` on, after the first `len` words of `out`. Of each row, the first
/// `kept` of the `words` words are appended, and then the first `below` of the `slots` slots. Returns the new number of
/// words. If all words and slots are kept, all rows are copied at once.
#[inline(always)]
pub fn push_rows<S: Space, L: Ledger>(
    space: &CountedSpace<'_, S, L>,
    start: Place,
    count: u32,
    words: u32,
    slots: u32,
    kept: u32,
    below: u32,
    out: &mut [u8],
    len: usize,
    reads: &mut Reads<L>,
) -> usize
    requires message { IsMessage space.now }
    requires content { IsContent space.now start (count * (words + slots)) }
    requires narrow { words + slots < 2 ^ 30 }
    requires part { 0 < count → (kept ≤ words) × (below ≤ slots) }
    requires short { kept + below < 2 ^ 30 }
    requires room { 8 * (len + count * (kept + below)) ≤ length out.old }
    ensures appends { Appends len result
        (row_cells space.now start.segment start.word (words + slots) words kept below count)
        out.old out.new }
    ensures reads { reads.new ≤ reads.old + count * (words + slots) }
{
    let step = words + slots;
    if kept + below == step {
        let size = count * step;
        return extend(out, len, space.bytes(start, 8 * size as usize, reads));
    }
    let mut next = start.word;
    let mut end = len;
    for row in 0..count {
        let at = Place {
            segment: start.segment,
            word: next,
        };
        reads.tick();
        end = push_parts(space, at, words, kept, below, out, end, reads);
        next += step;
    }
    end
}
