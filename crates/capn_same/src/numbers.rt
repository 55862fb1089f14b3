//! The comparison of lists of elements without pointers, in place.

ghost use Rattle.std.specs.Prelude.{◌≡◌, ◌↔◌, ℕ, ◌+◌, ◌*◌, ◌^◌, ◌<◌, ◌≤◌, IsTrue};
ghost use Rattle.capn_words.specs.Message.{IsMessage};
ghost use Rattle.capn_walk.specs.ValueAt.{words_from};
ghost use Rattle.capn_target.specs.Target.{words_for};
ghost use Rattle.capn_target.specs.Shapes.{IsContent};
ghost use Rattle.capn_layout.specs.FirstBits.{first_bits};

use crate::run::behind;
use crate::words::are_equal;
use capn_target::counted::{CountedSpace, Reads};
use capn_words::{Place, Space};
use std::sync::ledger::Ledger;

/// Tests whether the first `bits` bits of the words from `at` on in `a` equal the first `bits` bits of the words from
/// `beside` on in `b`. The bits past the first `bits`, up to the end of the last word, are ignored.
pub fn are_same_bits<S: Space, T: Space, L: Ledger, M: Ledger>(
    a: &CountedSpace<'_, S, L>,
    at: Place,
    b: &CountedSpace<'_, T, M>,
    beside: Place,
    bits: u64,
    first: &mut Reads<L>,
    second: &mut Reads<M>,
) -> bool
    requires one { IsMessage a.now }
    requires two { IsMessage b.now }
    requires here { IsContent a.now at (words_for bits) }
    requires there { IsContent b.now beside (words_for bits) }
    requires few { bits < 2 ^ 38 }
    ensures same { IsTrue result ↔ (first_bits bits (words_from a.now at.segment at.word)
        ≡ first_bits bits (words_from b.now beside.segment beside.word)) }
    ensures first { first.new ≤ first.old + 2 * words_for bits }
    ensures second { second.new ≤ second.old + 2 * words_for bits }
{
    let full = (bits / 64) as u32;
    let rest = bits % 64;
    if !are_equal(a, at, b, beside, full, first, second) {
        return false;
    }
    if rest == 0 {
        return true;
    }
    let last = a.word(behind(at, full), first) % (1 << rest);
    last == b.word(behind(beside, full), second) % (1 << rest)
}
