//! The comparison of words of two messages, in place.

ghost use Rattle.std.specs.Prelude.{◌≡◌, ◌↔◌, ℕ, ◌+◌, ◌*◌, ◌<◌, ◌≤◌, List, length, IsTrue};
ghost use Rattle.capn_words.specs.Message.{IsMessage, segment_at};
ghost use Rattle.capn_value.specs.Same.{SameWords};
ghost use Rattle.capn_walk.specs.ValueAt.{AreWordsAt};
ghost use Rattle.capn_target.specs.Shapes.{IsContent};
ghost use Rattle.capn_same.specs.inner.Runs.{AreEqual, AreZeros};

use crate::blocks::are_equal_blocks;
use crate::run::{Run, behind};
use capn_target::counted::{CountedSpace, Reads};
use capn_words::{Place, Space};
use std::sync::ledger::Ledger;

/// Tests whether the `count` words of `a` from `at` on equal the `count` words of `b` from `beside` on.
#[inline(always)]
pub fn are_equal<S: Space, T: Space, L: Ledger, M: Ledger>(
    a: &CountedSpace<'_, S, L>,
    at: Place,
    b: &CountedSpace<'_, T, M>,
    beside: Place,
    count: u32,
    first: &mut Reads<L>,
    second: &mut Reads<M>,
) -> bool
    requires one { IsMessage a.now }
    requires two { IsMessage b.now }
    requires here { IsContent a.now at count }
    requires there { IsContent b.now beside count }
    ensures same { IsTrue result ↔ AreEqual (segment_at a.now at.segment) at.word (segment_at b.now beside.segment)
        beside.word count }
    ensures first { first.new ≤ first.old + 2 * count }
    ensures second { second.new ≤ second.old + 2 * count }
{
    let blocks = count / 8;
    if !are_equal_blocks(a, at, b, beside, blocks, first, second) {
        return false;
    }
    for i in 8 * blocks..count {
        first.tick();
        second.tick();
        let word = a.word(behind(at, i), first);
        if word != b.word(behind(beside, i), second) {
            return false;
        }
    }
    true
}

/// Tests whether the `count` words of `space` from `at` on are zero.
#[inline(never)]
pub fn are_zero<S: Space, L: Ledger>(
    space: &CountedSpace<'_, S, L>,
    at: Place,
    count: u32,
    reads: &mut Reads<L>,
) -> bool
    requires message { IsMessage space.now }
    requires content { IsContent space.now at count }
    ensures same { IsTrue result ↔ AreZeros (segment_at space.now at.segment) at.word count }
    ensures reads { reads.new ≤ reads.old + 2 * count }
{
    for i in 0..count {
        reads.tick();
        if space.word(behind(at, i), reads) != 0 {
            return false;
        }
    }
    true
}

/// Tests whether the words of the run `one` of `a` equal the words of the run `two` of `b`, one by one. The words that
/// the shorter run lacks count as 0.
#[inline(always)]
pub fn are_same<S: Space, T: Space, L: Ledger, M: Ledger>(
    a: &CountedSpace<'_, S, L>,
    one: Run,
    b: &CountedSpace<'_, T, M>,
    two: Run,
    first: &mut Reads<L>,
    second: &mut Reads<M>,
) -> bool
    requires one { IsMessage a.now }
    requires two { IsMessage b.now }
    requires here { IsContent a.now one.start one.count }
    requires there { IsContent b.now two.start two.count }
    ensures same { (ws vs : List ℕ) → AreWordsAt a.now one.start.segment one.start.word ws → length ws ≡ one.count
        → AreWordsAt b.now two.start.segment two.start.word vs → length vs ≡ two.count
        → IsTrue result ↔ SameWords ws vs }
    ensures first { first.new ≤ first.old + 2 * one.count }
    ensures second { second.new ≤ second.old + 2 * two.count }
{
    let shared = one.count.min(two.count);
    if !are_equal(a, one.start, b, two.start, shared, first, second) {
        return false;
    }
    if one.count == two.count {
        return true;
    }
    if !are_zero(a, behind(one.start, shared), one.count - shared, first) {
        return false;
    }
    are_zero(b, behind(two.start, shared), two.count - shared, second)
}
