//! The comparison of words of two messages, in blocks of eight words.

ghost use Rattle.std.specs.Prelude.{◌≡◌, ◌↔◌, ℕ, ◌+◌, ◌*◌, ◌<◌, ◌≤◌, length, drop, IsTrue};
ghost use Rattle.capn_words.specs.Message.{IsMessage, segment_at};
ghost use Rattle.capn_target.specs.Shapes.{IsContent};
ghost use Rattle.capn_same.specs.inner.Runs.{AreEqual, BeginAlike};

use capn_target::counted::{CountedSpace, PaidBytes, Reads};
use capn_words::{Place, Space};
use std::sync::ledger::Ledger;

/// Reads the next word of `one` and of `two`, and tests whether the two words are equal.
#[inline(always)]
fn is_next_equal(one: &mut PaidBytes<'_>, two: &mut PaidBytes<'_>) -> bool
    requires here { 8 ≤ length one.old }
    requires there { 8 ≤ length two.old }
    ensures same { IsTrue result ↔ BeginAlike one.old two.old 1 }
    ensures one { one.new ≡ drop 8 one.old }
    ensures two { two.new ≡ drop 8 two.old }
{
    one.next_word() == two.next_word()
}

/// Tests whether the next two words of `one` equal the next two words of `two`. Reads up to the first difference.
#[inline(always)]
fn are_next_two_equal(one: &mut PaidBytes<'_>, two: &mut PaidBytes<'_>) -> bool
    requires here { 16 ≤ length one.old }
    requires there { 16 ≤ length two.old }
    ensures same { IsTrue result ↔ BeginAlike one.old two.old 2 }
    ensures one { IsTrue result → one.new ≡ drop 16 one.old }
    ensures two { IsTrue result → two.new ≡ drop 16 two.old }
{
    if !is_next_equal(one, two) {
        return false;
    }
    is_next_equal(one, two)
}

/// Tests whether the next four words of `one` equal the next four words of `two`. Reads up to the first difference.
#[inline(always)]
fn are_next_four_equal(one: &mut PaidBytes<'_>, two: &mut PaidBytes<'_>) -> bool
    requires here { 32 ≤ length one.old }
    requires there { 32 ≤ length two.old }
    ensures same { IsTrue result ↔ BeginAlike one.old two.old 4 }
    ensures one { IsTrue result → one.new ≡ drop 32 one.old }
    ensures two { IsTrue result → two.new ≡ drop 32 two.old }
{
    if !are_next_two_equal(one, two) {
        return false;
    }
    are_next_two_equal(one, two)
}

/// Tests whether the next block of `one` equals the next block of `two`. Reads up to the first difference.
#[inline(always)]
fn is_next_block_equal(one: &mut PaidBytes<'_>, two: &mut PaidBytes<'_>) -> bool
    requires here { 64 ≤ length one.old }
    requires there { 64 ≤ length two.old }
    ensures same { IsTrue result ↔ BeginAlike one.old two.old 8 }
    ensures one { IsTrue result → one.new ≡ drop 64 one.old }
    ensures two { IsTrue result → two.new ≡ drop 64 two.old }
{
    if !are_next_four_equal(one, two) {
        return false;
    }
    are_next_four_equal(one, two)
}

/// Tests whether the `blocks` blocks of eight words of `a` from `at` on equal the `blocks` blocks of `b` from `beside`
/// on. For 0 blocks, nothing is called.
#[inline(always)]
pub fn are_equal_blocks<S: Space, T: Space, L: Ledger, M: Ledger>(
    a: &CountedSpace<'_, S, L>,
    at: Place,
    b: &CountedSpace<'_, T, M>,
    beside: Place,
    blocks: u32,
    first: &mut Reads<L>,
    second: &mut Reads<M>,
) -> bool
    requires one { IsMessage a.now }
    requires two { IsMessage b.now }
    requires here { IsContent a.now at (8 * blocks) }
    requires there { IsContent b.now beside (8 * blocks) }
    ensures same { IsTrue result ↔ AreEqual (segment_at a.now at.segment) at.word (segment_at b.now beside.segment)
        beside.word (8 * blocks) }
    ensures first { first.new ≤ first.old + 9 * blocks }
    ensures second { second.new ≤ second.old + 9 * blocks }
{
    if blocks == 0 {
        return true;
    }
    are_equal_in_blocks(a, at, b, beside, blocks, first, second)
}

/// Tests what [`are_equal_blocks`] tests, with a turn of a loop for each block and not for each word.
///
/// All words are counted as read at the start, although the comparison ends at the first difference.
#[inline(never)]
fn are_equal_in_blocks<S: Space, T: Space, L: Ledger, M: Ledger>(
    a: &CountedSpace<'_, S, L>,
    at: Place,
    b: &CountedSpace<'_, T, M>,
    beside: Place,
    blocks: u32,
    first: &mut Reads<L>,
    second: &mut Reads<M>,
) -> bool
    requires one { IsMessage a.now }
    requires two { IsMessage b.now }
    requires here { IsContent a.now at (8 * blocks) }
    requires there { IsContent b.now beside (8 * blocks) }
    ensures same { IsTrue result ↔ AreEqual (segment_at a.now at.segment) at.word (segment_at b.now beside.segment)
        beside.word (8 * blocks) }
    ensures first { first.new ≤ first.old + 9 * blocks }
    ensures second { second.new ≤ second.old + 9 * blocks }
{
    let size = 64 * blocks as usize;
    let mut one = a.bytes(at, size, first);
    let mut two = b.bytes(beside, size, second);
    for _block in 0..blocks {
        first.tick();
        second.tick();
        if !is_next_block_equal(&mut one, &mut two) {
            return false;
        }
    }
    true
}
