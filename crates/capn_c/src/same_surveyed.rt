//! The comparison of two surveyed messages, which walks both values at the same time.

ghost use Rattle.std.specs.Prelude.{IsTrue, ◌≡◌, ◌↔◌, ℕ, ◌+◌, ◌*◌, ◌≤◌};
ghost use Rattle.capn_value.specs.Tree.{Tree as Value};
ghost use Rattle.capn_value.specs.Cost.{cost};
ghost use Rattle.capn_value.specs.Same.{Same};
ghost use Rattle.capn_walk.specs.Accepted.{IsValueOf, root};
ghost use Rattle.capn_walk.specs.ValueAt.{IsAt};
ghost use Rattle.capn_layout.specs.MessageSlots.{HasSlot};
ghost use Rattle.capn_layout.specs.Ready.{IsReady};
ghost use Rattle.capn_canon.specs.CanonicalLength.{HasBytes};

use capn_same::surveyed_same_counted;
use capn_target::counted::{CountedSpace, Reads};
use capn_walk::Limits;
use capn_words::Space;
use std::sync::ledger::Ledger;

/// Tests whether `first` and `second` have the same value, and counts reads and turns of loops in `reads` and `others`.
/// Both messages must have canonical bytes within `limits`. The test ends at the first difference. Only the stack is
/// used.
pub fn same_surveyed<A: Space, B: Space, L: Ledger, M: Ledger>(
    first: &CountedSpace<'_, A, L>,
    second: &CountedSpace<'_, B, M>,
    limits: Limits,
    reads: &mut Reads<L>,
    others: &mut Reads<M>,
) -> bool
    requires one { HasBytes first.now limits }
    requires other { HasBytes second.now limits }
    ensures same { (v w : Value) → IsValueOf first.now limits v → IsValueOf second.now limits w
        → IsTrue result ↔ Same v w }
    ensures first { reads.new ≤ reads.old + 20 * limits.budget + 14 }
    ensures second { others.new ≤ others.old + 20 * limits.budget + 14 }
{
    first.bounds();
    second.bounds();
    let _budget = limits.budget();
    let depth = limits.depth();
    same_by_segments(first, second, depth, reads, others)
}

/// Compares the values of `first` and `second`, at most `depth` objects deep, and counts the reads in `reads` and
/// `others`. If `first` has one segment, the words of that segment are read directly, which is faster.
fn same_by_segments<A: Space, B: Space, L: Ledger, M: Ledger>(
    first: &CountedSpace<'_, A, L>,
    second: &CountedSpace<'_, B, M>,
    depth: u32,
    reads: &mut Reads<L>,
    others: &mut Reads<M>,
) -> bool
    requires first { IsReady (HasSlot first.now) 0 0 depth 1 }
    requires second { IsReady (HasSlot second.now) 0 0 depth 1 }
    ensures same { (v w : Value) → IsAt first.now root v → IsAt second.now root w → IsTrue result ↔ Same v w }
    ensures first { (v : Value) → IsAt first.now root v → (base : ℕ)
        → reads.new ≤ reads.old + 20 * cost base v + 14 }
    ensures second { (w : Value) → IsAt second.now root w → (base : ℕ)
        → others.new ≤ others.old + 20 * cost base w + 14 }
{
    match first.only_segment(reads) {
        Some(only) => same_beside(&only.space(), second, depth, reads, others),
        None => same_beside(first, second, depth, reads, others),
    }
}

/// Compares the values of `first` and `second`, at most `depth` objects deep, and counts the reads in `reads` and
/// `others`. If `second` has one segment, the words of that segment are read directly, which is faster.
fn same_beside<A: Space, B: Space, L: Ledger, M: Ledger>(
    first: &CountedSpace<'_, A, L>,
    second: &CountedSpace<'_, B, M>,
    depth: u32,
    reads: &mut Reads<L>,
    others: &mut Reads<M>,
) -> bool
    requires first { IsReady (HasSlot first.now) 0 0 depth 1 }
    requires second { IsReady (HasSlot second.now) 0 0 depth 1 }
    ensures same { (v w : Value) → IsAt first.now root v → IsAt second.now root w → IsTrue result ↔ Same v w }
    ensures first { (v : Value) → IsAt first.now root v → (base : ℕ)
        → reads.new ≤ reads.old + 20 * cost base v + 11 }
    ensures second { (w : Value) → IsAt second.now root w → (base : ℕ)
        → others.new ≤ others.old + 20 * cost base w + 14 }
{
    match second.only_segment(others) {
        Some(only) => surveyed_same_counted(first, &only.space(), depth, reads, others),
        None => surveyed_same_counted(first, second, depth, reads, others),
    }
}
