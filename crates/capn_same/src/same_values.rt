//! The comparison of the values of two messages that were surveyed.

ghost use Rattle.std.specs.Prelude.{◌≡◌, ◌↔◌, ℕ, ◌+◌, ◌*◌, ◌≤◌, IsTrue};
ghost use Rattle.capn_value.specs.Tree.{Tree as Value};
ghost use Rattle.capn_value.specs.Same.{Same};
ghost use Rattle.capn_value.specs.Cost.{cost};
ghost use Rattle.capn_walk.specs.Accepted.{root};
ghost use Rattle.capn_walk.specs.ValueAt.{IsAt};
ghost use Rattle.capn_layout.specs.MessageSlots.{HasSlot};
ghost use Rattle.capn_layout.specs.Ready.{IsReady};

use crate::objects::is_same_slot;
use capn_target::counted::{CountedSpace, Reads};
use capn_words::{Place, Space};
use std::sync::ledger::Ledger;

/// Tests whether the values at the roots of `a` and `b` are the same, up to trailing zero words and trailing null slots
/// of structs and of rows. Both messages were surveyed, and both values are at most `depth` objects deep.
///
/// Both messages are read in place, up to the first difference, and the tests of the survey are not repeated. Reads and
/// loop turns are counted in `first` for `a` and in `second` for `b`. Each count grows by at most twenty for each word
/// that the value of its message costs, under either tariff, plus eleven. No memory is allocated. (Page:
/// canonicalization.)
pub fn surveyed_same_counted<S: Space, T: Space, L: Ledger, M: Ledger>(
    a: &CountedSpace<'_, S, L>,
    b: &CountedSpace<'_, T, M>,
    depth: u32,
    first: &mut Reads<L>,
    second: &mut Reads<M>,
) -> bool
    requires one { IsReady (HasSlot a.now) 0 0 depth 1 }
    requires two { IsReady (HasSlot b.now) 0 0 depth 1 }
    ensures same { (v w : Value) → IsAt a.now root v → IsAt b.now root w → IsTrue result ↔ Same v w }
    // The count of each message grows by at most twenty for each word that the value of the message costs, plus eleven.
    ensures first { (v : Value) → IsAt a.now root v → (base : ℕ) → first.new ≤ first.old + 20 * cost base v + 11 }
    ensures second { (w : Value) → IsAt b.now root w → (base : ℕ) → second.new ≤ second.old + 20 * cost base w + 11 }
{
    is_same_slot(a, Place::ROOT, b, Place::ROOT, depth, first, second)
}
