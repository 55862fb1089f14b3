//! The numbers of words and of slots that trimming keeps of a data section and of a pointer section.

ghost use Rattle.std.specs.Prelude.{◌≡◌};
ghost use Rattle.capn_value.specs.TreeOf.{trees_of, rows_of};
ghost use Rattle.capn_value.specs.Trim as cut;

use crate::sameness::is_null;
use crate::value::{Body, Value};
use std::alloc::Allocator;

/// Returns the number of words that trimming keeps of the data section `words`: all up to the last non-zero word.
#[tactic(auto, using(std::proofs::lemmas::Grind::common_steps, crate::proofs::Kept::kept))]
pub fn kept_words(words: &[u64]) -> usize
    ensures { result ≡ cut.kept_words words.now }
{
    let mut n = words.len();
    while n > 0 && words[n - 1] == 0 {
        n -= 1;
    }
    n
}

/// Returns the number of slots that trimming keeps of the pointer section `slots`: all up to the last non-null slot.
#[tactic(auto, using(std::proofs::lemmas::Grind::common_steps, crate::specs::Views::views, crate::proofs::Kept::kept))]
pub fn kept_slots<A: Allocator>(slots: &[Value<A>]) -> usize
    ensures { result ≡ cut.kept_slots (trees_of slots.now) }
{
    let mut n = slots.len();
    while n > 0 && is_null(&slots[n - 1]) {
        n -= 1;
    }
    n
}

/// Returns the number of words that trimming keeps of each of the `rows` of a list. This is the greatest number that
/// one of the rows would keep by itself.
#[tactic(auto, using(std::proofs::lemmas::Grind::common_steps, crate::specs::Views::views))]
pub fn kept_words_of_rows<A: Allocator>(rows: &[Body<A>]) -> usize
    ensures { result ≡ cut.kept_words_of_rows (rows_of rows.now) }
{
    let mut most = 0;
    for row in rows {
        most = kept_words(row.words.as_slice()).max(most);
    }
    most
}

/// Returns the number of slots that trimming keeps of each of the `rows` of a list. This is the greatest number that
/// one of the rows would keep by itself.
#[tactic(auto, using(std::proofs::lemmas::Grind::common_steps, crate::specs::Views::views))]
pub fn kept_slots_of_rows<A: Allocator>(rows: &[Body<A>]) -> usize
    ensures { result ≡ cut.kept_slots_of_rows (rows_of rows.now) }
{
    let mut most = 0;
    for row in rows {
        most = kept_slots(row.slots.as_slice()).max(most);
    }
    most
}
