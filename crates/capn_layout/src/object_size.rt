//! The sizes of values: the words of their contents and of everything below them. Any change here that alters canonical
//! bytes makes a new version of the canonical form.

ghost use Rattle.std.specs.Prelude.{◌≡◌, ℕ, ◌+◌, ◌*◌, ◌^◌, ◌<◌, ◌≤◌};
ghost use Rattle.capn_value.specs.Tree.{Tree, Trees, Bodies, tree_at, count as count_of, count_rows, row_words};
ghost use Rattle.capn_value.specs.Trim.{kept_slots_of_rows};
ghost use Rattle.capn_layout.specs.Layout.{size, sizes, sizes_in_rows};
ghost use Rattle.capn_layout.specs.LayoutSteps.{past};
ghost use Rattle.capn_layout.specs.Weight.{weight, weights, weights_in_rows};
ghost use Rattle.capn_layout.specs.Sound.{AreWide, SoundRows};
ghost use Rattle.capn_layout.specs.Ready.{IsReady, AreReady, RowsReady};

use crate::source::{Item, Source};

/// Returns the number of words in the content of the value in `slot` of `source` and in everything below that value.
/// The value is at most `depth` objects deep. Reads are counted in `reads`.
#[cycle(sizes)]
#[inline(always)]
pub fn size_of_slot<S: Source>(source: &S, slot: u32, depth: u32, reads: &mut S::Reads) -> u32
    requires { IsReady S.has source.now slot depth 0 }
    ensures size { (v : Tree) → S.has source.now slot v → result ≡ size v }
    ensures reads { (v : Tree) → S.has source.now slot v → S.spent reads.new ≤ S.spent reads.old + 11 + 20 * weight v }
{
    match source.item(slot, reads) {
        Item::Nil => 0,
        Item::Cap(_) => 0,
        Item::Numbers(numbers, _, _) => S::count_words(&numbers),
        Item::Struct(row) => {
            let words = S::kept_words(&row, reads);
            let slots = S::kept_slots(&row, reads);
            words + slots + size_of_slots(S::slots(&row, 0), slots, depth - 1, reads)
        }
        Item::Links(row, count) => {
            count + size_of_slots(S::slots(&row, 0), count, depth - 1, reads)
        }
        Item::Rows(rows, count) => {
            let words = S::kept_words(&rows, reads);
            let slots = S::kept_slots(&rows, reads);
            1 + count * (words + slots)
                + size_of_rows::<S>(rows, count, words, slots, depth - 1, reads)
        }
    }
}

/// Returns the number of words in the contents of the first `number` slots of `source` and in everything below them.
#[cycle(sizes)]
#[inline(never)]
fn size_of_slots<S: Source>(source: S, number: u32, depth: u32, reads: &mut S::Reads) -> u32
    requires { AreReady S.has source 0 number depth 0 (2 ^ 29) }
    ensures size { (ts : Trees) → number ≤ count_of ts → ((k : ℕ) → k < number → S.has source k (tree_at ts k))
        → result + sizes (past number ts) ≡ sizes ts }
    ensures reads { (ts : Trees) → number ≤ count_of ts → ((k : ℕ) → k < number → S.has source k (tree_at ts k))
        → S.spent reads.new + 20 * weights (past number ts) ≤ S.spent reads.old + 12 * number + 20 * weights ts }
{
    let mut size = 0;
    for slot in 0..number {
        S::tick(reads);
        size += size_of_slot(&source, slot, depth, reads);
    }
    size
}

/// Returns the number of words in the contents below `number` rows, if `slots` slots of each row are kept.
#[cycle(sizes)]
#[inline(never)]
fn size_of_rows<S: Source>(
    rows: S::Rows,
    number: u32,
    words: u32,
    slots: u32,
    depth: u32,
    reads: &mut S::Reads,
) -> u32
    requires { RowsReady S.are rows 0 number words slots depth 0 (2 ^ 29) }
    ensures size { (bs : Bodies) → S.are rows bs → count_rows bs ≡ number → kept_slots_of_rows bs ≤ slots
        → AreWide words slots bs → SoundRows bs → result ≡ sizes_in_rows bs }
    ensures reads { (bs : Bodies) → S.are rows bs → count_rows bs ≡ number → AreWide words slots bs → SoundRows bs
        → S.spent reads.new ≤ S.spent reads.old + number + 12 * row_words bs + 20 * weights_in_rows bs }
{
    if slots == 0 {
        return 0;
    }
    let mut size = 0;
    for row in 0..number {
        S::tick(reads);
        size += size_of_slots(S::slots(&rows, row), slots, depth, reads);
    }
    size
}
