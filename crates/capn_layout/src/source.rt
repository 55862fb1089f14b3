//! The source of a layout: slots with values.

ghost use Rattle.std.specs.Prelude.{◌≡◌, ℕ, ◌+◌, ◌*◌, ◌^◌, ◌<◌, ◌≤◌, List, length};
ghost use Rattle.capn_value.specs.Tree.{Tree, Bodies, count, count_rows, row_words, tree_at};
ghost use Rattle.capn_value.specs.Trim.{kept_words_of_rows, kept_slots_of_rows};
ghost use Rattle.capn_layout.specs.LayoutSteps.{AreRowsOver, slots_at};
ghost use Rattle.capn_words.specs.Message.{words_in};
ghost use Rattle.capn_layout.specs.inner.Source.{IsItem, IsGrown};
ghost use Rattle.capn_layout.specs.inner.Draft.{Appends, IsKept};
ghost use Rattle.capn_layout.specs.Sound.{AreWide};

use capn_words::Width;

/// The content of a slot, by kind.
#[derive(Drop)]
pub enum Item<N, R> {
    /// Null.
    Nil,
    /// A capability, by its index.
    Cap(u32),
    /// A list of numbers: the numbers, the width, and the number of elements.
    Numbers(N, Width, u32),
    /// A struct, as one row.
    Struct(R),
    /// A list of pointers: a row that has only slots, and the number of slots.
    Links(R, u32),
    /// A list of structs: the rows, and the number of rows.
    Rows(R, u32),
}

/// Consecutive slots, each with a value.
///
/// There are two sources: the slots of a [`Value`](capn_value::Value), and the words of a message that was surveyed.
/// The source over a message counts reads and loop turns.
pub trait Source: Drop {
    /// The type that refers to the numbers of a list.
    type Numbers: Drop;
    /// The type that refers to rows of equal sizes, each with words and slots.
    type Rows: Drop;
    /// The type that counts reads of the message. A value of the type takes no bytes.
    type Reads;

    /// The statement that a slot has a value.
    ghost has: { Self → ℕ → Tree → Type 0 };

    /// The statement that numbers are packed in words.
    ghost packs: { Self.Numbers → List ℕ → Type 0 };

    /// The statement that rows have words, and slots with values.
    ghost are: { Self.Rows → Bodies → Type 0 };

    /// The number of reads and loop turns that were counted.
    ghost spent: { Self.Reads → ℕ };

    /// Counts one more turn of a loop in `reads`.
    fn tick(reads: &mut Self::Reads)
        ensures { spent reads.new ≤ spent reads.old + 1 };

    /// Returns a copy of `rows`, for a function that takes rows by value.
    fn again(rows: &Self::Rows) -> Self::Rows
        ensures { result ≡ rows.now };

    /// Returns the content of `slot`, and counts the reads for it in `reads`.
    fn item(&self, slot: u32, reads: &mut Self::Reads) -> Item<Self::Numbers, Self::Rows>
        requires { (v : Tree) × has self.now slot v }
        ensures is { (v : Tree) → has self.now slot v → IsItem packs are result v }
        ensures reads { spent reads.new ≤ spent reads.old + 9 };

    /// Appends `numbers`, packed in words, after the first `len` words of `out`. Bits past the last number are 0.
    /// Returns the new number of words.
    fn append_numbers(
        numbers: &Self::Numbers,
        out: &mut [u8],
        len: usize,
        reads: &mut Self::Reads,
    ) -> usize
        requires { (ws : List ℕ) × packs numbers.now ws × (8 * (len + length ws) ≤ length out.old) }
        ensures appends { (ws : List ℕ) → packs numbers.now ws → Appends len result ws out.old out.new }
        ensures reads { (ws : List ℕ) → packs numbers.now ws → spent reads.new ≤ spent reads.old + length ws };

    /// Returns the number of words in which `numbers` are packed.
    fn count_words(numbers: &Self::Numbers) -> u32
        requires { (ws : List ℕ) × packs numbers.now ws × (length ws ≤ 2 ^ 29) }
        ensures { (ws : List ℕ) → packs numbers.now ws → result ≡ length ws };

    /// Returns the number of words that are kept of each row of `rows`. All rows are shortened to the same size.
    fn kept_words(rows: &Self::Rows, reads: &mut Self::Reads) -> u32
        requires { (bs : Bodies) × are rows.now bs }
        ensures kept { (bs : Bodies) → are rows.now bs → result ≡ kept_words_of_rows bs }
        ensures reads { (bs : Bodies) → are rows.now bs
            → spent reads.new ≤ spent reads.old + count_rows bs + 2 * row_words bs };

    /// Returns the number of slots that are kept of each row of `rows`. All rows are shortened to the same size.
    fn kept_slots(rows: &Self::Rows, reads: &mut Self::Reads) -> u32
        requires { (bs : Bodies) × are rows.now bs }
        ensures kept { (bs : Bodies) → are rows.now bs → result ≡ kept_slots_of_rows bs }
        ensures reads { (bs : Bodies) → are rows.now bs
            → spent reads.new ≤ spent reads.old + count_rows bs + 2 * row_words bs };

    /// Appends each of `rows` after the first `len` words of `out`: the first `words` words of the row, and then any
    /// words in place of the first `slots` slots. Returns the new number of words.
    fn append_rows(
        rows: &Self::Rows,
        words: u32,
        slots: u32,
        out: &mut [u8],
        len: usize,
        reads: &mut Self::Reads,
    ) -> usize
        requires { (bs : Bodies) × are rows.now bs × AreWide words slots bs × (words < 2 ^ 16) × (slots < 2 ^ 29)
            × (8 * (len + count_rows bs * (words + slots)) ≤ length out.old) }
        ensures grown { (bs : Bodies) → are rows.now bs → AreWide words slots bs
            → IsGrown words slots bs (words_in len out.old) (words_in result out.new) }
        ensures kept { IsKept result out.old out.new }
        ensures reads { (bs : Bodies) → are rows.now bs → spent reads.new ≤ spent reads.old + row_words bs };

    /// Returns the slots of row `row` of `rows`.
    fn slots(rows: &Self::Rows, row: u32) -> Self
        requires { (bs : Bodies) × are rows.now bs × (row < count_rows bs) }
        ensures { (bs : Bodies) → are rows.now bs → (k : ℕ) → k < count (slots_at bs row)
            → has result k (tree_at (slots_at bs row) k) };

    /// The proof that a slot has at most one value.
    ghost one: { (slots : Self) (k : ℕ) (v w : Tree) → has slots k v → has slots k w → v ≡ w };
}
