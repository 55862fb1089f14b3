//! The layout of values, object by object, in preorder. Any change here that alters canonical bytes makes a new version
//! of the canonical form.

ghost use Rattle.std.specs.Prelude.{◌≡◌, ℕ, ◌+◌, ◌*◌, ◌/◌, ◌^◌, ◌<◌, ◌≤◌, ◌++◌, List, length, drop, IfOk};
ghost use Rattle.capn_words.specs.Message.{words_in};
ghost use Rattle.capn_value.specs.Tree.{Tree as Value, Trees, Bodies, tree_at, count as count_of};
ghost use Rattle.capn_value.specs.Tree.{count_rows, row_words};
ghost use Rattle.capn_value.specs.Cost.{height};
ghost use Rattle.capn_layout.specs.Layout.{canon, size};
ghost use Rattle.capn_layout.specs.Ready.{IsReady, IsReadyIn, AreReady, RowsReady, IsLaid, AreLaid, RowsLaid, IsLaidAs};
ghost use Rattle.capn_layout.specs.LayoutSteps.{past};
ghost use Rattle.capn_layout.specs.Sound.{AreWide, Sound, SoundRows};
ghost use Rattle.capn_layout.specs.Weight.{weight, weights, weights_in_rows};
ghost use Rattle.capn_layout.specs.inner.Draft.{IsKept};
ghost use Rattle.capn_layout.specs.inner.Source.{AreStructs};

use crate::draft::{push, put};
use crate::object_size::size_of_slot;
use crate::opening::{open_links, open_rows, open_struct};
use crate::pointer_words::list_pointer;
use crate::source::{Item, Source};
use crate::zero_bytes::zeros;
use capn_value::Memory;
use capn_words::{Pointer, join};
use std::alloc::Allocator;

/// Returns the canonical bytes of the value in the first slot of `source`. The value is at most `depth` objects deep.
/// The bytes are counted first, and the memory for all bytes is allocated on `alloc` at once. `Memory` is returned only
/// if that allocation was refused.
pub fn canonical_bytes<S: Source, A: Allocator>(
    alloc: A,
    source: S,
    depth: u32,
    reads: &mut S::Reads,
) -> Result<Vec<u8, A>, Memory>
    requires { IsReady S.has source 0 depth 1 }
    ensures { IfOk result (λ bytes. (v : Value) → S.has source 0 v → bytes.items ≡ canon v) }
{
    let size = 8 * (1 + size_of_slot(&source, 0, depth, reads) as usize);
    let mut bytes = zeros(alloc, size)?;
    lay_root(&source, depth, bytes.as_mut_slice(), reads);
    Ok(bytes)
}

/// Writes the canonical bytes of the value in the first slot of `source` to `out`: the pointer to the value, its
/// content and everything below it. Returns the number of words written. The other bytes of `out` stay as they were.
/// The value is at most `depth` objects deep.
pub fn lay_root<S: Source>(source: &S, depth: u32, out: &mut [u8], reads: &mut S::Reads) -> usize
    requires ready { IsReadyIn S.has source.now 0 depth 1 (length out.old / 8) }
    requires short { length out.old ≤ 2 ^ 32 }
    ensures laid { (v : Value) → S.has source.now 0 v
        → (8 * result ≡ length (canon v)) × (out.new ≡ canon v ++ drop (length (canon v)) out.old) }
    ensures reads { (v : Value) → S.has source.now 0 v → S.spent reads.new ≤ S.spent reads.old + 11 + 20 * weight v }
{
    let len = push(out, 0, 0);
    lay_slot(source, 0, 0, depth, out, len, reads)
}

/// Writes the pointer to the value in `slot` over word `from`, and appends the value's content and everything below it.
/// The value is at most `depth` objects deep.
#[cycle(objects)]
#[inline(always)]
fn lay_slot<S: Source>(
    source: &S,
    slot: u32,
    from: usize,
    depth: u32,
    out: &mut [u8],
    len: usize,
    reads: &mut S::Reads,
) -> usize
    requires ready { IsReadyIn S.has source.now slot depth (length (words_in len out.old)) (length out.old / 8) }
    requires inside { from < len }
    requires short { length out.old ≤ 2 ^ 32 }
    ensures laid { IsLaid S.has source.now slot from (words_in len out.old) (words_in result out.new) }
    ensures kept { IsKept result out.old out.new }
    ensures reads { (v : Value) → S.has source.now slot v → S.spent reads.new ≤ S.spent reads.old + 11 + 20 * weight v }
{
    match source.item(slot, reads) {
        Item::Nil => {
            put(out, from, 0);
            len
        }
        Item::Cap(index) => {
            put(out, from, join(Pointer::Cap(index)));
            len
        }
        Item::Numbers(numbers, width, count) => {
            let word = list_pointer(from, len, width, count as usize);
            put(out, from, word);
            S::append_numbers(&numbers, out, len, reads)
        }
        Item::Struct(row) => {
            let own = open_struct::<S>(&row, from, out, len, reads);
            let first = own.first + own.words as usize;
            lay_slots(
                S::slots(&row, 0),
                own.slots,
                first,
                depth - 1,
                out,
                own.end,
                reads,
            )
        }
        Item::Links(row, count) => {
            let own = open_links::<S>(&row, count, from, out, len, reads);
            let first = own.first + own.words as usize;
            lay_slots(
                S::slots(&row, 0),
                own.slots,
                first,
                depth - 1,
                out,
                own.end,
                reads,
            )
        }
        Item::Rows(rows, count) => { lay_list::<S>(&rows, count, from, depth, out, len, reads) }
    }
}

/// Writes the pointer to a list of `count` structs over word `from`, and appends the list's content and everything
/// below it. The list is at most `depth` objects deep. The function is not inlined, so that its stack frame does not
/// stay on the stack at each level of depth.
#[cycle(objects)]
#[inline(never)]
fn lay_list<S: Source>(
    rows: &S::Rows,
    count: u32,
    from: usize,
    depth: u32,
    out: &mut [u8],
    len: usize,
    reads: &mut S::Reads,
) -> usize
    requires some { (v : Value) × (bs : Bodies) × AreStructs count v bs × S.are rows.now bs × Sound v
        × (height v ≤ depth) × (length (words_in len out.old) + size v ≤ length out.old / 8) }
    requires inside { from < len }
    requires short { length out.old ≤ 2 ^ 32 }
    ensures laid { (v : Value) (bs : Bodies) → AreStructs count v bs → S.are rows.now bs → Sound v → height v ≤ depth
        → length (words_in len out.old) + size v ≤ length out.old / 8
        → IsLaidAs v from (words_in len out.old) (words_in result out.new) }
    ensures kept { IsKept result out.old out.new }
    ensures reads { (v : Value) (bs : Bodies) → AreStructs count v bs → S.are rows.now bs → Sound v
        → S.spent reads.new ≤ S.spent reads.old + 20 * weight v }
{
    let own = open_rows::<S>(rows, count, from, out, len, reads);
    lay_rows::<S>(
        rows,
        count,
        own.words,
        own.slots,
        own.first,
        depth - 1,
        out,
        own.end,
        reads,
    )
}

/// Writes the pointers of the first `count` slots of `source` over the words from `first` on, and appends the contents
/// of the slots and everything below them.
#[cycle(objects)]
#[inline(always)]
fn lay_each<S: Source>(
    source: S,
    count: u32,
    first: usize,
    depth: u32,
    out: &mut [u8],
    len: usize,
    reads: &mut S::Reads,
) -> usize
    requires ready { AreReady S.has source 0 count depth (length (words_in len out.old)) (length out.old / 8) }
    requires inside { first + count ≤ len }
    requires short { length out.old ≤ 2 ^ 32 }
    ensures laid { AreLaid S.has source count first (words_in len out.old) (words_in result out.new) }
    ensures kept { IsKept result out.old out.new }
    ensures reads { (ts : Trees) → count ≤ count_of ts → ((k : ℕ) → k < count → S.has source k (tree_at ts k))
        → S.spent reads.new + 20 * weights (past count ts) ≤ S.spent reads.old + 12 * count + 20 * weights ts }
{
    let mut end = len;
    for slot in 0..count {
        S::tick(reads);
        end = lay_slot(&source, slot, first + slot as usize, depth, out, end, reads);
    }
    end
}

/// Lays out the first `count` slots of `source` by [`lay_each`]. If there are no slots, no function is called.
#[cycle(objects)]
#[inline(always)]
fn lay_slots<S: Source>(
    source: S,
    count: u32,
    first: usize,
    depth: u32,
    out: &mut [u8],
    len: usize,
    reads: &mut S::Reads,
) -> usize
    requires ready { AreReady S.has source 0 count depth (length (words_in len out.old)) (length out.old / 8) }
    requires inside { first + count ≤ len }
    requires short { length out.old ≤ 2 ^ 32 }
    ensures laid { AreLaid S.has source count first (words_in len out.old) (words_in result out.new) }
    ensures kept { IsKept result out.old out.new }
    ensures reads { (ts : Trees) → count ≤ count_of ts → ((k : ℕ) → k < count → S.has source k (tree_at ts k))
        → S.spent reads.new + 20 * weights (past count ts) ≤ S.spent reads.old + 12 * count + 20 * weights ts }
{
    if count == 0 {
        return len;
    }
    lay_some_slots(source, count, first, depth, out, len, reads)
}

/// Lays out the first `count` slots of `source` by [`lay_each`]. The function is not inlined, so it has a stack frame
/// of its own.
#[cycle(objects)]
#[inline(never)]
fn lay_some_slots<S: Source>(
    source: S,
    count: u32,
    first: usize,
    depth: u32,
    out: &mut [u8],
    len: usize,
    reads: &mut S::Reads,
) -> usize
    requires ready { AreReady S.has source 0 count depth (length (words_in len out.old)) (length out.old / 8) }
    requires inside { first + count ≤ len }
    requires short { length out.old ≤ 2 ^ 32 }
    ensures laid { AreLaid S.has source count first (words_in len out.old) (words_in result out.new) }
    ensures kept { IsKept result out.old out.new }
    ensures reads { (ts : Trees) → count ≤ count_of ts → ((k : ℕ) → k < count → S.has source k (tree_at ts k))
        → S.spent reads.new + 20 * weights (past count ts) ≤ S.spent reads.old + 12 * count + 20 * weights ts }
{
    lay_each(source, count, first, depth, out, len, reads)
}

/// Writes the pointers of the slots of `count` rows over the slots' words, row by row, and appends the contents of the
/// slots and everything below them. The rows begin at word `first`, and each has `words` words and `slots` slots.
#[cycle(objects)]
#[inline(always)]
fn lay_rows<S: Source>(
    rows: &S::Rows,
    count: u32,
    words: u32,
    slots: u32,
    first: usize,
    depth: u32,
    out: &mut [u8],
    len: usize,
    reads: &mut S::Reads,
) -> usize
    requires ready { RowsReady S.are rows.now 0 count words slots depth (length (words_in len out.old))
        (length out.old / 8) }
    requires inside { first + count * (words + slots) ≤ len }
    requires short { length out.old ≤ 2 ^ 32 }
    ensures laid { RowsLaid S.are rows.now count words slots first (words_in len out.old) (words_in result out.new) }
    ensures kept { IsKept result out.old out.new }
    ensures reads { (bs : Bodies) → S.are rows.now bs → count_rows bs ≡ count → AreWide words slots bs → SoundRows bs
        → S.spent reads.new ≤ S.spent reads.old + count + 12 * row_words bs + 20 * weights_in_rows bs }
{
    if slots == 0 {
        return len;
    }
    let mut next = first;
    let mut end = len;
    for row in 0..count {
        S::tick(reads);
        let from = next + words as usize;
        end = lay_each(S::slots(rows, row), slots, from, depth, out, end, reads);
        next = from + slots as usize;
    }
    end
}
