//! The growth of the list and of the table. When the table doubles, each bucket keeps only the slots that belong to it.

ghost use Rattle.std.specs.Prelude.{◌≡◌, ℕ, ◌+◌, ◌*◌, ◌<◌, ◌≤◌, ◌/◌, ◌%◌, List, length, vec_capacity, OnOk};
ghost use Rattle.std.specs.Prelude.{OnErr, slice_index_or};
ghost use Rattle.capn_digests.specs.declared.slot.Slot.{Slot as SlotValue};
ghost use Rattle.capn_digests.specs.Buckets.{IsHeld, IsFound, no_head};
ghost use Rattle.capn_digests.specs.Digests.{HasToGrow, count_of};

use crate::slot::{Head, NO_HEAD, NO_SLOT, SLOTS, Slot, home_of};
use std::alloc::{AllocError, Allocator};

/// Returns `head` and `bucket` with only the slots whose tags belong to bucket `at` of `buckets` buckets.
fn kept(head: Head, bucket: &[Slot; SLOTS], at: usize, buckets: usize) -> (Head, [Slot; SLOTS])
    requires { 0 < buckets }
    ensures held { (s : SlotValue) → s.tag % buckets ≡ at → IsHeld head bucket.now s → IsHeld result.0 result.1 s }
    ensures overflowed { result.0.overflowed ≡ head.overflowed }
    ensures fewer { result.0.count ≤ head.count }
{
    let mut kept = [NO_SLOT; SLOTS];
    let mut new = Head {
        overflowed: head.overflowed,
        ..NO_HEAD
    };
    for j in 0..SLOTS {
        let slot = bucket[j];
        if j < head.count as usize && home_of(slot.tag, buckets) == at {
            kept[new.count as usize] = slot;
            new = new.and_one(slot.tag);
        }
    }
    (new, kept)
}

/// Drops the slots of bucket `at` whose tags belong to other buckets.
fn keep_own(heads: &mut [Head], table: &mut [[Slot; SLOTS]], at: usize)
    requires within { at < length heads.old }
    requires even { length table.old ≡ length heads.old }
    ensures fewer { (i : ℕ) → (slice_index_or heads.new i no_head).count ≤ (slice_index_or heads.old i no_head).count }
    ensures found { (list rest : List (List ℕ)) → IsFound list heads.old table.old rest
        → IsFound list heads.new table.new rest }
{
    let (head, bucket) = kept(heads[at], &table[at], at, heads.len());
    heads[at] = head;
    table[at] = bucket;
}

/// Drops from each bucket the slots whose tags belong to other buckets.
fn keep_each_own(heads: &mut [Head], table: &mut [[Slot; SLOTS]])
    requires { length table.old ≡ length heads.old }
    ensures fewer { (i : ℕ) → (slice_index_or heads.new i no_head).count ≤ (slice_index_or heads.old i no_head).count }
    ensures found { (list rest : List (List ℕ)) → IsFound list heads.old table.old rest
        → IsFound list heads.new table.new rest }
{
    for at in 0..heads.len() {
        keep_own(heads, table, at);
    }
}

/// Doubles the number of buckets, or makes the first bucket if there is none. If an allocation is refused, `heads` and
/// `table` have the same items as before.
#[inline(never)]
fn double<A: Allocator>(
    heads: &mut Vec<Head, A>,
    table: &mut Vec<[Slot; SLOTS], A>,
) -> Result<(), AllocError>
    requires { length table.old.items ≡ length heads.old.items }
    ensures found { (list rest : List (List ℕ)) → IsFound list heads.old.items table.old.items rest
        → IsFound list heads.new.items table.new.items rest }
    ensures some { OnOk result (0 < length heads.new.items) }
    ensures twice { OnOk result (2 * length heads.old.items ≤ length heads.new.items) }
    ensures fewer { OnOk result ((t : ℕ) → count_of heads.new.items t ≤ count_of heads.old.items t) }
{
    let count = heads.len().max(1);
    heads.try_reserve_exact(count)?;
    table.try_reserve_exact(count)?;
    if heads.is_empty() {
        heads.push(NO_HEAD)?;
        table.push([NO_SLOT; SLOTS])?;
        return Ok(());
    }
    heads.extend_from_within(..)?;
    table.extend_from_within(..)?;
    keep_each_own(heads, table);
    Ok(())
}

/// Makes room in `list` for one more digest. A full list of `n` digests gets the capacity for `n / 8 + 16` more. The
/// table doubles if the list has at least eight digests for each bucket.
///
/// `AllocError` is returned only if an allocation was refused, and only if the list is full or has at least eight
/// digests for each bucket. After an error every digest is still found.
#[inline(always)]
pub(crate) fn make_room<A: Allocator>(
    list: &mut Vec<[u8; 32], A>,
    heads: &mut Vec<Head, A>,
    table: &mut Vec<[Slot; SLOTS], A>,
) -> Result<(), AllocError>
    requires { length table.old.items ≡ length heads.old.items }
    ensures found { (all rest : List (List ℕ)) → IsFound all heads.old.items table.old.items rest
        → IsFound all heads.new.items table.new.items rest }
    ensures same { list.new.items ≡ list.old.items }
    ensures some { OnOk result (0 < length heads.new.items) }
    ensures spare { OnOk result (length list.new.items < vec_capacity list.new) }
    ensures room { vec_capacity list.old ≤ vec_capacity list.new }
    ensures eighth { OnOk result (vec_capacity list.old ≤ length list.old.items
        → length list.old.items + (length list.old.items / 8 + 16) ≤ vec_capacity list.new) }
    ensures twice { OnOk result (length heads.old.items ≤ length list.old.items / 8
        → 2 * length heads.old.items ≤ length heads.new.items) }
    ensures fewer { OnOk result ((t : ℕ) → count_of heads.new.items t ≤ count_of heads.old.items t) }
    ensures still { length list.old.items / 8 < length heads.old.items → heads.new.items ≡ heads.old.items }
    ensures memory { OnErr result
        (HasToGrow (length list.old.items) (vec_capacity list.old) (length heads.old.items)) }
{
    let count = list.len();
    if count == list.capacity() {
        list.try_reserve_exact(count / 8 + 16)?;
    }
    if count / 8 >= heads.len() {
        return double(heads, table);
    }
    Ok(())
}
