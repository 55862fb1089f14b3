//! Marks for the words of a buffer: one bit for each word.

ghost use Rattle.std.specs.Prelude.{◌≡◌, ◌≢◌, ℕ, ◌*◌, ◌<◌, ◌≤◌, true, false, length, OnOk};
ghost use Rattle.capn_layout.specs.Patch.{is_marked};

use capn_value::Memory;
use std::alloc::Allocator;

/// Grows `marks` until each of `words` words has a mark. The marks that are added are not set. Returns `Memory` if an
/// allocation was refused.
#[inline(always)]
pub fn cover<A: Allocator>(marks: &mut Vec<u64, A>, words: usize) -> Result<(), Memory>
    ensures same { (i : ℕ) → is_marked marks.new.items i ≡ is_marked marks.old.items i }
    ensures more { length marks.old.items ≤ length marks.new.items }
    ensures room { OnOk result (words ≤ 64 * length marks.new.items) }
{
    let needed = words.div_ceil(64);
    if marks.len() < needed {
        marks.resize(needed, 0)?;
    }
    Ok(())
}

/// Sets the mark of `word`.
#[inline(always)]
pub fn mark<A: Allocator>(marks: &mut Vec<u64, A>, word: usize)
    requires { word < 64 * length marks.old.items }
    ensures here { is_marked marks.new.items word ≡ true }
    ensures others { (i : ℕ) → i ≢ word
        → is_marked marks.new.items i ≡ is_marked marks.old.items i }
    ensures len { length marks.new.items ≡ length marks.old.items }
{
    marks[word / 64] |= 1 << (word % 64);
}

/// Clears the mark of `word`.
#[inline(always)]
pub fn unmark<A: Allocator>(marks: &mut Vec<u64, A>, word: usize)
    requires { word < 64 * length marks.old.items }
    ensures here { is_marked marks.new.items word ≡ false }
    ensures others { (i : ℕ) → i ≢ word
        → is_marked marks.new.items i ≡ is_marked marks.old.items i }
    ensures len { length marks.new.items ≡ length marks.old.items }
{
    marks[word / 64] &= !(1 << (word % 64));
}
