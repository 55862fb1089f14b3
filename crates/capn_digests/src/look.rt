//! The lookup of a digest in one bucket of the table.

ghost use Rattle.std.specs.Prelude.{◌≡◌, ℕ, ◌<◌, ◌≢◌, List, length, [], true, false, slice_index_or};
ghost use Rattle.std.specs.List.{Contains};
ghost use Rattle.capn_digests.specs.Buckets.{no_slot};

use crate::slot::{SLOTS, Slot};

/// Tests whether `list` has `digest` at index `at`.
#[inline(always)]
fn stands_at(list: &[[u8; 32]], at: u32, digest: &[u8; 32]) -> bool
    ensures found { result ≡ true → (at < length list.now) × (slice_index_or list.now at [] ≡ digest.now) }
    ensures missing { result ≡ false → at < length list.now → slice_index_or list.now at [] ≢ digest.now }
{
    let at = at as usize;
    at < list.len() && list[at] == *digest
}

/// Tests whether some slot of `bucket` has the tag `tag` and an index at which `list` has `digest`.
#[inline(never)]
pub(crate) fn is_among(
    bucket: &[Slot; SLOTS],
    list: &[[u8; 32]],
    tag: u32,
    digest: &[u8; 32],
) -> bool
    ensures found { result ≡ true → (at : ℕ) × (at < length list.now) × (slice_index_or list.now at [] ≡ digest.now) }
    ensures missing { result ≡ false → (k : ℕ) → k < length bucket.now
        → (slice_index_or bucket.now k no_slot).tag ≡ tag
        → (slice_index_or bucket.now k no_slot).at < length list.now
        → slice_index_or list.now ((slice_index_or bucket.now k no_slot).at) [] ≢ digest.now }
{
    for slot in bucket {
        if slot.tag == tag && stands_at(list, slot.at, digest) {
            return true;
        }
    }
    false
}
