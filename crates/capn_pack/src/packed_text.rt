//! The call `pack`, which packs whole words into the packed text that this packer chooses.
ghost use Rattle.std.specs.Prelude.{◌≡◌, ◌≢◌, ◌+◌, ◌%◌, ◌<◌, ◌≤◌, ◌∷◌, ◌++◌, ◌↔◌, length, take, IfOk, IsErrOf, OnErr};
ghost use Rattle.std.specs.Prelude.{MatchResult, ℕ, List};
ghost use Rattle.capn_pack.specs.Packed.{Packs};
ghost use Rattle.capn_pack.specs.Chosen.{Chosen};

use crate::fault::PackFault;
use crate::pack_block::{ROOM, store_groups};
use crate::pack_group::put_group;
use crate::room::text_room;
use std::alloc::{AllocError, Allocator};

/// The length of the block that groups are written into, including [`ROOM`] for the last group.
const BLOCK: usize = 4096 + ROOM;

/// Packs `bytes`, which are whole words. Groups are gathered in a block, which is appended to the text in one call. The
/// group after each block, for example a raw group of more than sixteen words, is appended alone.
fn pack_words<A: Allocator + Copy>(alloc: A, bytes: &[u8]) -> Result<Vec<u8, A>, AllocError>
    requires { length bytes.now % 8 ≡ 0 }
    ensures chosen { IfOk result (λ v. Chosen v.items bytes.now) }
    ensures memory { OnErr result (0 < length bytes.now) }
{
    let mut out = Vec::new(alloc);
    let mut at = 0;
    let mut block = [0; BLOCK];
    while at < bytes.len() {
        let stored = store_groups(bytes, at, &mut block);
        let room = text_room(&out, stored.fill, stored.at, bytes.len());
        out.reserve(room)?;
        out.extend_from_slice(&block[..stored.fill])?;
        at = stored.at;
        if at < bytes.len() {
            at = put_group(bytes, at, &mut out)?;
        }
    }
    Ok(out)
}

/// Packs whole words and returns the one text that this packer chooses. (Page: packing. Where runs end is our own.)
///
/// `bytes` are the bytes of the words, the least significant byte of each first. The text grows on `alloc` a
/// logarithmic number of times. Most growths reserve capacity for the text of the remaining words, as if they packed
/// like the words before them. This capacity is at most 64 times the text so far. If doubling the capacity gives more,
/// the capacity is doubled.
///
/// Errors: `NotWhole` with the length of `bytes`, before any allocation, if the length is no multiple of eight.
/// `Memory` if an allocation was refused, which can happen only if `bytes` is not empty.
pub fn pack<A: Allocator + Copy>(alloc: A, bytes: &[u8]) -> Result<Vec<u8, A>, PackFault>
    // If `result` is `Ok`, the returned text is the packer's text of the words, and so a packed text of the words.
    ensures packed { IfOk result (λ v. Chosen v.items bytes.now) }
    ensures packs { IfOk result (λ v. Packs v.items bytes.now) }
    // The packer has one text for the words. That text is returned, unless an allocation is refused.
    ensures only { (b : List ℕ) → Chosen b bytes.now
        → MatchResult result (λ v. v.items ≡ b) (λ e. e ≡ PackFault.Memory) }
    // Two of the packer's texts are equal if and only if they pack the same words.
    ensures unique { (a b vs ws : List ℕ) → Chosen a vs → Chosen b ws
        → ((a ≡ b) ↔ (vs ≡ ws)) }
    // `Memory` is returned only if `bytes` is not empty.
    ensures memory { IsErrOf result PackFault.Memory → 0 < length bytes.now }
    ensures whole { length bytes.now % 8 ≡ 0 → OnErr result (result ≡ Err PackFault.Memory) }
    ensures not_whole { length bytes.now % 8 ≢ 0 → result ≡ Err (PackFault.NotWhole (length bytes.now)) }
{
    if bytes.len() % 8 != 0 {
        return Err(PackFault::NotWhole(bytes.len() as u64));
    }
    match pack_words(alloc, bytes) {
        Ok(text) => Ok(text),
        Err(_) => Err(PackFault::Memory),
    }
}
