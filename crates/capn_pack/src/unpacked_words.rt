//! The call `unpack`, which unpacks a complete packed text of at most a given number of words.
ghost use Rattle.std.specs.Prelude.{◌≡◌, ◌*◌, ◌≤◌, length, IfOk, IfErr, IsErrOf, MatchResult, List, ℕ};
ghost use Rattle.capn_pack.specs.Packed.{Packs};
ghost use Rattle.capn_pack.specs.UnpackRefusal.{IsUnpackRefused, StartsWithin};
ghost use Rattle.capn_pack.specs.Words.{HasWords};

use crate::fault::UnpackFault;
use crate::unpack_block::{SLACK, take_block};
use crate::unpack_group::{Stop, take_group};
use std::alloc::Allocator;

/// The length of the block that groups are read into, including its slack.
const BLOCK: usize = 4096 + SLACK;

/// Unpacks `bytes` to at most `max_words` words. The words of groups are gathered in a block, which is appended to the
/// result in one call. The words of the group after each block are appended alone.
fn unpack_groups<A: Allocator + Copy>(
    alloc: A,
    bytes: &[u8],
    max_words: u32,
) -> Result<Vec<u8, A>, UnpackFault>
    ensures found { IfOk result (λ v. Packs bytes.now v.items) }
    ensures within { IfOk result (λ v. length v.items ≤ 8 * max_words) }
    ensures refused { IfErr result (λ e. IsUnpackRefused bytes.now max_words e) }
    ensures memory { IsErrOf result UnpackFault.Memory → StartsWithin bytes.now max_words }
{
    let mut out = Vec::new(alloc);
    let mut room = max_words as usize;
    let mut at = 0;
    let mut block = [0; BLOCK];
    while at < bytes.len() {
        let row = take_block(&bytes[at..], room, &mut block, &mut out)?;
        at += row.bytes;
        room -= row.words;
        if at < bytes.len() {
            match take_group(&bytes[at..], room, &mut out) {
                Ok(taken) => {
                    at += taken.bytes;
                    room -= taken.words;
                }
                Err(Stop::Memory) => return Err(UnpackFault::Memory),
                Err(Stop::Cut) => return Err(UnpackFault::Cut { at: at as u64 }),
                Err(Stop::TooLong) => return Err(UnpackFault::TooLong { at: at as u64 }),
            }
        }
    }
    Ok(out)
}

/// Unpacks the packed text `bytes` and returns the bytes of its words. (Page: packing.)
///
/// Texts that the packer would not write are read too: tag bits that are set for zero bytes, short runs, any raw words.
/// (Our own.) The empty text packs no words. The result grows on `alloc` a logarithmic number of times, and only for
/// the words of complete groups within the maximum. A growth reserves capacity for the words of the groups that are
/// appended next. More is reserved only up to twice the bytes of the text from these groups on, and only up to the
/// maximum. If doubling the capacity gives more, the capacity is doubled.
///
/// Errors: `Cut` if the head of a group is incomplete. Otherwise `TooLong` if the group and the groups before it have
/// more than `max_words` words. Otherwise `Cut` if the raw words of the group are incomplete. `Cut` and `TooLong` have
/// the offset of the group's tag in `bytes`. `Memory` if an allocation was refused, which can happen only if `bytes`
/// begin with a complete group within the maximum. `Failed` is never returned.
pub fn unpack<A: Allocator + Copy>(
    alloc: A,
    bytes: &[u8],
    max_words: u32,
) -> Result<Vec<u8, A>, UnpackFault>
    // If `result` is `Ok`, `bytes` pack the returned words, which are within the maximum.
    ensures found { IfOk result (λ v. Packs bytes.now v.items) }
    ensures within { IfOk result (λ v. length v.items ≤ 8 * max_words) }
    // If `result` is `Ok`, the returned bytes are the bytes of words.
    ensures words { IfOk result (λ v. HasWords v.items) }
    // If `bytes` pack words within the maximum, those words are returned, unless an allocation is refused.
    ensures only { (bs : List ℕ) → Packs bytes.now bs → length bs ≤ 8 * max_words
        → MatchResult result (λ v. v.items ≡ bs) (λ e. e ≡ UnpackFault.Memory) }
    // If `result` is an `Err`, `IsUnpackRefused` holds of `bytes`, `max_words` and the error.
    ensures refused { IfErr result (λ e. IsUnpackRefused bytes.now max_words e) }
    // `Memory` is returned only if `bytes` begin with a complete group within the maximum.
    ensures memory { IsErrOf result UnpackFault.Memory → StartsWithin bytes.now max_words }
{
    match unpack_groups(alloc, bytes, max_words) {
        Ok(words) => Ok(words),
        Err(fault) => Err(fault),
    }
}
