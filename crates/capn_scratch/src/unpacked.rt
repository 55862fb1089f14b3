//! The unpacking of a packed text in two steps: the number of its words, and the words written into a buffer.

ghost use Rattle.std.specs.Prelude.{◌≡◌, ◌≢◌, ℕ, ◌+◌, ◌*◌, ◌≤◌, List, length, take, IfOk, IfErr};
ghost use Rattle.capn_pack.specs.Packed.{Packs};
ghost use Rattle.capn_pack.specs.UnpackRefusal.{IsUnpackRefused};

use crate::counted_bytes::CountedBytes;
use crate::counted_scratch::CountedText;
use crate::group::{Stop, put_group, size_of};
use crate::steps::Steps;
use capn_pack::UnpackFault;
use std::sync::ledger::Ledger;

/// Returns the number of words, at most `max_words`, that the packed text `bytes` unpacks to. Nothing is written.
///
/// Each refusal has the offset of a group's tag. The head of a group is all of the group but the raw words after its
/// count. `Cut` refuses an incomplete head. Then `TooLong` refuses a group that takes the text over `max_words` words.
/// Then `Cut` refuses incomplete raw words. `Memory` and `Failed` are never returned.
#[inline(always)]
pub(crate) fn unpacked_words<L: Ledger>(
    bytes: &CountedBytes<'_, L>,
    max_words: usize,
    steps: &mut Steps<L>,
) -> Result<usize, UnpackFault>
    ensures found { IfOk result (λ n. (text : List ℕ) × Packs bytes.now text × (length text ≡ 8 * n)) }
    ensures within { IfOk result (λ n. n ≤ max_words) }
    ensures refused { IfErr result (λ e. IsUnpackRefused bytes.now max_words e) }
    ensures no_memory { IfErr result (λ e. e ≢ UnpackFault.Memory) }
    ensures steps { steps.new ≤ steps.old + 2 * length bytes.now + 1 }
{
    bytes.bounds();
    let mut room = max_words;
    let mut at = 0;
    while at < bytes.len() {
        steps.tick();
        match size_of(&bytes.rest(at), room, steps) {
            Ok(size) => {
                at += size.bytes;
                room -= size.words;
            }
            Err(Stop::Cut) => return Err(UnpackFault::Cut { at: at as u64 }),
            Err(Stop::TooLong) => return Err(UnpackFault::TooLong { at: at as u64 }),
        }
    }
    Ok(max_words - room)
}

/// Unpacks the packed text `bytes` to the beginning of `out`, if the text unpacks to at most `max_words` words. Returns
/// the number of words written. The bytes of `out` after those words are not specified. If the result is an `Err`, no
/// byte of `out` is specified.
///
/// The refusals are those of [`unpacked_words`].
#[inline(always)]
pub(crate) fn unpack_into<L: Ledger>(
    bytes: &CountedBytes<'_, L>,
    max_words: usize,
    out: &mut CountedText<'_, L>,
    steps: &mut Steps<L>,
) -> Result<usize, UnpackFault>
    requires { 8 * max_words ≤ length out.old }
    ensures found { IfOk result (λ n. Packs bytes.now (take (8 * n) out.new)) }
    ensures within { IfOk result (λ n. n ≤ max_words) }
    ensures refused { IfErr result (λ e. IsUnpackRefused bytes.now max_words e) }
    ensures no_memory { IfErr result (λ e. e ≢ UnpackFault.Memory) }
    ensures long { length out.new ≡ length out.old }
    ensures steps { steps.new ≤ steps.old + length bytes.now + 12 * max_words + 2 }
{
    let _room = out.len();
    let mut room = max_words;
    let mut at = 0;
    let mut fill = 0;
    while at < bytes.len() {
        steps.tick();
        let rest = bytes.rest(at);
        match size_of(&rest, room, steps) {
            Ok(size) => {
                put_group(&rest, size, out, fill, steps);
                at += size.bytes;
                fill += 8 * size.words;
                room -= size.words;
            }
            Err(Stop::Cut) => return Err(UnpackFault::Cut { at: at as u64 }),
            Err(Stop::TooLong) => return Err(UnpackFault::TooLong { at: at as u64 }),
        }
    }
    Ok(max_words - room)
}
