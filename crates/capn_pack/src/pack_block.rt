//! The packing of small groups into a block, whose bytes are then appended to the text in one call.
ghost use Rattle.std.specs.Prelude.{◌≡◌, ◌+◌, ◌*◌, ◌≤◌, ◌∷◌, ◌++◌, [], length, take, drop, slice_range, IfSome, IfNone};
ghost use Rattle.capn_pack.specs.Packed.{named_bytes, tag_of};
ghost use Rattle.capn_pack.specs.inner.Steps.{Puts, PutsRow};

use crate::block::{Block, store_bytes};
use crate::lanes::gather;
use crate::runs::{raw_run, word_at, zero_run};
use crate::signs::tag;

/// The number of bytes of eight words. The words of a raw group after its first word are stored eight at a time.
const EIGHT: usize = 64;

/// The greatest number of bytes that are stored after the head of a raw group, for at most fifteen words.
const SPAN: usize = 128;

/// The number of free bytes that a block needs for one group. The head of a raw group has ten bytes.
pub(crate) const ROOM: usize = 10 + SPAN;

#[inline(always)]
fn store(block: &mut [u8], at: usize, bytes: [u8; 16])
    requires { at + 16 ≤ length block.old }
    ensures { take (at + 16) block.new ≡ take at block.old ++ bytes }
{
    block[at..at + 16].copy_from_slice(&bytes);
}

#[inline(always)]
fn store_pair(block: &mut [u8], at: usize, pair: [u8; 2])
    requires { at + 2 ≤ length block.old }
    ensures { take (at + 2) block.new ≡ take at block.old ++ pair }
{
    block[at..at + 2].copy_from_slice(&pair);
}

/// Copies `more` words, at most sixteen, from byte `from` of `bytes` to `block`, from offset `at` on. The [`SPAN`]
/// bytes of `block` from `at` on may be overwritten.
#[inline(always)]
fn store_words(block: &mut [u8], at: usize, bytes: &[u8], from: usize, more: usize)
    requires room { at + SPAN ≤ length block.old }
    requires far { from + SPAN ≤ length bytes.now }
    requires few { more ≤ 16 }
    ensures { take (at + 8 * more) block.new ≡ take at block.old ++ slice_range bytes.now from (from + 8 * more) }
{
    if more <= 8 {
        store_bytes(block, at, &bytes[from..from + EIGHT]);
    } else {
        store_bytes(block, at, &bytes[from..from + SPAN]);
    }
}

/// Packs the word at byte `at` of `bytes`, and the words after it as long as each has at most one zero byte, as a raw
/// group. Writes the group to `block` at offset `fill`. Returns `None` if the group has more than sixteen words, or if
/// fewer than [`SPAN`] bytes follow its first word.
#[inline(always)]
fn store_raw(bytes: &[u8], at: usize, block: &mut [u8], fill: usize) -> Option<Block>
    requires inside { at + 8 ≤ length bytes.now }
    requires tag { tag_of (take 8 (drop at bytes.now)) ≡ 255 }
    requires room { fill + ROOM ≤ length block.old }
    ensures within { IfSome result (λ s. s.fill ≤ fill + ROOM) }
    ensures some { IfSome result (λ s. Puts bytes.now at s.at (take fill block.old) (take s.fill block.new)) }
    ensures none { IfNone result (block.new ≡ block.old) }
{
    let start = at + 8;
    if bytes.len() < start + SPAN {
        return None;
    }
    let more = raw_run(bytes, start);
    if more == 16 {
        return None;
    }
    // The word stays in vector lanes, as in a group of one word.
    let word = word_at(bytes, at);
    store(block, fill, gather(word, 255));
    store_bytes(block, fill + 9, &[more as u8]);
    store_words(block, fill + 10, bytes, start, more);
    Some(Block {
        at: start + 8 * more,
        fill: fill + 10 + 8 * more,
    })
}

/// Writes `tag`, and the bytes of `word` that `tag` names, to `block` at offset `fill`. Returns the offset after
/// these bytes. The 16 bytes of `block` from `fill` on are overwritten.
#[inline(always)]
fn store_named(block: &mut [u8], fill: usize, word: [u8; 8], tag: u8) -> usize
    requires { fill + 16 ≤ length block.old }
    ensures within { result ≤ fill + 16 }
    ensures text { take result block.new ≡ take fill block.old ++ tag ∷ named_bytes tag word }
{
    store(block, fill, gather(word, tag));
    fill + 1 + tag.count_ones() as usize
}

/// Packs the zero word at byte `at` of `bytes`, and up to 255 zero words after it, as one group. Writes the group to
/// `block` at offset `fill`.
#[inline(always)]
fn store_zeros(bytes: &[u8], at: usize, block: &mut [u8], fill: usize) -> Block
    requires inside { at + 8 ≤ length bytes.now }
    requires tag { tag_of (take 8 (drop at bytes.now)) ≡ 0 }
    requires room { fill + ROOM ≤ length block.old }
    ensures within { result.fill ≤ fill + ROOM }
    ensures some { Puts bytes.now at result.at (take fill block.old) (take result.fill block.new) }
{
    let more = zero_run(bytes, at + 8);
    store_pair(block, fill, [0, more as u8]);
    Block {
        at: at + 8 + 8 * more,
        fill: fill + 2,
    }
}

/// Packs the words at byte `at` of `bytes` as the group that the packer chooses. Writes the group to `block` at offset
/// `fill`. Returns `None` for a raw group of more than sixteen words, or near the end of `bytes` (see [`store_raw`]).
#[inline(always)]
fn store_group(bytes: &[u8], at: usize, block: &mut [u8], fill: usize) -> Option<Block>
    requires inside { at + 8 ≤ length bytes.now }
    requires room { fill + ROOM ≤ length block.old }
    ensures within { IfSome result (λ s. s.fill ≤ fill + ROOM) }
    ensures some { IfSome result (λ s. Puts bytes.now at s.at (take fill block.old) (take s.fill block.new)) }
    ensures none { IfNone result (block.new ≡ block.old) }
{
    let word = word_at(bytes, at);
    let tag = tag(&word);
    match tag {
        // Most groups need only this one test.
        1..=254 => Some(Block {
            fill: store_named(block, fill, word, tag),
            at: at + 8,
        }),
        0 => Some(store_zeros(bytes, at, block, fill)),
        _ => store_raw(bytes, at, block, fill),
    }
}

/// Packs the words from byte `start` of `bytes` on as the groups that the packer chooses, and writes these to `block`.
/// Stops at the end of `bytes`, if fewer than [`ROOM`] bytes of `block` are free, or if [`store_group`] returns `None`.
pub(crate) fn store_groups(bytes: &[u8], start: usize, block: &mut [u8]) -> Block
    requires inside { start ≤ length bytes.now }
    requires room { ROOM ≤ length block.old }
    ensures within { result.fill ≤ length block.new }
    ensures row { PutsRow bytes.now start result.at [] (take result.fill block.new) }
{
    let limit = block.len() - ROOM;
    let whole = bytes.len().saturating_sub(7);
    let mut at = start;
    let mut fill = 0;
    while at < whole && fill <= limit {
        match store_group(bytes, at, block, fill) {
            Some(stored) => {
                at = stored.at;
                fill = stored.fill;
            }
            None => return Block { at, fill },
        }
    }
    Block { at, fill }
}
