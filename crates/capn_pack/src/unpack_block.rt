//! The unpacking of small groups into a block, whose bytes are then appended to the words in one call.
ghost use Rattle.std.specs.Prelude.{◌≡◌, ◌+◌, ◌*◌, ◌<◌, ◌≤◌, ◌++◌, [], length, take, slice_index, slice_range};
ghost use Rattle.std.specs.Prelude.{replicate, IfSome, IfOk, OnErr};
ghost use Rattle.capn_pack.specs.UnpackRefusal.{StartsWithin};
ghost use Rattle.capn_pack.specs.inner.Steps.{Fills, FillGives, TakesRow};

use crate::block::{Block, store_bytes};
use crate::lanes::spread_far;
use crate::room::words_room;
use crate::unpack_group::Taken;
use std::alloc::{AllocError, Allocator};

/// The number of bytes of a block after its limit: room for one store of eight words, of which only some may be kept.
pub(crate) const SLACK: usize = 64;

/// The number of bytes of text that one step may read: the head of a raw group, and eight words after it.
const REACH: usize = 10 + SLACK;

#[inline(always)]
fn store_word(block: &mut [u8], at: usize, word: [u8; 8])
    requires { at + 8 ≤ length block.old }
    ensures { take (at + 8) block.new ≡ take at block.old ++ word }
{
    block[at..at + 8].copy_from_slice(&word);
}

#[inline(always)]
fn store_zeros(block: &mut [u8], at: usize)
    requires { at + SLACK ≤ length block.old }
    ensures { take (at + SLACK) block.new ≡ take at block.old ++ replicate SLACK 0 }
{
    block[at..at + SLACK].copy_from_slice(&[0; SLACK]);
}

/// Writes the zero words of the group at byte `at` of `text` to `block` from offset `fill` on. Returns `None` if the
/// group has more than eight words.
#[inline(always)]
fn fill_zeros(text: &[u8], at: usize, block: &mut [u8], fill: usize) -> Option<Block>
    requires far { at + 17 ≤ length text.now }
    requires tag { slice_index (slice_range text.now at (length text.now)) 0 ≡ 0 }
    requires room { fill + SLACK ≤ length block.old }
    ensures within { IfSome result (λ f. f.fill ≤ fill + SLACK) }
    ensures gives { FillGives text.now at fill block.old block.new result }
{
    let rest = &text[at..];
    let more = rest[1] as usize;
    if more > 7 {
        return None;
    }
    store_zeros(block, fill);
    Some(Block {
        at: at + 2,
        fill: fill + 8 + 8 * more,
    })
}

/// Writes the words of the raw group at byte `at` of `text` to `block` from offset `fill` on. Returns `None` if the
/// group has more than eight words.
#[inline(always)]
fn fill_raw(text: &[u8], at: usize, block: &mut [u8], fill: usize) -> Option<Block>
    requires far { at + REACH ≤ length text.now }
    requires tag { slice_index (slice_range text.now at (length text.now)) 0 ≡ 255 }
    requires room { fill + 8 + SLACK ≤ length block.old }
    ensures within { IfSome result (λ f. f.fill ≤ fill + SLACK) }
    ensures gives { FillGives text.now at fill block.old block.new result }
{
    let rest = &text[at..];
    let more = rest[9] as usize;
    if more > 7 {
        return None;
    }
    store_bytes(block, fill, &rest[1..9]);
    store_bytes(block, fill + 8, &rest[10..10 + SLACK]);
    Some(Block {
        at: at + 10 + 8 * more,
        fill: fill + 8 + 8 * more,
    })
}

/// Writes the word of the group at byte `at` of `text` to `block` from offset `fill` on. The tag of the group names one
/// to seven bytes.
#[inline(always)]
fn fill_named(text: &[u8], at: usize, block: &mut [u8], fill: usize) -> Block
    requires far { at + 17 ≤ length text.now }
    requires above { 0 < slice_index (slice_range text.now at (length text.now)) 0 }
    requires below { slice_index (slice_range text.now at (length text.now)) 0 < 255 }
    requires room { fill + 8 ≤ length block.old }
    ensures filled { result.fill ≡ fill + 8 }
    ensures fills { Fills text.now at fill 1 block.old block.new result }
{
    let rest = &text[at..];
    let tag = rest[0];
    let word = spread_far(tag, &rest[1..]);
    store_word(block, fill, word);
    // The next tag can be loaded only when this sum is known, so the sum is kept short.
    Block {
        at: at + 1 + tag.count_ones() as usize,
        fill: fill + 8,
    }
}

/// Writes the words of the group at byte `at` of `text` to `block` from offset `fill` on. Returns `None` if the group
/// has more than eight words.
#[inline(always)]
fn fill_group(text: &[u8], at: usize, block: &mut [u8], fill: usize) -> Option<Block>
    requires far { at + REACH ≤ length text.now }
    requires room { fill + 8 + SLACK ≤ length block.old }
    ensures within { IfSome result (λ f. f.fill ≤ fill + SLACK) }
    ensures gives { FillGives text.now at fill block.old block.new result }
{
    let rest = &text[at..];
    // Most groups need only this one test.
    match rest[0] {
        1..=254 => Some(fill_named(text, at, block, fill)),
        0 => fill_zeros(text, at, block, fill),
        _ => fill_raw(text, at, block, fill),
    }
}

/// Writes the words of the group at byte `at` of `text` to `block` from offset `fill` on, near the end of the text or
/// of the block. Returns `None` for a raw group, for more than eight zero words, and for any zero words if `fill`
/// is fewer than [`SLACK`] bytes before `limit`.
#[inline(always)]
fn fill_last(text: &[u8], at: usize, block: &mut [u8], fill: usize, limit: usize) -> Option<Block>
    requires far { at + 17 ≤ length text.now }
    requires room { fill + 8 ≤ limit }
    requires slack { limit + SLACK ≤ length block.old }
    ensures within { IfSome result (λ f. f.fill ≤ limit) }
    ensures gives { FillGives text.now at fill block.old block.new result }
{
    let rest = &text[at..];
    match rest[0] {
        1..=254 => Some(fill_named(text, at, block, fill)),
        0 => if fill + SLACK <= limit {
            fill_zeros(text, at, block, fill)
        } else {
            None
        },
        _ => None,
    }
}

/// The progress after some steps, and the number of steps that are left.
#[derive(Clone, Copy)]
struct Stretch {
    reached: Block,
    left: usize,
}

/// Fills `block` with the words of the next `steps` groups of `text`, but stops before a group of more than eight
/// words. The requirements guarantee that `text` and `block` have enough bytes for all these groups.
#[inline(always)]
fn fill_steps(text: &[u8], from: Block, block: &mut [u8], steps: usize) -> Stretch
    requires far { from.at + REACH * steps ≤ length text.now }
    requires room { from.fill + SLACK * steps + 8 ≤ length block.old }
    requires row { TakesRow text.now from.at [] (take from.fill block.old) }
    ensures row { TakesRow text.now result.reached.at [] (take result.reached.fill block.new) }
    ensures within { result.reached.fill ≤ from.fill + SLACK * steps }
    ensures forward { result.left ≡ 0 → from.at + steps ≤ result.reached.at }
{
    let mut at = from.at;
    let mut fill = from.fill;
    let mut left = steps;
    while left > 0 {
        match fill_group(text, at, block, fill) {
            Some(filled) => {
                at = filled.at;
                fill = filled.fill;
                left -= 1;
            }
            None => return Stretch {
                reached: Block { at, fill },
                left,
            },
        }
    }
    Stretch {
        reached: Block { at, fill },
        left,
    }
}

/// Returns a number of groups of at most eight words that surely fit after the progress `from`. For each of these
/// groups, a text of `len` bytes has [`REACH`] more bytes, and the block has [`SLACK`] more bytes up to `limit`.
#[inline(always)]
fn sure_steps(len: usize, limit: usize, from: Block) -> usize
    requires inside { from.at ≤ len }
    requires within { from.fill ≤ limit }
    ensures far { from.at + REACH * result ≤ len }
    ensures room { from.fill + SLACK * result ≤ limit }
{
    ((len - from.at) / 128).min((limit - from.fill) / SLACK)
}

/// Fills `block` up to `limit` with the words of the groups of `text` after `from`, near the end of the text or of the
/// block. Stops if [`fill_last`] returns `None`.
#[inline(always)]
fn fill_rest(text: &[u8], from: Block, block: &mut [u8], limit: usize) -> Block
    requires slack { limit + SLACK ≤ length block.old }
    requires within { from.fill ≤ limit }
    requires row { TakesRow text.now from.at [] (take from.fill block.old) }
    ensures within { result.fill ≤ limit }
    ensures row { TakesRow text.now result.at [] (take result.fill block.new) }
{
    let far = text.len().saturating_sub(16);
    let room = limit.saturating_sub(7);
    let mut at = from.at;
    let mut fill = from.fill;
    while at < far && fill < room {
        match fill_last(text, at, block, fill, limit) {
            Some(filled) => {
                at = filled.at;
                fill = filled.fill;
            }
            None => return Block { at, fill },
        }
    }
    Block { at, fill }
}

/// Fills `block` up to `limit` with the words of the first groups of `text`. Stops before a group of more than eight
/// words, and before a group that is too near the end of `text` or of the block.
fn fill_block(text: &[u8], block: &mut [u8], limit: usize) -> Block
    requires { limit + SLACK ≤ length block.old }
    ensures within { result.fill ≤ limit }
    ensures row { TakesRow text.now result.at [] (take result.fill block.new) }
{
    let mut from = Block { at: 0, fill: 0 };
    let mut steps = sure_steps(text.len(), limit, from);
    while steps > 0 {
        let stretch = fill_steps(text, from, block, steps);
        from = stretch.reached;
        if stretch.left > 0 {
            return from;
        }
        steps = sure_steps(text.len(), limit, from);
    }
    fill_rest(text, from, block, limit)
}

/// Appends the words of some first groups of `rest` to `out`: at most `room` words, and at most as many as fit into
/// `block`. Returns the numbers of bytes and words of these groups, which may be 0.
pub(crate) fn take_block<A: Allocator>(
    rest: &[u8],
    room: usize,
    block: &mut [u8],
    out: &mut Vec<u8, A>,
) -> Result<Taken, AllocError>
    requires room { 8 * room < usize.MAX }
    requires slack { SLACK ≤ length block.old }
    ensures row { IfOk result (λ t. TakesRow rest.now t.bytes out.old.items out.new.items) }
    ensures counted { IfOk result (λ t. length out.new.items ≡ length out.old.items + 8 * t.words) }
    ensures fits { IfOk result (λ t. t.words ≤ room) }
    ensures memory { OnErr result (StartsWithin rest.now room) }
    ensures err { OnErr result (out.new.items ≡ out.old.items) }
{
    let limit = (8 * room).min(block.len() - SLACK);
    let filled = fill_block(rest, block, limit);
    // Without this test, every long group would cost a call that copies nothing.
    if filled.fill == 0 {
        return Ok(Taken {
            bytes: filled.at,
            words: 0,
        });
    }
    let ahead = words_room(out, filled.fill, rest, room);
    out.reserve(ahead)?;
    out.extend_from_slice(&block[..filled.fill])?;
    Ok(Taken {
        bytes: filled.at,
        words: filled.fill / 8,
    })
}
