//! The unpacking of one piece of a text, together with the bytes of an unfinished group from earlier pieces.
ghost use Rattle.std.specs.Prelude.{◌≡◌, ◌+◌, ◌<◌, ◌≤◌, ◌++◌, length, take, drop, IfOk, OnErr};
ghost use Rattle.capn_pack.specs.PackedPieces.{Splits, Begins, NoGroupFirst};
ghost use Rattle.capn_pack.specs.inner.Joins.{FeedGives, IsHeld, Joins};

use crate::unpack_block::{SLACK, take_block};
use crate::unpack_group::{GROUP, Stop, WORDS, take_group};
use std::alloc::{AllocError, Allocator};

/// The length of the buffer for an unfinished group and for the bytes of the next piece that may complete the group.
pub(crate) const HELD: usize = 4099;

/// Appends to `out` the words of the complete groups at the front of `bytes`, and returns the number of bytes of those
/// groups. `block` is overwritten.
fn take_groups<A: Allocator>(
    bytes: &[u8],
    block: &mut [u8],
    out: &mut Vec<u8, A>,
) -> Result<usize, AllocError>
    requires { SLACK ≤ length block.old }
    ensures inside { IfOk result (λ n. n ≤ length bytes.now) }
    ensures ok { IfOk result (λ n. Splits bytes.now (drop n bytes.now) out.old.items out.new.items n) }
    ensures short { IfOk result (λ n. length bytes.now < n + GROUP) }
    ensures err { OnErr result (Begins bytes.now out.old.items out.new.items) }
    ensures memory { OnErr result (NoGroupFirst bytes.now → ⊥) }
{
    let mut at = 0;
    while at < bytes.len() {
        let row = match take_block(&bytes[at..], block.len() / 8, block, out) {
            Ok(row) => row,
            Err(error) => return Err(error),
        };
        at += row.bytes;
        if at < bytes.len() {
            match take_group(&bytes[at..], WORDS, out) {
                Ok(taken) => at += taken.bytes,
                Err(Stop::Memory) => return Err(AllocError),
                Err(Stop::Cut) => return Ok(at),
                Err(Stop::TooLong) => unreachable!(),
            }
        }
    }
    Ok(at)
}

/// The state of an unfinished group after more bytes. `Open` has the number of bytes that the group has now. `Whole`
/// has the number of bytes that the group got from the piece.
#[derive(Clone, Copy)]
pub(crate) enum Joined {
    Open(usize),
    Whole(usize),
}

/// Copies `piece` into `held`, after the first `len` bytes of `held`.
fn fill(held: &mut [u8], len: usize, piece: &[u8])
    requires { len + length piece.now ≤ length held.old }
    ensures front { take len held.new ≡ take len held.old }
    ensures joined { take (len + length piece.now) held.new ≡ take len held.old ++ piece.now }
{
    let end = len + piece.len();
    held[len..end].copy_from_slice(piece);
}

/// Joins the unfinished group, which is the first `len` bytes of `held`, with the front of `piece`. If the group is
/// then complete, appends its words to `out`.
fn join_first<A: Allocator>(
    held: &mut [u8],
    len: usize,
    piece: &[u8],
    out: &mut Vec<u8, A>,
) -> Result<Joined, AllocError>
    requires some { 0 < len }
    requires held { IsHeld held.old len }
    ensures front { take len held.new ≡ take len held.old }
    ensures joined { IfOk result (λ j. Joins (take len held.old) piece.now held.new out.old.items out.new.items j) }
    ensures err { OnErr result (out.new.items ≡ out.old.items) }
    ensures memory { OnErr result (NoGroupFirst (take len held.old ++ piece.now) → ⊥) }
{
    let more = piece.len().min(GROUP - 1);
    let front = &piece[..more];
    let all = len + front.len();
    fill(held, len, front);
    match take_group(&held[..all], WORDS, out) {
        Ok(taken) => Ok(Joined::Whole(taken.bytes - len)),
        Err(Stop::Memory) => Err(AllocError),
        Err(Stop::Cut) => Ok(Joined::Open(all)),
        Err(Stop::TooLong) => unreachable!(),
    }
}

/// The result of unpacking a piece. `len` is the number of bytes of the unfinished group, with which `held` begins.
/// `taken` is the number of bytes of the complete groups before the unfinished group.
#[derive(Clone, Copy)]
pub(crate) struct Fed {
    pub len: usize,
    pub taken: usize,
}

/// Unpacks `piece`, before which no group is unfinished. Appends the words of the complete groups to `out`, and copies
/// the bytes after those groups to `held`.
fn feed_fresh<A: Allocator>(
    held: &mut [u8],
    piece: &[u8],
    out: &mut Vec<u8, A>,
) -> Result<Fed, AllocError>
    requires room { length held.old ≡ HELD }
    ensures gives { FeedGives piece.now out.old.items result held.new out.new.items }
    ensures inside { IfOk result (λ fed. fed.taken ≤ length piece.now) }
{
    let taken = take_groups(piece, held, out)?;
    let rest = &piece[taken..];
    fill(held, 0, rest);
    Ok(Fed {
        len: rest.len(),
        taken,
    })
}

/// Unpacks `piece` after the first `len` bytes of `held`, which begin an unfinished group. Appends to `out` the
/// words of the groups that are then complete. Stores the bytes after those groups in `held`.
fn feed_begun<A: Allocator>(
    held: &mut [u8],
    len: usize,
    piece: &[u8],
    out: &mut Vec<u8, A>,
) -> Result<Fed, AllocError>
    requires some { 0 < len }
    requires held { IsHeld held.old len }
    ensures { FeedGives (take len held.old ++ piece.now) out.old.items result held.new out.new.items }
{
    match join_first(held, len, piece, out)? {
        Joined::Open(all) => Ok(Fed { len: all, taken: 0 }),
        Joined::Whole(at) => {
            match feed_fresh(held, &piece[at..], out) {
                Ok(fed) => Ok(Fed {
                    len: fed.len,
                    taken: len + at + fed.taken,
                }),
                Err(error) => Err(error),
            }
        }
    }
}

/// Unpacks `piece` after the first `len` bytes of `held`. `len` may be 0. Appends to `out` the words of the groups
/// that are then complete. Stores the bytes after those groups in `held`.
pub(crate) fn feed_held<A: Allocator>(
    held: &mut [u8],
    len: usize,
    piece: &[u8],
    out: &mut Vec<u8, A>,
) -> Result<Fed, AllocError>
    requires { IsHeld held.old len }
    ensures { FeedGives (take len held.old ++ piece.now) out.old.items result held.new out.new.items }
{
    if len == 0 {
        feed_fresh(held, piece, out)
    } else {
        feed_begun(held, len, piece, out)
    }
}
