//! Reads a packed input to its end, and unpacks the input while it is read.

ghost use Rattle.std.specs.Prelude.{◌≡◌, ℕ, ◌+◌, ◌-◌, ◌<◌, ◌≤◌, ◌^◌, ◌++◌, List, length, take, drop, false, OnOk};
ghost use Rattle.capn_words.specs.Watched.{inner_of, has_failed};
ghost use Rattle.capn_pack.specs.WholeGroups.{most_group};
ghost use Rattle.capn_commands.specs.inner.Pending.{IsPending};
ghost use Rattle.capn_commands.specs.inner.ReadInput.{TakesAll};
ghost use Rattle.capn_commands.specs.WholeInput.{Gives};
ghost use Rattle.capn_commands.specs.declared.plan.Whole.TheVariants as wholes;

use crate::fault::ToolFault;
use capn_canon::Refusal;
use capn_pack::{Next, UnpackFault, unpack_some};
use capn_serve::{CHUNK, MOST_INPUT};
use capn_words::Watched;
use std::alloc::{AllocError, Allocator};
use std::io::Read;

/// The number of bytes of a buffer for any unfinished group and one chunk.
const ROOM: usize = 2050 + CHUNK as usize;

/// The state of a packed input that is unpacked while it is read.
#[derive(Drop)]
pub(crate) struct Pending {
    /// A buffer that begins with the `len` bytes of an unfinished group.
    pub text: [u8; ROOM],
    pub len: usize,
    /// The offset in the input at which the first group that is not unpacked begins.
    pub at: u64,
    /// The number of words that may still be unpacked.
    pub left: u32,
    /// True if a group had more than `left` words. All later input is then dropped.
    pub is_long: bool,
}

/// Copies `piece` into `text`, after the first `len` bytes.
fn fill(text: &mut [u8], len: usize, piece: &[u8])
    requires { len + length piece.now ≤ length text.old }
    ensures { take (len + length piece.now) text.new ≡ take len text.old ++ piece.now }
{
    let end = len + piece.len();
    text[len..end].copy_from_slice(piece);
}

/// Moves the bytes of `text` between the offsets `from` and `to` to the front.
fn keep(text: &mut [u8], from: usize, to: usize)
    requires order { from ≤ to }
    requires within { to ≤ length text.old }
    ensures { take (to - from) text.new ≡ drop from (take to text.old) }
{
    text.copy_within(from..to, 0);
}

/// Takes the next chunk `piece`, and appends the words of the groups that are now complete to `words`. Stops at a group
/// with more than `pending.left` words. After such a group, nothing is appended.
fn take_chunk<A: Allocator>(
    pending: &mut Pending,
    piece: &[u8],
    words: &mut Vec<u8, A>,
) -> Result<(), AllocError>
    requires short { length piece.now ≤ 65536 }
    requires held { pending.old.len < most_group }
    requires near { pending.old.at ≤ 2 ^ 32 }
    ensures held { pending.new.len < most_group }
    ensures pending { OnOk result ((most : ℕ) (seen : List ℕ)
        → IsPending most seen words.old.items (take pending.old.len pending.old.text) pending.old.at
        pending.old.left pending.old.is_long
        → IsPending most (seen ++ piece.now) words.new.items (take pending.new.len pending.new.text) pending.new.at
        pending.new.left pending.new.is_long) }
{
    if pending.is_long {
        return Ok(());
    }
    let all = pending.len + piece.len();
    fill(&mut pending.text, pending.len, piece);
    let progress = unpack_some(&pending.text[..all], pending.left, words)?;
    pending.at += progress.bytes as u64;
    pending.left -= progress.words;
    match progress.next {
        Next::End => pending.len = 0,
        Next::Cut => {
            keep(&mut pending.text, progress.bytes, all);
            pending.len = all - progress.bytes;
        }
        Next::TooLong => {
            pending.len = 0;
            pending.is_long = true;
        }
    }
    Ok(())
}

/// Returns `words` at the end of a packed input, or the fault of a group that is cut off or has too many words.
fn end_pending<A: Allocator>(pending: &Pending, words: Vec<u8, A>) -> Result<Vec<u8, A>, ToolFault>
    ensures { (most : ℕ) (seen : List ℕ)
        → IsPending most seen words.items (take pending.now.len pending.now.text) pending.now.at
        pending.now.left pending.now.is_long
        → Gives (wholes.Unpacked most) seen result }
{
    let at = pending.at;
    if pending.is_long {
        return Err(ToolFault::Refused(Refusal::Packed(UnpackFault::TooLong { at })));
    }
    if pending.len > 0 {
        return Err(ToolFault::Refused(Refusal::Packed(UnpackFault::Cut { at })));
    }
    Ok(words)
}

/// Reads a packed input to its end, and returns the words that the input unpacks to. More than `most` words are
/// refused, and more than 2^32 bytes of input give `InputTooLong`.
///
/// Only the words, an unfinished group and one chunk are held. After a group with too many words, further input is
/// read and dropped.
pub fn read_words<R: Read, A: Allocator>(
    alloc: A,
    reader: &mut Watched<R>,
    most: u32,
) -> Result<Vec<u8, A>, ToolFault>
    requires { has_failed reader.old ≡ false }
    ensures { TakesAll (Gives (wholes.Unpacked most)) (R.remaining (inner_of reader.old))
        (R.remaining (inner_of reader.new)) (has_failed reader.new) result }
{
    let mut words = Vec::new(alloc);
    let mut pending = Pending {
        text: [0; ROOM],
        len: 0,
        at: 0,
        left: most,
        is_long: false,
    };
    let mut piece = [0; CHUNK as usize];
    let mut taken = 0;
    'pieces: while taken <= MOST_INPUT {
        let room = (MOST_INPUT + 1 - taken).min(CHUNK as usize);
        match reader.read(&mut piece[..room]) {
            Err(_) => return Err(ToolFault::Io),
            Ok(0) => return end_pending(&pending, words),
            Ok(count) => {
                take_chunk(&mut pending, &piece[..count], &mut words)?;
                taken += count;
            }
        }
    }
    Err(ToolFault::InputTooLong)
}
