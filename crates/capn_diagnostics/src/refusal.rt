//! The explanation of a message that was refused in its walk.

ghost use Rattle.std.specs.Prelude.{◌≡◌, ℕ, ◌<◌, length, IfOk};
ghost use Rattle.capn_words.specs.Message.{segment_at};
ghost use Rattle.capn_walk.specs.Accepted.{IsWalkRefused};
ghost use Rattle.capn_walk.specs.Limits.{Bounds};
ghost use Rattle.capn_path.specs.Paths.{IsRefusedAt, IsPathTo};
ghost use Rattle.capn_diagnostics.specs.MessageTexts.{refused_lines};
ghost use Rattle.capn_diagnostics.specs.Refusal as spec;
ghost use Rattle.capn_diagnostics.specs.Refusal.{IsRefusalTold, AreLinesIf, IsHolderText};

use crate::examination::examine;
use crate::examined_text::SlotLines;
use crate::holder_text::HolderText;
use crate::message_text::{MessageHead, RefusedLines};
use crate::segments_text::SegmentsText;
use capn_path::{Refused, holder_of, path_of_stop};
use capn_walk::{Limits, Stopped};
use capn_words::{Memory, Place, Space};
use std::alloc::{Allocator, Global};

/// The explanation of a message that was refused in its walk.
#[derive(Debug, Drop)]
pub struct Explanation<A: Allocator = Global> {
    /// The fault at which the walk stopped, and its place.
    pub stopped: Stopped,
    /// The lines of the explanation, as [`RefusedLines`] displays them.
    pub text: Vec<u8, A>,
}

/// Explains why the walk over the message `space` was refused with `stopped`, and returns the lines.
///
/// `stopped` has to be the error that [`survey`](capn_walk::survey) returns for this message within `limits`. `index`
/// is the number of messages before this one. `offset` is the byte of the stream at which the message's table begins.
/// `table` is the number of words of that table, and 0 for a bare segment. The call repeats the visits up to the
/// refused one, but makes no survey. The call takes memory from `alloc` for the text and for the path. The path has at
/// most two numbers for each level of the depth limit. (Our own.)
pub fn explain_stop<S: Space, A: Allocator + Copy>(
    alloc: A,
    space: &S,
    index: u64,
    offset: u64,
    table: u32,
    limits: Limits,
    stopped: Stopped,
) -> Result<Explanation<A>, Memory>
    requires refused { IsWalkRefused (S.message space.now) limits
        stopped.fault stopped.place stopped.paid stopped.visits }
    ensures told { IfOk result (λ told.
        IsRefusalTold (S.message space.now) limits index offset table stopped told.text.items) }
    ensures stopped { IfOk result (λ told. told.stopped ≡ stopped) }
{
    let path = path_of_stop(alloc, space, limits, stopped)?;
    let refused = Refused { stopped, path };
    tell(alloc, space, index, offset, table, limits, &refused)
}

/// Explains a message whose walk was `refused`. `refused` has the path to the slot at which the walk stopped.
fn tell<S: Space, A: Allocator + Copy>(
    alloc: A,
    space: &S,
    index: u64,
    offset: u64,
    table: u32,
    limits: Limits,
    refused: &Refused<A>,
) -> Result<Explanation<A>, Memory>
    requires refused { IsRefusedAt (S.message space.now) limits refused.now.stopped refused.now.path.items }
    ensures told { IfOk result (λ told.
        IsRefusalTold (S.message space.now) limits index offset table told.stopped told.text.items) }
    ensures stopped { IfOk result (λ told. told.stopped ≡ refused.now.stopped) }
{
    let stopped = refused.stopped;
    let lines = RefusedLines {
        head: head_of(space, index, offset),
        stopped,
        slot: slot_lines(space, offset, table, limits, stopped, &refused.path),
    };
    let text = text_of(alloc, lines)?;
    Ok(Explanation { stopped, text })
}

/// Writes all `lines` to a vector in memory from `alloc`.
fn text_of<'w, A: Allocator>(alloc: A, lines: RefusedLines<'w>) -> Result<Vec<u8, A>, Memory>
    ensures { IfOk result (λ text. text.items ≡ refused_lines lines.entry.head lines.entry.stopped
        lines.entry.slot) }
{
    let text = format!(in alloc; "{lines}")?;
    Ok(text.into_bytes())
}

/// Returns the place and the size of the message `space`.
fn head_of<S: Space>(space: &S, index: u64, offset: u64) -> MessageHead
    ensures { result ≡ spec.head (S.message space.now) index offset }
{
    MessageHead {
        index,
        offset,
        segments: Some(SegmentsText::of(space)),
    }
}

/// Examines the slot at which the walk over the message `space` stopped. `path` leads to the slot. Returns `None` if
/// there is no root.
fn slot_lines<'w, S: Space>(
    space: &S,
    offset: u64,
    table: u32,
    limits: Limits,
    stopped: Stopped,
    path: &'w [u32],
) -> Option<SlotLines<'w>>
    requires refused { IsRefusedAt (S.message space.now) limits stopped path.now }
    ensures { AreLinesIf (S.message space.now) offset table limits path.now stopped result }
{
    if stopped.visits == 0 {
        return None;
    }
    Some(SlotLines {
        path,
        holder: text_of_holder(space, offset, table, path),
        examined: examine(space, offset, table, limits, stopped),
    })
}

/// Returns the text of the object that holds the slot to which `path` leads. Returns `None` for the slot of the root.
fn text_of_holder<S: Space>(space: &S, offset: u64, table: u32, path: &[u32]) -> Option<HolderText>
    requires root { 0 < length (segment_at (S.message space.now) 0) }
    ensures { (limits : Bounds) (number : ℕ) (to : Place) → IsPathTo (S.message space.now) limits number path.now to
        → IsHolderText (S.message space.now) offset table path.now to result }
{
    match holder_of(space, path) {
        Some(holder) => Some(HolderText::of(space, offset, table, holder)),
        None => None,
    }
}
