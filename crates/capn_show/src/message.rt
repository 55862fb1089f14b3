//! The text of a complete message in lines.

ghost use Rattle.std.specs.Prelude.{OnOk, IfErr};
ghost use Rattle.capn_value.specs.Text.{show_text};
ghost use Rattle.capn_show.specs.Outgoing.{outgoing};
ghost use Rattle.capn_show.specs.Written.{IsWritten, IsUnwritten};

use crate::emitter::Lines;
use crate::fault::{ShowFault, fault_of};
use crate::slots::show_slot;
use capn_walk::laws::values;
use capn_walk::{Limits, survey};
use capn_words::{Place, Space, Watched};
use std::alloc::Allocator;
use std::io::Write;

/// Appends the text of the value that the message `space` denotes within `limits` to `text`.
///
/// The message is surveyed first, and nothing is added for a message that is refused. The caller keeps `text` between
/// calls. Whenever `text` has 65,536 bytes or more, it is written to `writer` and emptied. After the last call, the
/// caller writes the bytes that are still in `text`. A call takes memory only for `text`.
pub fn show_message<S: Space, W: Write, A: Allocator, B: Allocator + Copy>(
    alloc: B,
    text: &mut Vec<u8, A>,
    writer: &mut Watched<W>,
    space: &S,
    limits: Limits,
) -> Result<(), ShowFault>
    // If `result` is `Ok`, the message is accepted, and the text of its value was added.
    ensures shown { OnOk result (IsWritten (S.message space.now) limits show_text
        (outgoing W.contents writer.old text.old.items) (outgoing W.contents writer.new text.new.items)) }
    // If `result` is `Stopped`, the message is refused, its field is the stop of the walk, and nothing was added. If
    // `result` is `Io` or `Memory`, the message is accepted, and its text breaks off: the writer failed, or an
    // allocation for `text` was refused.
    ensures refused { IfErr result (λ fault. IsUnwritten (S.message space.now) limits show_text fault
        (outgoing W.contents writer.old text.old.items) (outgoing W.contents writer.new text.new.items)) }
{
    values();
    let _bounds = space.segments();
    survey(alloc, space, limits)?;
    let depth = limits.depth();
    match show_slot(
        text,
        writer,
        &mut Lines::<false>,
        space,
        0,
        Place::ROOT,
        0,
        depth,
    ) {
        Ok(()) => Ok(()),
        Err(broken) => Err(fault_of(broken)),
    }
}
