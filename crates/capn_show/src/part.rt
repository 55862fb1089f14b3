//! The text of the value at a path of numbers from the root.

ghost use Rattle.std.specs.Prelude.{◌≡◌, ℕ, ◌+◌, ◌*◌, ◌<◌, ◌^◌, IfErr, IfNone, IfSome, None, OnOk};
ghost use Rattle.capn_words.specs.Message.{IsMessage, IsPlace};
ghost use Rattle.capn_value.specs.Tree.{Tree};
ghost use Rattle.capn_target.specs.Shapes.{IsInMessage};
ghost use Rattle.capn_walk.specs.ShownValue.{Shows};
ghost use Rattle.capn_walk.specs.Accepted.{root};
ghost use Rattle.capn_show.specs.Outgoing.{Adds, BreaksOff, outgoing};
ghost use Rattle.capn_show.specs.Part as parts;
ghost use Rattle.capn_show.specs.ReadyPlaces.{IsReady, Holds, HasValue, LeadsTo, IsPartShown};
ghost use Rattle.capn_show.specs.Style.{styled};
ghost use Rattle.capn_show.specs.Written.{IsWritten, IsUnwritten};

use crate::descent::{named, step_down};
use crate::fault::{Broken, ShowFault, fault_of};
use crate::style::Style;
use crate::styled::{show_nothing, show_there};
use capn_walk::laws::values;
use capn_walk::{Limits, Target, survey};
use capn_words::{Place, Space, Watched};
use std::alloc::Allocator;
use std::io::Write;

/// Appends the text of the value at `path` to `text`, in this `style`. The numbers of `path` lead down from the root of
/// the message `space`.
///
/// If there is no value at `path`, the text is the line `none`, or an empty line in JSON.
///
/// A number leads from a struct to a slot, from a list of pointers to an element, and from a list of structs to a row.
/// A row is written as a struct. The complete message is surveyed within `limits` first. The caller keeps `text`
/// between calls, and `text` is written and emptied as [`show_message`](crate::show_message) says.
pub fn show_part<S: Space, W: Write, A: Allocator, B: Allocator + Copy>(
    alloc: B,
    text: &mut Vec<u8, A>,
    writer: &mut Watched<W>,
    space: &S,
    limits: Limits,
    style: Style,
    path: &[u64],
) -> Result<(), ShowFault>
    // If `result` is `Ok`, the message is accepted, and the text of the value at `path` was added.
    ensures shown { OnOk result (IsWritten (S.message space.now) limits (styled style path.now)
        (outgoing W.contents writer.old text.old.items) (outgoing W.contents writer.new text.new.items)) }
    // If `result` is `Stopped`, the message is refused, its field is the stop of the walk, and nothing was added. If
    // `result` is `Io` or `Memory`, the message is accepted, and the text breaks off: the writer failed, or an
    // allocation for `text` was refused.
    ensures refused { IfErr result (λ fault. IsUnwritten (S.message space.now) limits (styled style path.now) fault
        (outgoing W.contents writer.old text.old.items) (outgoing W.contents writer.new text.new.items)) }
{
    values();
    let _bounds = space.segments();
    survey(alloc, space, limits)?;
    match write_part(text, writer, space, style, path, limits.depth()) {
        Ok(()) => Ok(()),
        Err(broken) => Err(fault_of(broken)),
    }
}

/// Appends the text of the value at `path` to `text`, in this `style`. If there is no value at `path`, appends the line
/// `none`, or an empty line in JSON.
fn write_part<S: Space, W: Write, A: Allocator>(
    text: &mut Vec<u8, A>,
    writer: &mut Watched<W>,
    space: &S,
    style: Style,
    path: &[u64],
    depth: u32,
) -> Result<(), Broken>
    requires message { IsMessage (S.message space.now) }
    requires place { IsPlace (S.message space.now) root }
    requires ready { IsReady (S.message space.now) root depth }
    requires room { 2 * depth < 2 ^ 32 }
    ensures shown { OnOk result (IsPartShown (S.message space.now) style path.now (Adds
        (outgoing W.contents writer.old text.old.items) (outgoing W.contents writer.new text.new.items))) }
    ensures cut { IfErr result (λ e. IsPartShown (S.message space.now) style path.now (BreaksOff
        (outgoing W.contents writer.old text.old.items) (outgoing W.contents writer.new text.new.items) e)) }
{
    let found = named(space, Place::ROOT);
    match follow(space, found, path) {
        Some(part) => show_there(text, writer, space, style, part, depth),
        None => show_nothing(text, writer, style),
    }
}

/// Follows `path` from the target `found`. Returns the target at the end of `path`, or `None` if a step leads to no
/// value.
fn follow<S: Space>(space: &S, found: Target, path: &[u64]) -> Option<Target>
    requires message { IsMessage (S.message space.now) }
    requires inside { IsInMessage (S.message space.now) found }
    requires value { HasValue (S.message space.now) found }
    ensures inside { IfSome result (λ t. IsInMessage (S.message space.now) t) }
    ensures there { IfSome result (λ t. (v : Tree) → Shows (S.message space.now) found v
        → LeadsTo (S.message space.now) v (parts.at_path v path.now) t) }
    ensures none { IfNone result ((v : Tree) → Shows (S.message space.now) found v → parts.at_path v path.now ≡ None) }
{
    let mut here = found;
    for i in 0..path.len() {
        match step_down(space, here, path[i]) {
            Some(next) => here = next.found,
            None => return None,
        }
    }
    Some(here)
}
