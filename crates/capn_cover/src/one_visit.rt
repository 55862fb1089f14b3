//! One visit of a slot, which covers the words of its landing pad and of its content.

ghost use Rattle.std.specs.Prelude.{◌≡◌, ◌≤◌, ◌<◌, ◌+◌, ◌++◌, length, Ok};
ghost use Rattle.capn_words.specs.Message.{IsMessage, IsPlace, total};
ghost use Rattle.capn_target.specs.Target as spec;
ghost use Rattle.capn_target.specs.declared.target.Target.TheVariants as targets;
ghost use Rattle.capn_target.specs.Shapes.{extent, RowsFit};
ghost use Rattle.capn_cover.specs.Numbers.{CountsBefore};
ghost use Rattle.capn_cover.specs.Covers.{covers, content_run, pad_run};
ghost use Rattle.capn_cover.specs.inner.Known.{AreKnownTogether};
ghost use Rattle.capn_cover.specs.inner.Laid.{laid, HasRoom, Leads};

use crate::covered::{Covered, Role};
use crate::object_words::cover_content;
use crate::repeated::{is_repeated, repeat_object};
use crate::starts::number_of;
use crate::word_runs::cover_run;
use capn_walk::Shape;
use capn_words::{Place, Pointer, Space, split};

/// Covers the `pads` words of the landing pad of the slot at `at`, each once more. Element `s` of `before` is the
/// number of words before segment `s`. The slot has the number `slot`, and leads to content.
#[inline(always)]
fn cover_pads<S: Space>(
    space: &S,
    before: &[u32],
    cells: &mut [Covered],
    at: Place,
    pads: u8,
    slot: u32,
)
    requires message { IsMessage (S.message space.now) }
    requires counts { CountsBefore (S.message space.now) before.now }
    requires each { length cells.old ≡ total (S.message space.now) }
    requires place { IsPlace (S.message space.now) at }
    requires by { slot < length cells.old }
    requires leads { Leads (S.message space.now) at pads }
    requires room { HasRoom (length (pad_run (S.message space.now) slot pads
        (spec.pointer_in (S.message space.now) at.segment at.word))) cells.old }
    ensures { cells.new ≡ laid (S.message space.now)
        (pad_run (S.message space.now) slot pads (spec.pointer_in (S.message space.now) at.segment at.word)) cells.old }
{
    let pointer = split(space.word(at));
    if let Pointer::Far {
        double: _,
        word,
        segment,
    } = pointer
    {
        let first = number_of(space, before, segment, word);
        cover_run(space, before, cells, first, pads as u32, slot, Role::Pad);
    }
}

/// Covers the words of the first visit of the slot at `at`, each once more: first the landing pad of `pads` words, then
/// the object of `shape` whose first word has the number `first`. Element `s` of `before` is the number of words before
/// segment `s`. The slot has the number `slot`.
///
/// A slot has one first visit, and may have millions of others. This function is not inlined, so that those keep their
/// values in registers.
#[inline(never)]
fn cover_first<S: Space>(
    space: &S,
    before: &[u32],
    cells: &mut [Covered],
    at: Place,
    pads: u8,
    slot: u32,
    first: u32,
    shape: Shape,
)
    requires message { IsMessage (S.message space.now) }
    requires counts { CountsBefore (S.message space.now) before.now }
    requires each { length cells.old ≡ total (S.message space.now) }
    requires place { IsPlace (S.message space.now) at }
    requires by { slot < length cells.old }
    requires leads { Leads (S.message space.now) at pads }
    requires fits { RowsFit shape }
    requires within { first + extent shape ≤ length cells.old }
    requires room { HasRoom (length (pad_run (S.message space.now) slot pads
        (spec.pointer_in (S.message space.now) at.segment at.word) ++ content_run slot first shape)) cells.old }
    ensures { cells.new ≡ laid (S.message space.now) (pad_run (S.message space.now) slot pads
        (spec.pointer_in (S.message space.now) at.segment at.word) ++ content_run slot first shape) cells.old }
{
    cover_pads(space, before, cells, at, pads, slot);
    cover_content(space, before, cells, first, shape, slot);
}

/// Covers the words of the visit of the slot at `at`, each once more: first the landing pad of `pads` words, then the
/// content of this `shape` at word `start` of `segment`, to which the slot leads. Element `s` of `before` is the number
/// of words before segment `s`.
#[inline(always)]
pub fn cover_object<S: Space>(
    space: &S,
    before: &[u32],
    cells: &mut [Covered],
    at: Place,
    segment: u32,
    start: u32,
    shape: Shape,
    pads: u8,
)
    requires message { IsMessage (S.message space.now) }
    requires counts { CountsBefore (S.message space.now) before.now }
    requires each { length cells.old ≡ total (S.message space.now) }
    requires place { IsPlace (S.message space.now) at }
    requires leads { spec.target (S.message space.now) at ≡ Ok (targets.Content segment start shape pads) }
    requires known { AreKnownTogether (S.message space.now) cells.old }
    requires room { HasRoom (length
        (covers (S.message space.now) at (Ok (targets.Content segment start shape pads)))) cells.old }
    ensures cells { cells.new ≡ laid (S.message space.now)
        (covers (S.message space.now) at (Ok (targets.Content segment start shape pads))) cells.old }
    ensures known { AreKnownTogether (S.message space.now) cells.new }
{
    let slot = number_of(space, before, at.segment, at.word);
    let first = number_of(space, before, segment, start);
    if is_repeated(cells, slot) {
        repeat_object(space, before, cells, at, pads, slot, first, shape);
        return;
    }
    // A copy of its own, so that `shape` is not written to memory before the test.
    let object = shape;
    cover_first(space, before, cells, at, pads, slot, first, object);
}
