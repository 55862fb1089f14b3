//! The visits of a cover, which go over the slots of a message in the order of the walk. Each visit covers the words of
//! its landing pad and of its content, and then the slots below are visited.

ghost use Rattle.std.specs.Prelude.{◌≡◌, ◌≤◌, ◌<◌, ◌+◌, ◌*◌, length};
ghost use Rattle.capn_words.specs.Message.{IsMessage, IsPlace, total, word_at};
ghost use Rattle.capn_target.specs.Target as spec;
ghost use Rattle.capn_target.specs.Shapes.{IsContent, extent, RowsFit};
ghost use Rattle.capn_walk.specs.Visits.{places, row_places, slots};
ghost use Rattle.capn_cover.specs.Numbers.{CountsBefore};
ghost use Rattle.capn_cover.specs.inner.Known.{AreKnownTogether};
ghost use Rattle.capn_cover.specs.inner.Laid.{laid, HasRoom, cover_below, cover_of};

use crate::covered::Covered;
use crate::near_target::near_target;
use crate::one_visit::cover_object;
use capn_walk::{Fault, Shape, Target, resolve};
use capn_words::{Place, Pointer, Space, Width, split};

/// Makes the visit of the slot at `at` and of all slots below it, at most `depth` objects deep: covers their words once
/// more each. Element `s` of `before` is the number of words before segment `s`.
#[cycle(cover_slots)]
#[inline(never)]
pub fn cover_slot<S: Space>(space: &S, before: &[u32], cells: &mut [Covered], at: Place, depth: u32)
    requires message { IsMessage (S.message space.now) }
    requires counts { CountsBefore (S.message space.now) before.now }
    requires each { length cells.old ≡ total (S.message space.now) }
    requires place { IsPlace (S.message space.now) at }
    requires known { AreKnownTogether (S.message space.now) cells.old }
    requires room { HasRoom (length (cover_below (S.message space.now) depth at)) cells.old }
    ensures cells { cells.new ≡ laid (S.message space.now) (cover_below (S.message space.now) depth at) cells.old }
    ensures known { AreKnownTogether (S.message space.now) cells.new }
{
    cover_found(space, before, cells, at, resolve(space, at), depth);
}

/// Makes the visit of the slot at `at`, which holds `word`, and of all slots below it, at most `depth` objects deep.
/// For speed, a pointer that names a near struct and one that names a near list have a match arm each.
#[cycle(cover_slots)]
#[inline(always)]
fn cover_pointer<S: Space>(
    space: &S,
    before: &[u32],
    cells: &mut [Covered],
    at: Place,
    word: u64,
    depth: u32,
)
    requires message { IsMessage (S.message space.now) }
    requires counts { CountsBefore (S.message space.now) before.now }
    requires each { length cells.old ≡ total (S.message space.now) }
    requires place { IsPlace (S.message space.now) at }
    requires word { word ≡ word_at (S.message space.now) at }
    requires known { AreKnownTogether (S.message space.now) cells.old }
    requires room { HasRoom (length (cover_below (S.message space.now) depth at)) cells.old }
    ensures cells { cells.new ≡ laid (S.message space.now) (cover_below (S.message space.now) depth at) cells.old }
    ensures known { AreKnownTogether (S.message space.now) cells.new }
{
    let pointer = split(word);
    match pointer {
        Pointer::Node { .. } => {
            let found = near_target(space, at, pointer);
            cover_found(space, before, cells, at, found, depth)
        }
        Pointer::Many { .. } => {
            let found = near_target(space, at, pointer);
            cover_found(space, before, cells, at, found, depth)
        }
        _ => cover_slot(space, before, cells, at, depth),
    }
}

/// Makes the visit of the slot at `at` and of all slots below it, at most `depth` objects deep. `found` is the target
/// of the slot, or the slot's fault. A slot with a fault covers nothing, but a message that is accepted has none.
#[cycle(cover_slots)]
#[inline(always)]
fn cover_found<S: Space>(
    space: &S,
    before: &[u32],
    cells: &mut [Covered],
    at: Place,
    found: Result<Target, Fault>,
    depth: u32,
)
    requires message { IsMessage (S.message space.now) }
    requires counts { CountsBefore (S.message space.now) before.now }
    requires each { length cells.old ≡ total (S.message space.now) }
    requires place { IsPlace (S.message space.now) at }
    requires found { found ≡ spec.target (S.message space.now) at }
    requires known { AreKnownTogether (S.message space.now) cells.old }
    requires room { HasRoom (length (cover_below (S.message space.now) depth at)) cells.old }
    ensures cells { cells.new ≡ laid (S.message space.now) (cover_below (S.message space.now) depth at) cells.old }
    ensures known { AreKnownTogether (S.message space.now) cells.new }
{
    if depth == 0 {
        return;
    }
    match found {
        Ok(target) => match target {
            Target::Content {
                segment,
                start,
                shape,
                pads,
            } => {
                cover_object(space, before, cells, at, segment, start, shape, pads);
                cover_object_slots(space, before, cells, segment, start, shape, depth - 1);
            }
            Target::Nil => {}
            Target::Cap(_) => {}
        },
        Err(_) => {}
    }
}

/// Makes the visits of the slots of the object of this `shape` whose content starts at word `start` of `segment`, and
/// of all slots below them.
#[cycle(cover_slots)]
#[inline(always)]
fn cover_object_slots<S: Space>(
    space: &S,
    before: &[u32],
    cells: &mut [Covered],
    segment: u32,
    start: u32,
    shape: Shape,
    depth: u32,
)
    requires message { IsMessage (S.message space.now) }
    requires counts { CountsBefore (S.message space.now) before.now }
    requires each { length cells.old ≡ total (S.message space.now) }
    requires content { IsContent (S.message space.now) (record { segment = segment; word = start }) (extent shape) }
    requires fits { RowsFit shape }
    requires known { AreKnownTogether (S.message space.now) cells.old }
    requires room { HasRoom (length (cover_of (S.message space.now) depth (slots segment start shape))) cells.old }
    ensures cells { cells.new ≡ laid (S.message space.now)
        (cover_of (S.message space.now) depth (slots segment start shape)) cells.old }
    ensures known { AreKnownTogether (S.message space.now) cells.new }
{
    match shape {
        Shape::Node { words, slots } => {
            if slots == 0 {
                return;
            }
            let first = Place {
                segment,
                word: start + words as u32,
            };
            cover_slots_apart(space, before, cells, first, slots as u32, depth);
        }
        Shape::Many { width, count } => match width {
            Width::Link => {
                let first = Place {
                    segment,
                    word: start,
                };
                cover_slots_apart(space, before, cells, first, count, depth);
            }
            _ => {}
        },
        Shape::Rows {
            count,
            words,
            slots,
            span: _,
        } => {
            let first = Place {
                segment,
                word: start + 1,
            };
            cover_row_slots(space, before, cells, first, count, words, slots, depth);
        }
    }
}

/// Makes the visits of `count` slots from `first` on, and of all slots below them. A visit of a null slot covers
/// nothing.
#[cycle(cover_slots)]
#[inline(always)]
fn cover_slots<S: Space>(
    space: &S,
    before: &[u32],
    cells: &mut [Covered],
    first: Place,
    count: u32,
    depth: u32,
)
    requires message { IsMessage (S.message space.now) }
    requires counts { CountsBefore (S.message space.now) before.now }
    requires each { length cells.old ≡ total (S.message space.now) }
    requires content { IsContent (S.message space.now) first count }
    requires known { AreKnownTogether (S.message space.now) cells.old }
    requires room { HasRoom (length
        (cover_of (S.message space.now) depth (places first.segment first.word count))) cells.old }
    ensures cells { cells.new ≡ laid (S.message space.now)
        (cover_of (S.message space.now) depth (places first.segment first.word count)) cells.old }
    ensures known { AreKnownTogether (S.message space.now) cells.new }
{
    for i in 0..count {
        let at = Place {
            segment: first.segment,
            word: first.word + i,
        };
        let word = space.word(at);
        if word == 0 {
            continue;
        }
        cover_pointer(space, before, cells, at, word, depth);
    }
}

/// Makes the visits of `count` slots from `first` on, as [`cover_slots`] does. This function is not inlined, and a
/// visit of an object without slots doesn't call it.
#[cycle(cover_slots)]
#[inline(never)]
fn cover_slots_apart<S: Space>(
    space: &S,
    before: &[u32],
    cells: &mut [Covered],
    first: Place,
    count: u32,
    depth: u32,
)
    requires message { IsMessage (S.message space.now) }
    requires counts { CountsBefore (S.message space.now) before.now }
    requires each { length cells.old ≡ total (S.message space.now) }
    requires content { IsContent (S.message space.now) first count }
    requires known { AreKnownTogether (S.message space.now) cells.old }
    requires room { HasRoom (length
        (cover_of (S.message space.now) depth (places first.segment first.word count))) cells.old }
    ensures cells { cells.new ≡ laid (S.message space.now)
        (cover_of (S.message space.now) depth (places first.segment first.word count)) cells.old }
    ensures known { AreKnownTogether (S.message space.now) cells.new }
{
    cover_slots(space, before, cells, first, count, depth);
}

/// Makes the visits of the slots of `count` rows, and of all slots below them. The rows begin at `first`, and each has
/// `words` data words and then `slots` slots.
#[cycle(cover_slots)]
#[inline(never)]
fn cover_row_slots<S: Space>(
    space: &S,
    before: &[u32],
    cells: &mut [Covered],
    first: Place,
    count: u32,
    words: u16,
    slots: u16,
    depth: u32,
)
    requires message { IsMessage (S.message space.now) }
    requires counts { CountsBefore (S.message space.now) before.now }
    requires each { length cells.old ≡ total (S.message space.now) }
    requires content { IsContent (S.message space.now) first (count * (words + slots)) }
    requires known { AreKnownTogether (S.message space.now) cells.old }
    requires room { HasRoom (length
        (cover_of (S.message space.now) depth (row_places first.segment first.word words slots count))) cells.old }
    ensures cells { cells.new ≡ laid (S.message space.now)
        (cover_of (S.message space.now) depth (row_places first.segment first.word words slots count)) cells.old }
    ensures known { AreKnownTogether (S.message space.now) cells.new }
{
    let mut next = first.word;
    for row in 0..count {
        let at = Place {
            segment: first.segment,
            word: next + words as u32,
        };
        cover_slots(space, before, cells, at, slots as u32, depth);
        next += words as u32 + slots as u32;
    }
}
