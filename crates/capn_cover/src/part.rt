//! The parts of a message that cover its words, and their comparison. A part is the message itself, a landing pad or an
//! object.

ghost use Rattle.std.specs.Prelude.{◌≡◌};
ghost use Rattle.capn_words.specs.Message.{IsMessage, IsPlace};
ghost use Rattle.capn_words.specs.Pointers.{width_code};
ghost use Rattle.capn_target.specs.Target.{pointer_in, target};
ghost use Rattle.capn_cover.specs.Parts as spec;
ghost use Rattle.capn_cover.specs.Numbers.{CountsBefore};

use crate::covered::Role;
use crate::starts::place_of;
use capn_walk::{Shape, Target, resolve};
use capn_words::{Place, Pointer, Space, Width, split};

/// A part that covers words.
#[derive(Clone, Copy, Debug, PartialEq, Eq)]
pub enum Part {
    /// The message itself, which covers the root's slot.
    Whole,
    /// A landing pad.
    Pad {
        /// The segment of the pad.
        segment: u32,
        /// The index of the pad's first word in its segment.
        word: u32,
        /// The number of words of the pad, 1 or 2.
        size: u8,
    },
    /// An object.
    Object {
        /// The segment of the object.
        segment: u32,
        /// The index of the object's first word in its segment.
        start: u32,
        /// The kind of the object, its sizes and its counts.
        shape: Shape,
    },
}

/// Returns the landing pad that the pointer at `at` names.
fn pad_at<S: Space>(space: &S, at: Place) -> Part
    requires { IsPlace (S.message space.now) at }
    ensures { result ≡ spec.pad_of (pointer_in (S.message space.now) at.segment at.word) }
{
    match split(space.word(at)) {
        Pointer::Far {
            double,
            word,
            segment,
        } => Part::Pad {
            segment,
            word,
            size: if double { 2 } else { 1 },
        },
        _ => Part::Whole,
    }
}

/// Returns the object to which the slot at `at` leads.
fn object_at<S: Space>(space: &S, at: Place) -> Part
    requires { IsPlace (S.message space.now) at }
    ensures { result ≡ spec.object_of (target (S.message space.now) at) }
{
    match resolve(space, at) {
        Ok(target) => match target {
            Target::Content {
                segment,
                start,
                shape,
                pads: _,
            } => Part::Object {
                segment,
                start,
                shape,
            },
            Target::Nil => Part::Whole,
            Target::Cap(_) => Part::Whole,
        },
        Err(_) => Part::Whole,
    }
}

/// Returns what covers a word in the given `role`, by the visit of the slot with the number `slot`. Element `s` of
/// `before` is the number of words before segment `s`.
pub fn part_of<S: Space>(space: &S, before: &[u32], slot: u32, role: Role) -> Part
    requires message { IsMessage (S.message space.now) }
    requires counts { CountsBefore (S.message space.now) before.now }
    ensures { result ≡ spec.part (S.message space.now) slot role }
{
    match place_of(space, before, slot) {
        Some(at) => match role {
            Role::Root => Part::Whole,
            Role::Pad => pad_at(space, at),
            Role::Tag => object_at(space, at),
            Role::Data => object_at(space, at),
            Role::Slot => object_at(space, at),
            Role::Numbers => object_at(space, at),
            Role::Slack => object_at(space, at),
            Role::Unreached => object_at(space, at),
        },
        None => Part::Whole,
    }
}

/// Returns the number that stands for a width in a pointer.
fn code_of(width: Width) -> u8
    ensures { result ≡ width_code width }
{
    match width {
        Width::W0 => 0,
        Width::W1 => 1,
        Width::W8 => 2,
        Width::W16 => 3,
        Width::W32 => 4,
        Width::W64 => 5,
        Width::Link => 6,
        Width::Rows => 7,
    }
}

/// Tests whether the elements of two lists have the same size.
fn same_width(one: Width, other: Width) -> bool
    ensures { result ≡ spec.same_width one other }
{
    code_of(one) == code_of(other)
}

/// Tests whether two objects have the same kind, sizes and counts.
fn same_shape(one: Shape, other: Shape) -> bool
    ensures { result ≡ spec.same_shape one other }
{
    match one {
        Shape::Node { words, slots } => match other {
            Shape::Node { words: w, slots: s } => words == w && slots == s,
            Shape::Many { .. } => false,
            Shape::Rows { .. } => false,
        },
        Shape::Many { width, count } => match other {
            Shape::Many { width: v, count: c } => same_width(width, v) && count == c,
            Shape::Node { .. } => false,
            Shape::Rows { .. } => false,
        },
        Shape::Rows {
            count,
            words,
            slots,
            span,
        } => match other {
            Shape::Rows {
                count: c,
                words: w,
                slots: s,
                span: n,
            } => (count == c && words == w) && (slots == s && span == n),
            Shape::Node { .. } => false,
            Shape::Many { .. } => false,
        },
    }
}

/// Tests whether both are the message itself, one landing pad or one object.
fn same_part(one: Part, other: Part) -> bool
    ensures { result ≡ spec.same_part one other }
{
    match one {
        Part::Whole => match other {
            Part::Whole => true,
            Part::Pad { .. } => false,
            Part::Object { .. } => false,
        },
        Part::Pad {
            segment,
            word,
            size,
        } => match other {
            Part::Pad {
                segment: s,
                word: w,
                size: n,
            } => (segment == s && word == w) && size == n,
            Part::Whole => false,
            Part::Object { .. } => false,
        },
        Part::Object {
            segment,
            start,
            shape,
        } => match other {
            Part::Object {
                segment: s,
                start: w,
                shape: x,
            } => (segment == s && start == w) && same_shape(shape, x),
            Part::Whole => false,
            Part::Pad { .. } => false,
        },
    }
}

/// Tests whether the visits of two slots cover a word in the given roles by two parts that differ.
#[inline(never)]
pub fn differs<S: Space>(
    space: &S,
    before: &[u32],
    slot: u32,
    role: Role,
    other: u32,
    another: Role,
) -> bool
    requires message { IsMessage (S.message space.now) }
    requires counts { CountsBefore (S.message space.now) before.now }
    ensures { result ≡ spec.differs (S.message space.now) slot role other another }
{
    if slot == other && role == another {
        return false;
    }
    let first = part_of(space, before, slot, role);
    let then = part_of(space, before, other, another);
    !same_part(first, then)
}
