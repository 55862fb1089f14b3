//! The kinds of values that views and indexes show.

ghost use Rattle.std.specs.Prelude.{◌≡◌};
ghost use Rattle.capn_walk.specs.View as seen;

use capn_target::{Shape, Target};
use capn_words::Width;

/// The kinds of value that a pointer can denote.
#[derive(Clone, Copy, Debug, PartialEq, Eq)]
pub enum Kind {
    /// Null.
    Nil,
    /// A struct.
    Node,
    /// A list of elements of size 0.
    Voids,
    /// A list of bits.
    Bits,
    /// A list of elements of one byte.
    Bytes,
    /// A list of elements of two bytes.
    Pairs,
    /// A list of elements of four bytes.
    Quads,
    /// A list of elements of eight bytes.
    Octs,
    /// A list of pointers.
    Links,
    /// A list of structs.
    Rows,
    /// A capability.
    Cap,
}

/// Returns the kind of the value that `target` denotes.
#[inline(always)]
pub fn kind_of(target: Target) -> Kind
    ensures { result ≡ seen.kind_of target }
{
    match target {
        Target::Nil => Kind::Nil,
        Target::Cap(_) => Kind::Cap,
        Target::Content {
            segment: _,
            start: _,
            shape,
            pads: _,
        } => match shape {
            Shape::Node { .. } => Kind::Node,
            Shape::Rows { .. } => Kind::Rows,
            Shape::Many { width, count: _ } => kind_of_list(width),
        },
    }
}

/// Returns the kind of a list of elements of `width`.
#[inline(always)]
pub fn kind_of_list(width: Width) -> Kind
    ensures { result ≡ seen.kind_of_list width }
{
    match width {
        Width::W0 => Kind::Voids,
        Width::W1 => Kind::Bits,
        Width::W8 => Kind::Bytes,
        Width::W16 => Kind::Pairs,
        Width::W32 => Kind::Quads,
        Width::W64 => Kind::Octs,
        Width::Link => Kind::Links,
        Width::Rows => Kind::Rows,
    }
}
