//! The sizes of a target: the numbers of elements, data words and slots.

ghost use Rattle.std.specs.Prelude.{◌≡◌};
ghost use Rattle.capn_walk.specs.View as seen;
ghost use Rattle.capn_walk.specs.declared.kind.Kind.TheVariants as kinds;

use capn_target::{Shape, Target};

/// Returns the number of elements if `target` is a list, else 0.
#[inline(always)]
pub fn len_of(target: Target) -> u32
    ensures value { result ≡ seen.len_of target }
    ensures links { seen.kind_of target ≡ kinds.Links → result ≡ seen.links_in target }
{
    match target {
        Target::Content {
            segment: _,
            start: _,
            shape,
            pads: _,
        } => match shape {
            Shape::Node { .. } => 0,
            Shape::Rows { count, .. } => count,
            Shape::Many { width: _, count } => count,
        },
        _ => 0,
    }
}

/// Returns the number of data words if `target` is a struct, else 0.
#[inline(always)]
pub fn words_in(target: Target) -> u16
    ensures { result ≡ seen.words_in target }
{
    match target {
        Target::Content {
            segment: _,
            start: _,
            shape: Shape::Node { words, slots: _ },
            pads: _,
        } => words,
        _ => 0,
    }
}

/// Returns the number of slots if `target` is a struct, else 0.
#[inline(always)]
pub fn slots_in(target: Target) -> u16
    ensures { result ≡ seen.slots_in target }
{
    match target {
        Target::Content {
            segment: _,
            start: _,
            shape: Shape::Node { words: _, slots },
            pads: _,
        } => slots,
        _ => 0,
    }
}
