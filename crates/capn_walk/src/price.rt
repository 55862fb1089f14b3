//! The price of a visit.

ghost use Rattle.std.specs.Prelude.{◌≡◌, ◌+◌};
ghost use Rattle.capn_walk.specs.Visits.{price};

use capn_target::{Shape, content_words};
use capn_words::Width;

/// Returns the price, in words, of an object of `shape` to which `pads` words of landing pads lead. The price is the
/// sum of `base`, the number of words of the object, `pads`, and 1 for each element of size 0. The words of a composite
/// list are the tag word and all words that the pointer to the list counts.
#[inline(always)]
pub fn price_of(shape: Shape, pads: u8, base: u32) -> u64
    ensures { result ≡ price base shape + pads }
{
    let size = match shape {
        Shape::Node { words, slots } => words as u64 + slots as u64,
        Shape::Many { width, count } => {
            let without_size = if let Width::W0 = width { count } else { 0 };
            content_words(width, count) + without_size as u64
        }
        Shape::Rows {
            count,
            words,
            slots,
            span,
        } => {
            let without_size = words == 0 && slots == 0;
            let rows = if without_size { count } else { 0 };
            1 + span as u64 + rows as u64
        }
    };
    base as u64 + size + pads as u64
}
