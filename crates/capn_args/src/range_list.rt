//! The text of `--only`: message numbers and ranges.

ghost use Rattle.std.specs.Prelude.{◌≡◌, ◌<◌, ◌≤◌, List, Some, IfOk, IfSome, is_some};
ghost use Rattle.capn_serve.specs.Pick.{AreAscending};
ghost use Rattle.capn_serve.specs.declared.pick.Range.{Range};
ghost use Rattle.capn_args.specs.RangeList as spec;

use crate::path::with_digit;
use capn_serve::Range;
use std::alloc::{AllocError, Allocator};

/// The part of a range that has been read.
#[derive(Clone, Copy, Debug, PartialEq, Eq)]
pub struct Begun {
    /// The last number of the previous range, or 0 if this is the first range.
    pub last: u64,
    /// The first number of the range, if a hyphen has been read after it.
    pub first: Option<u64>,
    /// The number whose digits are being read.
    pub digits: Option<u64>,
}

/// Returns the state before any character of a range is read. `last` is the last number of the previous range, or 0.
fn fresh(last: u64) -> Begun
    ensures { result ≡ spec.fresh last }
{
    Begun {
        last,
        first: None,
        digits: None,
    }
}

/// Returns the range in `begun`, if it is complete, begins above `begun.last`, and does not end before it begins.
fn range_of(begun: Begun) -> Option<Range>
    ensures is { result ≡ spec.range_of begun }
    ensures above { IfSome result (λ range. (begun.last < range.from) × (range.from ≤ range.to)) }
{
    let to = begun.digits?;
    let from = begun.first.unwrap_or(to);
    if begun.last < from && from <= to {
        return Some(Range { from, to });
    }
    None
}

/// Returns the state after `begun` and a hyphen, if the hyphen follows the first number of the range.
fn with_hyphen(begun: Begun) -> Option<Begun>
    ensures is { result ≡ spec.with_hyphen begun.last begun.first begun.digits }
    ensures same { IfSome result (λ next. next.last ≡ begun.last) }
{
    match begun.first {
        Some(_) => None,
        None => {
            let first = begun.digits?;
            Some(Begun {
                last: begun.last,
                first: Some(first),
                digits: None,
            })
        }
    }
}

/// Returns the state after `begun` and the character `c`, if `c` may follow. A hyphen may follow only the first number
/// of the range. A digit must not be a leading zero, and must keep the number below 2^64.
fn longer(begun: Begun, c: u8) -> Option<Begun>
    ensures is { result ≡ spec.longer begun c }
    ensures same { IfSome result (λ next. next.last ≡ begun.last) }
{
    if c == b'-' {
        return with_hyphen(begun);
    }
    let number = with_digit(begun.digits, c)?;
    if number == 0 {
        return None;
    }
    Some(Begun {
        last: begun.last,
        first: begun.first,
        digits: Some(number),
    })
}

/// Tests whether `text` is a list, which is numbers and ranges from 1 to 2^64 - 1, in ascending order, separated by
/// single commas.
pub(crate) fn is_range_list(text: &str) -> bool
    ensures { result ≡ is_some (spec.ranges_in text.now) }
{
    let mut begun = fresh(0);
    let mut rest = text.as_bytes();
    while let [c, after @ ..] = rest {
        if *c == b',' {
            match range_of(begun) {
                Some(range) => begun = fresh(range.to),
                None => return false,
            }
        } else {
            match longer(begun, *c) {
                Some(next) => begun = next,
                None => return false,
            }
        }
        rest = after;
    }
    range_of(begun).is_some()
}

/// Returns the ranges of the list `text`, in ascending order. Each takes 16 bytes of memory. If `text` is not a list,
/// any ascending ranges may be returned. (Our own.)
#[tactic(auto, using(crate::proofs::RangeLists::one_more, crate::proofs::RangeLists::so_far_above))]
pub fn ranges_in<A: Allocator>(alloc: A, text: &str) -> Result<Vec<Range, A>, AllocError>
    ensures found { IfOk result (λ ranges. (are : List Range) → spec.ranges_in text.now ≡ Some are
        → ranges.items ≡ are) }
    ensures ascending { IfOk result (λ ranges. AreAscending ranges.items) }
{
    let mut ranges = Vec::new(alloc);
    let mut begun = fresh(0);
    let mut rest = text.as_bytes();
    while let [c, after @ ..] = rest {
        if *c == b',' {
            if let Some(range) = range_of(begun) {
                ranges.push(range)?;
                begun = fresh(range.to);
            }
        } else if let Some(next) = longer(begun, *c) {
            begun = next;
        }
        rest = after;
    }
    if let Some(range) = range_of(begun) {
        ranges.push(range)?;
    }
    Ok(ranges)
}
