//! The text of a path, read as its numbers, which lead from the root of a message to a slot below it.

ghost use Rattle.std.specs.Prelude.{◌≡◌, List, ℕ, true, IfOk, OnErr, Some, is_some};
ghost use Rattle.capn_args.specs.Path as spec;

use std::alloc::{AllocError, Allocator};

/// Returns the number `begun` with the digit `c` appended. `None` means that `c` is no digit, or that the number would
/// exceed 2^64 - 1.
pub(crate) fn with_digit(begun: Option<u64>, c: u8) -> Option<u64>
    ensures { result ≡ spec.with_digit begun c }
{
    if c < b'0' || b'9' < c {
        return None;
    }
    let tens = begun.unwrap_or(0).checked_mul(10)?;
    tens.checked_add(u64::from(c - b'0'))
}

/// Tests whether `text` is a path, which is numbers below 2^64 separated by single dots.
pub(crate) fn is_path(text: &str) -> bool
    ensures { result ≡ is_some (spec.path_of text.now) }
{
    let mut begun: Option<u64> = None;
    let mut rest = text.as_bytes();
    while let [c, after @ ..] = rest {
        if *c == b'.' {
            if begun.is_none() {
                return false;
            }
            begun = None;
        } else {
            match with_digit(begun, *c) {
                Some(number) => begun = Some(number),
                None => return false,
            }
        }
        rest = after;
    }
    begun.is_some()
}

/// Returns the numbers of `path`, in order, which take 8 bytes each. If `path` is `None`, there are no numbers, and no
/// memory is taken. If the text is not a path, any numbers may be returned. (Our own.)
pub fn numbers_of<A: Allocator>(alloc: A, path: Option<&str>) -> Result<Vec<u64, A>, AllocError>
    ensures found { IfOk result (λ numbers. (are : List ℕ) → spec.numbers_of path.entry ≡ Some are
        → numbers.items ≡ are) }
    ensures given { OnErr result (is_some path.entry ≡ true) }
{
    match path {
        Some(text) => numbers_in(alloc, text),
        None => Ok(Vec::new(alloc)),
    }
}

/// Returns the numbers of `text`, which is a path.
fn numbers_in<A: Allocator>(alloc: A, text: &str) -> Result<Vec<u64, A>, AllocError>
    ensures { IfOk result (λ numbers. (path : List ℕ) → spec.path_of text.now ≡ Some path → numbers.items ≡ path) }
{
    let mut numbers = Vec::new(alloc);
    let mut begun: Option<u64> = None;
    let mut rest = text.as_bytes();
    while let [c, after @ ..] = rest {
        if *c == b'.' {
            if let Some(number) = begun {
                numbers.push(number)?;
            }
            begun = None;
        } else {
            begun = with_digit(begun, *c);
        }
        rest = after;
    }
    if let Some(number) = begun {
        numbers.push(number)?;
    }
    Ok(numbers)
}
