//! Comparisons of two messages, checked against a comparison of their canonical bytes.

use crate::words::bytes_of;
use capn_canon::{Canonical, Refusal, SameRefusal, Side, canonical_of, same_messages};
use capn_stream::first;
use capn_walk::Limits;
use std::alloc::Global;
use std::process::Abort;

/// Returns the result of `same_messages` for the frames of `one` and `other`. Returns `None` if a frame is not read, or
/// a comparison of the canonical bytes has another result or another refusal.
pub(crate) fn compared(
    alloc: Global,
    one: &[u64],
    other: &[u64],
    limits: Limits,
) -> Option<Result<bool, SameRefusal>> {
    let Ok(one) = bytes_of(alloc, one) else {
        return None;
    };
    let Ok(other) = bytes_of(alloc, other) else {
        return None;
    };
    let Ok((a, _taken)) = first(alloc, one.as_slice(), 8_388_608) else {
        return None;
    };
    let Ok((b, _taken)) = first(alloc, other.as_slice(), 8_388_608) else {
        return None;
    };
    let answer = same_messages(&a, &b, limits);
    let want = wanted(
        canonical_of(alloc, &a, limits),
        canonical_of(alloc, &b, limits),
    );
    if answer == want { Some(answer) } else { None }
}

/// Returns the result of a comparison of canonical bytes, or the refusal of the first side that has none.
fn wanted(
    one: Result<Canonical, Refusal>,
    other: Result<Canonical, Refusal>,
) -> Result<bool, SameRefusal> {
    match one {
        Ok(one) => match other {
            Ok(other) => Ok(one.bytes.as_slice() == other.bytes.as_slice()),
            Err(refusal) => Err(SameRefusal {
                side: Side::Second,
                refusal,
            }),
        },
        Err(refusal) => Err(SameRefusal {
            side: Side::First,
            refusal,
        }),
    }
}

/// Checks that a comparison of `one` and `other`, in both orders, gives `want`.
pub(crate) fn expect(rt: &impl Abort, alloc: Global, one: &[u64], other: &[u64], want: bool) {
    let limits = Limits::usual();
    let there = compared(alloc, one, other, limits);
    let back = compared(alloc, other, one, limits);
    assert!(rt; there == Some(Ok(want)));
    assert!(rt; back == Some(Ok(want)));
}

/// Returns the pointer to a struct of `words` words and `slots` slots after the next `offset` words.
pub(crate) fn node(offset: u64, words: u64, slots: u64) -> u64 {
    offset.wrapping_mul(4)
        | words.wrapping_mul(0x1_0000_0000)
        | slots.wrapping_mul(0x1_0000_0000_0000)
}

/// Returns the pointer to a list of `count` elements of the size code `kind` after the next `offset` words.
pub(crate) fn list(offset: u64, kind: u64, count: u64) -> u64 {
    1 | offset.wrapping_mul(4)
        | kind.wrapping_mul(0x1_0000_0000)
        | count.wrapping_mul(0x8_0000_0000)
}
