//! Tests of the calls on bytes that are read as a message once.

use capn_canon::{Form, are_canonical_of, canonicalise_of, survey_bytes_of};
use capn_walk::Limits;
use std::test::Fail;

/// A stream of one message: a struct of one word, which is 7, and nothing else.
const SEVEN: [u8; 24] = [
    0, 0, 0, 0, 2, 0, 0, 0, 0, 0, 0, 0, 1, 0, 0, 0, 7, 0, 0, 0, 0, 0, 0, 0,
];

/// The struct of `SEVEN` as bare words, with a word of zeros after it.
const LONGER: [u8; 24] = [
    0, 0, 0, 0, 1, 0, 0, 0, 7, 0, 0, 0, 0, 0, 0, 0, 0, 0, 0, 0, 0, 0, 0, 0,
];

/// The calls on a slice give the canonical bytes, the price and the visits, and tell canonical bytes from others.
#[test]
fn calls_on_a_slice(rt: HostRuntime) -> Result<(), Fail> {
    let stream = SEVEN.as_slice();
    let words = &stream[8..];
    let usual = Limits::usual();
    let Ok(canonical) = canonicalise_of(rt.alloc(), Form::Stream, stream, usual) else {
        return Err(Fail::new("no canonical bytes"));
    };
    assert!(rt; canonical.bytes.as_slice() == words);
    assert!(rt; canonical.paid == 2);
    let Ok(surveyed) = survey_bytes_of(rt.alloc(), Form::Stream, stream, usual) else {
        return Err(Fail::new("no survey"));
    };
    assert!(rt; surveyed.paid == 2);
    assert!(rt; surveyed.visits == 1);
    assert!(rt; are_canonical_of(words, usual) == Ok(true));
    assert!(rt; are_canonical_of(LONGER.as_slice(), usual) == Ok(false));
    Ok(())
}
